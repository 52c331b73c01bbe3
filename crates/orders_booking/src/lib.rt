// What calls 8 to 11 make of the book: amounts, money held to L, and the book after the close. What each means is in orders/specs.
#![tactic(auto)]

ghost use Rattle.std.specs.Prelude.{◌≡◌};
ghost use Rattle.rules.specs.Sums.{when};
ghost use Rattle.rules.specs.declared.kinds.Money.{Money};
ghost use Rattle.orders.specs.Booking.{amount_in_range, money_fits, booking, money_or_unsound};
ghost use Rattle.orders.specs.Calls.{closed_book};

use book::layout::{ACCEPTED, CLEARED};
use rules::kinds::Money;
use rules::limits::{TOP_MONEY, TOP_PRICE, TOP_QUANTITY};
use rules::money::Mils;
use rules::refusals::{Refusal, refuse};
use words::store;

// The amount of a price and a quantity, where the test holds; else 0, and 0 out of their ranges, so that no product wraps.
#[tactic(auto, unfolding(orders::specs::Booking::amount_in_range, rules::specs::Sums::when))]
pub fn counted(holds: bool, price: Mils, quantity: u64) -> u64
    ensures { result ≡ when holds (amount_in_range price quantity) }
{
    if holds && price.0 <= TOP_PRICE && quantity <= TOP_QUANTITY {
        price.0 * quantity
    } else {
        0
    }
}

// Open + bought + sold is at most L, and so is each. A sum that would wrap stays at the largest u64, which is above L.
#[tactic(auto, unfolding(orders::specs::Booking::money_fits))]
pub fn money_fits(money: Money) -> bool
    ensures { result ≡ money_fits money }
{
    let Money { open, bought, sold } = money;
    open.0.saturating_add(bought.0).saturating_add(sold.0) <= TOP_MONEY
}

// The money after, if it fits.
pub fn booked_if_fits(after: Money) -> Result<Money, Refusal>
    ensures { (before : Money) → result ≡ money_or_unsound (booking before after) }
{
    refuse(!money_fits(after), Refusal::Unsound)?;
    Ok(after)
}

// The order part of the close: every total and the count are zero, N stays, no place is written.
#[tactic(auto, unfolding(orders::specs::Calls::closed_book))]
pub fn close_orders(book: &mut [u64])
    ensures { book.new ≡ closed_book book.old }
{
    store(book, ACCEPTED, &[0u64; CLEARED]);
}
