// Call 10. A refused cancel answers its number and leaves book and places as they were, word for word.
#![tactic(auto)]

ghost use Rattle.std.specs.Prelude.{◌≡◌, ◌≤◌};
ghost use Rattle.rules.specs.Limits.{top_price, top_quantity};
ghost use Rattle.rules.specs.Numbers.{told};
ghost use Rattle.rules.specs.Refusals.{answered};
ghost use Rattle.orders.specs.Booking.{booked_cancel, money_or_unsound};
ghost use Rattle.orders.specs.Calls.{cancel_refusal, cancel_book, cancel_places};

use book::places::Place;
use book_money::{money_at, put_money};
use book_places::{place_at, put_open};
use orders::refusals::listed_of_cancel;
use orders_booking::{booked_if_fits, counted};
use rules::kinds::Money;
use rules::money::Mils;
use rules::refusals::{Refusal, refuse};
use rules_kinds::is_buy;

// Kept (no plainer): price and quantity in range stand in three private contracts, by the list or the place read before: a type would be made at each.
// The group's money after it: a buy's whole open quantity leaves the open buys at the order's price.
#[tactic(auto, using(orders_booking::proofs::Amounts::in_range_lem), unfolding(orders::specs::Booking::booked_cancel))]
fn booked_cancel(money: Money, place: Place) -> Result<Money, Refusal>
    requires { (place.price.0 ≤ top_price) × (place.«open» ≤ top_quantity) }
    ensures { result ≡ money_or_unsound (booked_cancel money place) }
{
    let taken = counted(is_buy(place.kind), place.price, place.open);
    refuse(money.open.0 < taken, Refusal::Unsound)?;
    booked_if_fits(Money {
        open: Mils(money.open.0 - taken),
        ..money
    })
}

// Kept (rule): register, book and places one by one, as in `orders`; the rest are the fields of the call's variant.
// Call 10. Cancel: the whole open quantity, at the order's price.
#[tactic(auto, using(crate::proofs::Needed::cancel_fits), unfolding(orders::specs::Calls::cancel_refusal, orders::specs::Calls::cancel_book, orders::specs::Calls::cancel_places))]
pub fn cancel(
    register: &[u32],
    book: &mut [u64],
    places: &mut [u64],
    number: u64,
) -> Result<u64, Refusal>
    ensures { (told result ≡ answered (cancel_refusal register.now book.old places.old number))
        × ((book.new ≡ cancel_book register.now book.old places.old number)
        × (places.new ≡ cancel_places register.now book.old places.old number)) }
{
    listed_of_cancel(register, book, places, number)?;
    let place = place_at(places, number);
    let money = booked_cancel(money_at(book, place.group), place)?;
    put_money(book, place.group, money);
    put_open(places, number, 0);
    Ok(0)
}
