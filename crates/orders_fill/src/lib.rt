// Call 9. A refused fill answers its number and leaves book and places as they were, word for word.
#![tactic(auto)]

ghost use Rattle.std.specs.Prelude.{◌≡◌, ◌≤◌};
ghost use Rattle.rules.specs.Limits.{top_price, top_quantity};
ghost use Rattle.rules.specs.Numbers.{told};
ghost use Rattle.rules.specs.Refusals.{answered};
ghost use Rattle.book.specs.Known.{InMoney};
ghost use Rattle.orders.specs.Booking.{booked_fill, money_or_unsound};
ghost use Rattle.orders.specs.Calls.{fill_refusal, fill_book, fill_places};

use book::places::Place;
use book_money::{money_at, put_money};
use book_places::{place_at, put_open};
use orders::refusals::listed_of_fill;
use orders_booking::{booked_if_fits, counted};
use rules::kinds::Money;
use rules::money::Mils;
use rules::refusals::{Refusal, refuse};
use rules_kinds::is_buy;

// Kept (no plainer): price and quantity in range stand in three private contracts, by the list or the place read before: a type would be made at each.
// The group's money after it: a buy's quantity leaves the open buys at the order's price and is bought at the fill's; another order's is sold at the fill's.
#[tactic(auto, using(orders_booking::proofs::Amounts::counted_most, orders_booking::proofs::Amounts::in_range_lem), unfolding(orders::specs::Booking::booked_fill))]
fn booked_fill(money: Money, place: Place, price: Mils, quantity: u64) -> Result<Money, Refusal>
    requires { (InMoney money) × ((place.price.0 ≤ top_price) × ((price.0 ≤ top_price) × (quantity ≤ top_quantity))) }
    ensures { result ≡ money_or_unsound (booked_fill money place price quantity) }
{
    let Money { open, bought, sold } = money;
    let buy = is_buy(place.kind);
    let taken = counted(buy, place.price, quantity);
    refuse(open.0 < taken, Refusal::Unsound)?;
    let more = counted(buy, price, quantity);
    let less = counted(!buy, price, quantity);
    booked_if_fits(Money {
        open: Mils(open.0 - taken),
        bought: Mils(bought.0 + more),
        sold: Mils(sold.0 + less),
    })
}

// Kept (rule): register, book and places one by one, as in `orders`; the rest are the fields of the call's variant.
// Call 9. Fill: booked at its own price, its quantity off the order's open quantity.
#[tactic(auto, using(crate::proofs::Needed::fill_fits), unfolding(orders::specs::Calls::fill_refusal, orders::specs::Calls::fill_book, orders::specs::Calls::fill_places))]
pub fn fill(
    register: &[u32],
    book: &mut [u64],
    places: &mut [u64],
    number: u64,
    price: Mils,
    quantity: u64,
) -> Result<u64, Refusal>
    ensures { (told result ≡ answered (fill_refusal register.now book.old places.old number price quantity))
        × ((book.new ≡ fill_book register.now book.old places.old number price quantity)
        × (places.new ≡ fill_places register.now book.old places.old number price quantity)) }
{
    listed_of_fill(register, book, places, number, price, quantity)?;
    let place = place_at(places, number);
    let money = booked_fill(money_at(book, place.group), place, price, quantity)?;
    put_money(book, place.group, money);
    put_open(places, number, place.open - quantity);
    Ok(0)
}
