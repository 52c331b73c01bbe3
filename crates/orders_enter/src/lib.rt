// Call 8. A refused order answers its number and leaves book and places as they were, word for word.
#![tactic(auto)]

ghost use Rattle.std.specs.Prelude.{◌≡◌, ◌≤◌};
ghost use Rattle.rules.specs.Limits.{top_price, top_quantity};
ghost use Rattle.rules.specs.Numbers.{told};
ghost use Rattle.rules.specs.Orders.{shanghai};
ghost use Rattle.book.specs.Known.{InMoney};
ghost use Rattle.orders.specs.Booking.{booked_order, money_or_unsound};
ghost use Rattle.orders.specs.Calls.{order_answer, order_book, order_places};

use book::places::Place;
use book_money::{accepted_of, money_at, put_accepted, put_money};
use book_places::put_place;
use orders::refusals::listed_of_order;
use orders_booking::{booked_if_fits, counted};
use rules::kinds::Money;
use rules::money::Mils;
use rules::refusals::Refusal;
use rules_kinds::is_buy;

// Kept (no plainer): price and quantity in range stand in three private contracts, by the list or the place read before: a type would be made at each.
// The group's money after it: a buy adds its amount to the open buys; a sell counts only when filled.
#[tactic(auto, using(orders_booking::proofs::Amounts::counted_most, orders_booking::proofs::Amounts::in_range_lem), unfolding(orders::specs::Booking::booked_order))]
fn booked_order(money: Money, kind: u64, price: Mils, quantity: u64) -> Result<Money, Refusal>
    requires { (InMoney money) × ((price.0 ≤ top_price) × (quantity ≤ top_quantity)) }
    ensures { result ≡ money_or_unsound (booked_order money kind price quantity) }
{
    let more = counted(is_buy(kind), price, quantity);
    booked_if_fits(Money {
        open: Mils(money.open.0 + more),
        ..money
    })
}

// Kept (rule): register, book and places one by one, as in `orders`; the rest are the fields of the call's variant.
// Call 8. Order: the next number, its own place, and a buy's amount to the open buys.
#[tactic(auto, using(crate::proofs::Needed::order_fits), unfolding(orders::specs::Calls::order_refusal, orders::specs::Calls::order_answer, orders::specs::Calls::order_book, orders::specs::Calls::order_places))]
pub fn order(
    register: &[u32],
    book: &mut [u64],
    places: &mut [u64],
    unit: u64,
    kind: u64,
    price: Mils,
    quantity: u64,
) -> Result<u64, Refusal>
    ensures { (told result ≡ order_answer shanghai register.now book.old places.old unit kind price quantity)
        × ((book.new ≡ order_book shanghai register.now book.old places.old unit kind price quantity)
        × (places.new ≡ order_places shanghai register.now book.old places.old unit kind price quantity)) }
{
    let group = listed_of_order(register, book, places, unit, kind, price, quantity)?;
    let money = booked_order(money_at(book, group), kind, price, quantity)?;
    let number = accepted_of(book) + 1;
    let place = Place {
        group,
        kind,
        price,
        open: quantity,
    };
    put_place(places, number, place);
    put_money(book, group, money);
    put_accepted(book, number);
    Ok(number)
}
