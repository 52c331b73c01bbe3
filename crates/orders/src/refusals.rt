// Each call's refusal: 1 for the host's memory, the call's list, then 1 for money that would leave 0 to L.
ghost use Rattle.std.specs.Prelude.{◌≡◌, IfOk, not, ◌&&◌};
ghost use Rattle.rules.specs.Keyed.{is_there, or_else};
ghost use Rattle.rules.specs.Numbers.{refusal_number, refused_if};
ghost use Rattle.rules.specs.Orders.{shanghai};
ghost use Rattle.rules.specs.declared.refusals.Refusal.TheVariants.{Unsound};
ghost use Rattle.quota.specs.Asks.{group_of_unit};
ghost use Rattle.orders.specs.Host.{host_ok, named_ok};
ghost use Rattle.orders.specs.Calls.{reads_in, place_reads, order_listed, fill_listed, cancel_listed};

use crate::host::{host_ok, is_given, named_ok, sound};
use book_money::{accepted_of, money_at, places_of};
use book_places::place_at;
use quota::asks::{attachment_of, own_in_force_of};
use rules::money::Mils;
use rules::refusals::{Refusal, refuse};
use rules::trading::{OrderReads, PlaceReads};
use rules_trading::{cancel_refusal, fill_refusal, order_refusal};

fn reads_of_order(register: &[u32], book: &[u64], attached_to: Option<u64>) -> OrderReads
    ensures { result ≡ reads_in register.now book.now (is_there attached_to) (or_else 0 attached_to) }
{
    let group = attached_to.unwrap_or(0);
    OrderReads {
        attached: attached_to.is_some(),
        own: own_in_force_of(register, group),
        money: money_at(book, group),
        full: places_of(book) <= accepted_of(book),
    }
}

fn reads_of_place(book: &[u64], places: &[u64], order: u64) -> PlaceReads
    ensures { result ≡ place_reads book.now places.now order }
{
    let place = place_at(places, order);
    PlaceReads {
        given: is_given(book, order),
        kind: place.kind,
        price: place.price,
        open: place.open,
    }
}

// Call 8: the host's 1 and the list; else the unit's group, so that the unit is searched for once.
pub fn listed_of_order(
    register: &[u32],
    book: &[u64],
    places: &[u64],
    unit: u64,
    kind: u64,
    price: Mils,
    quantity: u64,
) -> Result<u64, Refusal>
    ensures refusal { refusal_number result ≡ order_listed shanghai register.now book.now places.now unit kind price quantity }
    ensures group { IfOk result (λ group. group ≡ group_of_unit register.now unit) }
{
    sound(register, book, places)?;
    let attached_to = attachment_of(register, unit);
    let reads = reads_of_order(register, book, attached_to);
    order_refusal(unit, kind, price, quantity, reads)?;
    // Kept (no plainer): an attached unit has a group, since the list refuses the others: 0 stands for a branch that is never taken, with no `unwrap` to prove.
    Ok(attached_to.unwrap_or(0))
}

// The host's 1 where a call names an order.
fn named(register: &[u32], book: &[u64], places: &[u64], order: u64) -> Result<(), Refusal>
    ensures { result ≡ refused_if (not (host_ok register.now book.now places.now && named_ok register.now book.now places.now order)) Unsound }
{
    let ok = host_ok(register, book, places) && named_ok(register, book, places, order);
    refuse(!ok, Refusal::Unsound)
}

// Call 9: the host's 1 and the list.
pub fn listed_of_fill(
    register: &[u32],
    book: &[u64],
    places: &[u64],
    order: u64,
    price: Mils,
    quantity: u64,
) -> Result<(), Refusal>
    ensures { refusal_number result ≡ fill_listed register.now book.now places.now order price quantity }
{
    named(register, book, places, order)?;
    fill_refusal(order, price, quantity, reads_of_place(book, places, order))
}

// Call 10: the host's 1 and the list.
pub fn listed_of_cancel(
    register: &[u32],
    book: &[u64],
    places: &[u64],
    order: u64,
) -> Result<(), Refusal>
    ensures { refusal_number result ≡ cancel_listed register.now book.now places.now order }
{
    named(register, book, places, order)?;
    cancel_refusal(order, reads_of_place(book, places, order))
}
