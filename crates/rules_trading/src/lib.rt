// The refusals of calls 8 to 10, orders, fills and cancels, each over what the call reads.
#![tactic(auto)]

ghost use Rattle.std.specs.Prelude.{◌≡◌, ◌&&◌};
ghost use Rattle.rules.specs.Orders.{is_buy, net_of, shanghai, stops};
ghost use Rattle.rules.specs.Quotas.{is_none};
ghost use Rattle.rules.specs.Calls.{in_range};
ghost use Rattle.rules.specs.declared.calls.Call.TheVariants.{Order, Fill};
ghost use Rattle.rules.specs.Numbers.{refusal_number};
ghost use Rattle.rules.specs.Refusals.{refusal};
ghost use Rattle.rules.specs.Lists.{order_rules, fill_rules, cancel_rules};

use rules::limits::{TOP_CODE, TOP_ORDER, TOP_PRICE, TOP_QUANTITY};
use rules::money::Mils;
use rules::refusals::{Refusal, refuse};
use rules::trading::{OrderReads, PlaceReads};
use rules_kinds::{is_buy, price_ok, stops_buy, worse_fill};

// Kept (no plainer): unit, kind, price and quantity are the fields of `Call::Order`, order, price and quantity those of `Call::Fill`: no second name for those.
// The fields of an order: unit, kind, price by the kind's rule, quantity.
fn order_in_range(unit: u64, kind: u64, price: Mils, quantity: u64) -> bool
    ensures { result ≡ in_range (Order unit kind price quantity) }
{
    unit <= TOP_CODE
        && (1..=6).contains(&kind)
        && price_ok(kind, price)
        && (1..=TOP_QUANTITY).contains(&quantity)
}

// 15: no own quota is in force, for buys alone.
fn lacks_maximum(kind: u64, reads: OrderReads) -> bool
    ensures { result ≡ (is_buy kind && is_none reads.own) }
{
    is_buy(kind) && reads.own.is_none()
}

// 16: Shanghai's rule stops it, for buys alone, whatever the order's amount.
fn quota_reached(kind: u64, reads: OrderReads) -> bool
    ensures { (amount : Mils) → result ≡ (is_buy kind && stops shanghai reads.own (net_of reads.money) amount) }
{
    is_buy(kind) && stops_buy(reads.own, reads.money)
}

// Call 8, order, by Shanghai's rule of acceptance.
#[tactic(auto, unfolding(rules::specs::Lists::order_rules))]
pub fn order_refusal(
    unit: u64,
    kind: u64,
    price: Mils,
    quantity: u64,
    reads: OrderReads,
) -> Result<(), Refusal>
    ensures { refusal_number result ≡ refusal (order_rules shanghai unit kind price quantity reads) }
{
    let in_range = order_in_range(unit, kind, price, quantity);
    refuse(!in_range, Refusal::OutOfRange)?;
    refuse(!reads.attached, Refusal::NotThere)?;
    refuse(lacks_maximum(kind, reads), Refusal::NoMaximum)?;
    refuse(quota_reached(kind, reads), Refusal::QuotaReached)?;
    refuse(reads.full, Refusal::NoPlace)
}

// The fields of a fill: order number, price, quantity.
fn fill_in_range(order: u64, price: Mils, quantity: u64) -> bool
    ensures { result ≡ in_range (Fill order price quantity) }
{
    (1..=TOP_ORDER).contains(&order)
        && (1..=TOP_PRICE).contains(&price.0)
        && (1..=TOP_QUANTITY).contains(&quantity)
}

// Call 9, fill.
#[tactic(auto, unfolding(rules::specs::Lists::fill_rules))]
pub fn fill_refusal(
    order: u64,
    price: Mils,
    quantity: u64,
    reads: PlaceReads,
) -> Result<(), Refusal>
    ensures { refusal_number result ≡ refusal (fill_rules order price quantity reads) }
{
    let in_range = fill_in_range(order, price, quantity);
    refuse(!in_range, Refusal::OutOfRange)?;
    refuse(!reads.given, Refusal::NotGiven)?;
    refuse(reads.open < quantity, Refusal::AboveOpen)?;
    refuse(
        worse_fill(reads.kind, reads.price, price),
        Refusal::WorseFill,
    )
}

// Call 10, cancel.
#[tactic(auto, unfolding(rules::specs::Lists::cancel_rules))]
pub fn cancel_refusal(order: u64, reads: PlaceReads) -> Result<(), Refusal>
    ensures { refusal_number result ≡ refusal (cancel_rules order reads) }
{
    refuse(!(1..=TOP_ORDER).contains(&order), Refusal::OutOfRange)?;
    refuse(!reads.given, Refusal::NotGiven)?;
    refuse(reads.open == 0, Refusal::AboveOpen)
}
