// "Orders": one match on the kind decides the side, the price rule and the worse-fill test; and when a buy is accepted.
#![tactic(auto)]

ghost use Rattle.std.specs.Prelude.{◌≡◌, ◌+◌, ◌≤◌, ◌<◌, leb};
ghost use Rattle.rules.specs.Limits.{is_price};
ghost use Rattle.rules.specs.Orders.{is_buy, price_rule, worse_fill, decided_by, net_of, shanghai, stops};

use rules::kinds::{Decided, Money};
use rules::limits::{REPO_PRICE, TOP_PRICE};
use rules::money::{Millions, Mils, mils_of};

fn in_price_range(price: Mils) -> bool
    ensures { result ≡ is_price price }
{
    (1..=TOP_PRICE).contains(&price.0)
}

// Buys: kind 3 is repo lending, 1 and 2 may not be filled above the order's price.
#[tactic(auto, unfolding(rules::specs::Orders::is_buy, rules::specs::Orders::price_rule, rules::specs::Orders::worse_fill))]
fn decided_of_buy(kind: u64, price: Mils, fill: Mils) -> Decided
    requires { (1 ≤ kind) × (kind ≤ 3) }
    ensures { result ≡ decided_by kind price fill }
{
    if kind == 3 {
        return Decided {
            buy: true,
            priced: price.0 == REPO_PRICE,
            worse: fill.0 != REPO_PRICE,
        };
    }
    Decided {
        buy: true,
        priced: in_price_range(price),
        worse: price < fill,
    }
}

// Kept (rule): "match on kind 1..6 ..": a kind is a number here, in calls, places and reads: a field or a word of lent memory may have any value.
// The one match on the kind. What it says of a number that is no kind decides nothing: 2 refuses the order.
#[tactic(auto, unfolding(rules::specs::Orders::is_buy, rules::specs::Orders::price_rule, rules::specs::Orders::worse_fill))]
pub fn decide(kind: u64, price: Mils, fill: Mils) -> Decided
    ensures { result ≡ decided_by kind price fill }
{
    match kind {
        1..=3 => decided_of_buy(kind, price, fill),
        4 => Decided {
            buy: false,
            priced: in_price_range(price),
            worse: fill < price,
        },
        5 => Decided {
            buy: false,
            priced: price.0 == 0,
            worse: false,
        },
        6 => Decided {
            buy: false,
            priced: price.0 == REPO_PRICE,
            worse: fill.0 != REPO_PRICE,
        },
        _ => Decided {
            buy: false,
            priced: in_price_range(price),
            worse: false,
        },
    }
}

// Kinds 1, 2, 3 are buys.
pub fn is_buy(kind: u64) -> bool
    ensures { result ≡ is_buy kind }
{
    decide(kind, Mils(0), Mils(0)).buy
}

// The order's price obeys its kind's price rule.
pub fn price_ok(kind: u64, price: Mils) -> bool
    ensures { result ≡ price_rule kind price }
{
    decide(kind, price, Mils(0)).priced
}

// A fill's price is worse than the order of that kind and price allows.
pub fn worse_fill(kind: u64, price: Mils, fill: Mils) -> bool
    ensures { result ≡ worse_fill kind price fill }
{
    decide(kind, price, fill).worse
}

// Shanghai's rule of acceptance: net, before the order, is below the own quota, whatever the order's amount. Open + bought < own + sold, over 128 bits, where
// no sum wraps.
#[tactic(auto, using(crate::proofs::Deciding::shanghai_sums))]
pub fn accepts(own: Mils, money: Money) -> bool
    ensures { (amount : Mils) → result ≡ shanghai own (net_of money) amount }
{
    let used = u128::from(money.open.0) + u128::from(money.bought.0);
    used < u128::from(own.0) + u128::from(money.sold.0)
}

// Shanghai's rule stops a buy under the own quota in force; where none is in force it does not.
#[tactic(auto, unfolding(rules::specs::Orders::stops))]
pub fn stops_buy(own: Option<Millions>, money: Money) -> bool
    ensures { (amount : Mils) → result ≡ stops shanghai own (net_of money) amount }
{
    own.is_some_and(|quota| !accepts(mils_of(quota), money))
}
