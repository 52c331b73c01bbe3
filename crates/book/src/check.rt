// The self check of the book: N, the count and the money of the enrolled groups in their ranges, and N places lent.
ghost use Rattle.std.specs.Prelude.{◌≡◌, ◌≤◌, leb};
ghost use Rattle.std.specs.List.{All, list_all};
ghost use Rattle.rules.specs.Limits.{top_money};
ghost use Rattle.book.specs.Check.{book_ok, place_ok};

use crate::layout::{ACCEPTED, BOOK, FIRST_MONEY, MONEY_WORDS, PLACE_WORDS, PLACES};
use crate::places::Place;
use rules::limits::{TOP_MONEY, TOP_ORDER, TOP_QUANTITY};
use rules_kinds::price_ok;
use words::whole;

// The words of money joined bit by bit: none of them is above it.
#[tactic(auto, using(crate::proofs::Money::joined_turn, std::proofs::lemmas::List::take_all))]
fn joined(money: &[u64]) -> u64
    ensures { All (λ word. word ≤ result) money.now }
{
    let mut m = 0;
    for word in money {
        m |= *word;
    }
    m
}

// The words of money are at most L, one by one.
fn each_ok(money: &[u64]) -> bool
    ensures { result ≡ list_all (λ word. leb word top_money) money.now }
{
    let mut ok = true;
    for word in money {
        ok &= *word <= TOP_MONEY;
    }
    ok
}

// The words of money are at most L. Where all of them joined are below 2^62, nothing else is looked at.
fn money_ok(money: &[u64]) -> bool
    ensures { result ≡ list_all (λ word. leb word top_money) money.now }
{
    if joined(money) < 4_611_686_018_427_387_904 {
        return true;
    }
    each_ok(money)
}

// Every figure of the book is in its range, with that many groups enrolled, and the places lent are N.
#[tactic(auto, using(std::proofs::lemmas::Grind::common_steps, crate::proofs::Money::money_run), unfolding(crate::specs::Check::book_ok))]
pub fn book_ok(book: &[u64], places: &[u64], groups: u64) -> bool
    ensures { result ≡ book_ok book.now places.now groups }
{
    let Some(book) = whole::<u64, BOOK>(book) else {
        return false;
    };
    let n = book[PLACES];
    if TOP_ORDER < n {
        return false;
    }
    let lent = places.len() == PLACE_WORDS * (n as usize);
    let words = MONEY_WORDS * (groups.min(64) as usize);
    let money = &book[FIRST_MONEY..FIRST_MONEY + words];
    ((1 <= n) & (lent & (book[ACCEPTED] <= n))) & money_ok(money)
}

// Every figure of a place is in its range, with that many groups enrolled; its price obeys its kind's rule.
#[tactic(auto, unfolding(crate::specs::Check::place_ok))]
pub fn place_ok(place: Place, groups: u64) -> bool
    ensures { result ≡ place_ok place groups }
{
    ((place.group < groups) & (place.group <= 63))
        & (((1 <= place.kind) & (place.kind <= 6))
            & (price_ok(place.kind, place.price) & (place.open <= TOP_QUANTITY)))
}
