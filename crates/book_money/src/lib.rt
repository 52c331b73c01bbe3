// A group's money since the close, in mils: open buys, bought, sold. Net is never stored.
#![tactic(auto)]

ghost use Rattle.std.specs.Prelude.{◌≡◌, ltb};
ghost use Rattle.rules.specs.Tests.{pick};
ghost use Rattle.rules.specs.Limits.{most_groups};
ghost use Rattle.book.specs.Layout.{accepted_of, places_of, money_base, no_money, money_at, put_money, put_accepted};

use book::layout::{ACCEPTED, FIRST_MONEY, MONEY_WORDS, PLACES};
use rules::kinds::Money;
use rules::money::Mils;
use words::{store, word_or};

// What a group has that bought and sold nothing.
const NO_MONEY: Money = Money {
    open: Mils(0),
    bought: Mils(0),
    sold: Mils(0),
};

// N; 0 in a memory without a header.
pub fn places_of(book: &[u64]) -> u64
    ensures { result ≡ places_of book.now }
{
    word_or(book, PLACES, 0)
}

// Orders accepted since the close.
pub fn accepted_of(book: &[u64]) -> u64
    ensures { result ≡ accepted_of book.now }
{
    word_or(book, ACCEPTED, 0)
}

// The count of accepted orders put.
#[tactic(auto, unfolding(book::specs::Layout::put_accepted))]
pub fn put_accepted(book: &mut [u64], n: u64)
    ensures { book.new ≡ put_accepted book.old n }
{
    store(book, ACCEPTED, &[n]);
}

// The first word of a group's money; none where there is no such group.
fn base_of(group: u64) -> Option<usize>
    ensures { result ≡ pick (ltb group most_groups) (Some (money_base group)) None }
{
    if 64 <= group {
        return None;
    }
    Some(FIRST_MONEY + MONEY_WORDS * (group as usize))
}

// The money of a group; nothing where there is no such group.
#[tactic(auto, unfolding(book::specs::Layout::money_at))]
pub fn money_at(book: &[u64], group: u64) -> Money
    ensures { result ≡ money_at book.now group }
{
    let Some(base) = base_of(group) else {
        return NO_MONEY;
    };
    Money {
        open: Mils(word_or(book, base, 0)),
        bought: Mils(word_or(book, base + 1, 0)),
        sold: Mils(word_or(book, base + 2, 0)),
    }
}

// The money of a group put; nothing where there is no such group.
#[tactic(auto, unfolding(book::specs::Layout::put_money))]
pub fn put_money(book: &mut [u64], group: u64, money: Money)
    ensures { book.new ≡ put_money book.old group money }
{
    if let Some(base) = base_of(group) {
        store(book, base, &[money.open.0, money.bought.0, money.sold.0]);
    }
}

// No money of a group put; nothing where there is no such group.
pub fn clear_money(book: &mut [u64], group: u64)
    ensures { book.new ≡ put_money book.old group no_money }
{
    put_money(book, group, NO_MONEY);
}
