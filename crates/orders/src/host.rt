// What the host lends: every figure in its range, N as at opening. Refusal 1 comes before everything.
ghost use Rattle.std.specs.Prelude.{◌≡◌, not};
ghost use Rattle.rules.specs.Numbers.{refused_if};
ghost use Rattle.rules.specs.declared.refusals.Refusal.TheVariants.{Unsound};
ghost use Rattle.orders.specs.Host.{host_ok, is_given, named_ok};

use book::check::{book_ok, place_ok};
use book_money::accepted_of;
use book_places::place_at;
use quota::asks::{groups_enrolled, is_sound};
use rules::refusals::{Refusal, refuse};

// Register, book and places are sound.
#[tactic(auto, unfolding(crate::specs::Host::host_ok))]
pub fn host_ok(register: &[u32], book: &[u64], places: &[u64]) -> bool
    ensures { result ≡ host_ok register.now book.now places.now }
{
    is_sound(register) & book_ok(book, places, groups_enrolled(register))
}

// Refused unless what the host lends is sound.
pub fn sound(register: &[u32], book: &[u64], places: &[u64]) -> Result<(), Refusal>
    ensures { result ≡ refused_if (not (host_ok register.now book.now places.now)) Unsound }
{
    refuse(!host_ok(register, book, places), Refusal::Unsound)
}

// The number was given since the close.
pub fn is_given(book: &[u64], order: u64) -> bool
    ensures { result ≡ is_given book.now order }
{
    (1..=accepted_of(book)).contains(&order)
}

// The place of the order that a call names is sound, if that number was given since the close.
#[tactic(auto, unfolding(crate::specs::Host::named_ok))]
pub fn named_ok(register: &[u32], book: &[u64], places: &[u64], order: u64) -> bool
    ensures { result ≡ named_ok register.now book.now places.now order }
{
    !is_given(book, order) || place_ok(place_at(places, order), groups_enrolled(register))
}
