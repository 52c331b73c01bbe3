// The opening: a fresh gate in a lent register and book of any content. No place is written.
#![tactic(auto)]

ghost use Rattle.std.specs.Prelude.{◌≡◌};
ghost use Rattle.rules.specs.Numbers.{refusal_number};
ghost use Rattle.claim.specs.Opening.{open_refusal, open_register, open_book};
ghost use Rattle.claim.specs.Step.{memory};

use book::layout::{BOOK, PLACE_WORDS, PLACES};
use register::layout::REGISTER;
use register_ratios::put_ratios;
use rules::limits::TOP_ORDER;
use rules::quotas::Ratios;
use rules::refusals::{Refusal, refuse};

// Kept (rule): three slices and no `gate::Gate`: C lends the places to be read alone (`const`).
// Refused where a slice has another length or N, the places lent, is out of its range.
#[tactic(auto, unfolding(claim::specs::Opening::open_refusal))]
pub fn refusal_of_opening(register: &[u32], book: &[u64], places: &[u64]) -> Result<(), Refusal>
    ensures { refusal_number result ≡ open_refusal (memory register.now book.now places.now) }
{
    let n = places.len() / PLACE_WORDS;
    let whole = places.len() == PLACE_WORDS * n;
    let lent = whole & ((1 <= n) & (n <= TOP_ORDER as usize));
    let ok = (register.len() == REGISTER) & ((book.len() == BOOK) & lent);
    refuse(!ok, Refusal::Unsound)
}

// A fresh gate: nothing enrolled or attached, no order, the old ratios, N as many as the places lent.
#[tactic(auto, using(crate::proofs::Opened::open_fits), unfolding(claim::specs::Opening::open_register, claim::specs::Opening::open_book))]
pub fn open(register: &mut [u32], book: &mut [u64], places: &[u64]) -> Result<(), Refusal>
    ensures answer { refusal_number result ≡ open_refusal (memory register.old book.old places.now) }
    ensures register { register.new ≡ open_register (memory register.old book.old places.now) }
    ensures book { book.new ≡ open_book (memory register.old book.old places.now) }
{
    refusal_of_opening(register, book, places)?;
    let n = places.len() / PLACE_WORDS;
    book.fill(0);
    // Kept (no plainer): `usize` has no `From` into `u64`.
    book[PLACES] = n as u64;
    register.fill(0);
    put_ratios(register, Ratios::old());
    Ok(())
}
