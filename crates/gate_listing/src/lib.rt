// The gate's listing, written into a lent buffer.
#![tactic(auto)]

ghost use Rattle.std.specs.Prelude.{◌≡◌, true, ◌*◌, ◌≤◌, ◌&&◌, not, length};
ghost use Rattle.std.specs.Bool.{then_some};
ghost use Rattle.std.proofs.Math.Seq.{paste};
ghost use Rattle.rules.specs.Numbers.{refusal_number};
ghost use Rattle.rows.specs.Row.{row_kept, row_at};
ghost use Rattle.listing.specs.Text.{listing_text, rows_kept, row_bytes};
ghost use Rattle.listing.specs.Keys.{key_number, among};
ghost use Rattle.gate_listing.specs.Listed.{rows_on, list_refusal, listed};
ghost use Rattle.claim.specs.Step.{memory};

use listing::keys::{is_among, key_of};
use listing::lines::{ROW, put_row};
use orders::host::sound;
use quota::asks::groups_enrolled;
use rows::row_at;
use rules::limits::MOST_GROUPS;
use rules::refusals::{Refusal, refuse};

// The key of a group's row, where it keeps its rules and none of those seen is the same.
#[tactic(auto, using(crate::proofs::Rows::key_at, crate::proofs::Rows::kept_where, crate::proofs::Rows::none_kept))]
fn new_key(register: &[u32], book: &[u64], group: u64, seen: &[u32]) -> Option<u32>
    ensures { let row = (row_at register.now book.now group).row in result ≡ then_some (row_kept row && not (among (key_number row) seen.now)) (key_number row) }
{
    let key = key_of(row_at(register, book, group).ok()?);
    (!is_among(key, seen)).then_some(key)
}

// Kept (no plainer): `listing_text::lines_kept` is the same loop over lines; one function of both would take a closure, and its contract at both.
// Whether the rows of the first n groups keep their rules, no code with its class repeated. No row is read behind the first that shows they do not.
#[tactic(auto, using(crate::proofs::Rows::rest_all, crate::proofs::Rows::rest_goes, crate::proofs::Rows::numbers_more, crate::proofs::Rows::rest_new_more, crate::proofs::Rows::rest_new_none, crate::proofs::Rows::rest_new_all, crate::proofs::Rows::none_on, std::proofs::lemmas::List::take_more_set, std::proofs::lemmas::Grind::common_steps))]
fn rows_kept(register: &[u32], book: &[u64], n: usize) -> bool
    requires { n ≤ 64 }
    ensures { result ≡ rows_kept (rows_on register.now book.now 0 n) }
{
    let mut keys = [0; MOST_GROUPS as usize];
    for i in 0..n {
        // Kept (no plainer): `usize` has no `From` into `u64`, here and below; `try_from` would add a refusal that never comes.
        match new_key(register, book, i as u64, &keys[..i]) {
            Some(key) => keys[i] = key,
            None => return false,
        }
    }
    true
}

// 1, 22 or nothing.
#[tactic(auto, using(crate::proofs::Rows::list_is, crate::proofs::Rows::enrolled_most))]
fn refusal_of_listing(
    register: &[u32],
    book: &[u64],
    places: &[u64],
    room: usize,
) -> Result<(), Refusal>
    ensures { refusal_number result ≡ list_refusal (memory register.now book.now places.now) room }
{
    sound(register, book, places)?;
    let n = groups_enrolled(register) as usize;
    refuse(!rows_kept(register, book, n), Refusal::Unsound)?;
    refuse(room < ROW * n, Refusal::ShortBuffer)
}

// Kept (no plainer): row i by its place, 108 × i, as in `listing_rooms`.
// The rows of the first n groups, one behind the other from the buffer's start.
#[tactic(auto, using(crate::proofs::Rows::put_step, crate::proofs::Rows::kept_first, crate::proofs::Rows::kept_where, crate::proofs::Rows::none_kept))]
fn put_rows(register: &[u32], book: &[u64], n: usize, buffer: &mut [u8])
    requires { (row_bytes * n ≤ length buffer.old) × (rows_kept (rows_on register.now book.now 0 n) ≡ true) }
    ensures { buffer.new ≡ paste buffer.old 0 (listing_text (rows_on register.now book.now 0 n)) (row_bytes * n) }
{
    for i in 0..n {
        if let Ok(row) = row_at(register, book, i as u64) {
            put_row(buffer, ROW * i, row);
        }
    }
}

// Kept (rule): three slices and no `gate::Gate`: C lends them to be read alone (`const`). So it is for a row (`rows::row_of`).
// The gate's listing.
#[tactic(auto, using(crate::proofs::Rows::list_is, rules::specs::Numbers::refused_is), unfolding(crate::specs::Listed::listed, crate::specs::Listed::gate_rows))]
pub fn write(
    register: &[u32],
    book: &[u64],
    places: &[u64],
    buffer: &mut [u8],
) -> Result<(), Refusal>
    ensures answer { refusal_number result ≡ list_refusal (memory register.now book.now places.now) (length buffer.old) }
    ensures buffer { buffer.new ≡ listed (memory register.now book.now places.now) buffer.old }
{
    refusal_of_listing(register, book, places, buffer.len())?;
    put_rows(register, book, groups_enrolled(register) as usize, buffer);
    Ok(())
}
