// Numbers put into columns of a buffer: plain, optional and signed.
ghost use Rattle.std.specs.Prelude.{◌≡◌, ◌+◌, ◌<◌, length, replicate};
ghost use Rattle.std.specs.Option.{is_some, unwrap_or};
ghost use Rattle.rules.specs.Tests.{pick};
ghost use Rattle.columns.specs.Column.{marked, dashed, plain_put, optional_put, signed_put};
ghost use Rattle.columns.specs.Parts.{front};

use columns::bytes::holds;
use columns::reading::Signed;
use columns_powers::{fits, optional_fits, signed_fits};

pub(crate) fn glyph(d: u64) -> u8
    requires { d < 10 }
    ensures { result ≡ 48 + d }
{
    // Kept (no plainer): a digit is below 10; `u8::try_from` would add a case that never comes.
    b'0' + (d as u8)
}

// The mark into the last byte of a column of blanks.
#[tactic(auto, using(columns::proofs::Parts::front_put), unfolding(columns::specs::Parts::front))]
fn put_mark(column: &mut [u8], mark: u8)
    requires { column.old ≡ replicate (length column.old) 32 }
    ensures { column.new ≡ front mark (length column.old) }
{
    if let Some(last) = column.last_mut() {
        *last = mark;
    }
}

// n over a column of blanks: from the right, the digits that are left of n, and when none is, the mark in front of them. How many digits n has the compiler
// can't know, and it unrolls nothing.
// Kept (proof): by index; tried: under `.iter_mut().rev()` the goals speak of an iterator and of what its `next` yielded, and stay open.
#[tactic(auto, using(crate::proofs::Turns::put_turns))]
fn put_over(column: &mut [u8], mark: u8, n: u64)
    requires { column.old ≡ replicate (length column.old) 32 }
    ensures { column.new ≡ marked mark (length column.old) n }
{
    let mut rest = n;
    for i in (0..column.len()).rev() {
        column[i] = glyph(rest % 10);
        rest /= 10;
        if rest == 0 {
            return put_mark(&mut column[..i], mark);
        }
    }
}

// n right-justified into a column, with the mark directly before its first digit.
// Kept (speed): blanks first, where the width is known: filled in front of the digits alone, each is a call of the C library.
fn put_marked(column: &mut [u8], mark: u8, n: u64)
    ensures { column.new ≡ marked mark (length column.old) n }
{
    column.fill(b' ');
    put_over(column, mark, n);
}

// "-" into a column, and blanks in front of it.
#[tactic(auto, using(columns::proofs::Parts::front_dash))]
fn put_dash(column: &mut [u8])
    ensures { column.new ≡ dashed (length column.old) }
{
    column.fill(b' ');
    put_mark(column, b'-');
}

pub fn mark_of(below: bool) -> u8
    ensures { result ≡ pick below 45 32 }
{
    if below { b'-' } else { b' ' }
}

// n into the w columns from at on; nothing where there is no room. It has no number to refuse by: its caller (`listing::lines`, `callfile_lines::writing`) has
// looked at the buffer's length and at the width of n before, and so have those of the two below.
// Kept (no plainer): a buffer and a place, and not a column cut from it, so that each put is total: where there is no room no column can be cut.
#[tactic(auto, using(crate::proofs::Puts::marked_in), unfolding(columns::specs::Column::plain_put))]
pub fn put_plain(out: &mut [u8], at: usize, w: usize, n: u64)
    ensures { out.new ≡ plain_put out.old at w n }
{
    if holds(out.len(), at, w) && fits(w, n) {
        put_marked(&mut out[at..at + w], b' ', n);
    }
}

// n, or "-" where it is missing.
#[tactic(auto, using(crate::proofs::Puts::marked_in, crate::proofs::Puts::dashed_in), unfolding(columns::specs::Column::optional_put))]
pub fn put_optional(out: &mut [u8], at: usize, w: usize, n: Option<u64>)
    ensures { out.new ≡ optional_put out.old at w (is_some n) (unwrap_or n 0) }
{
    if !holds(out.len(), at, w) || !optional_fits(w, n) {
        return;
    }
    let column = &mut out[at..at + w];
    match n {
        Some(n) => put_marked(column, b' ', n),
        None => put_dash(column),
    }
}

// The number of that size, below 0 or not.
#[tactic(auto, using(crate::proofs::Puts::marked_in), unfolding(columns::specs::Column::signed_put))]
pub fn put_signed(out: &mut [u8], at: usize, w: usize, n: Signed)
    ensures { out.new ≡ signed_put out.old at w n.below n.size }
{
    if holds(out.len(), at, w) && signed_fits(w, n) {
        put_marked(&mut out[at..at + w], mark_of(n.below), n.size);
    }
}
