// Numbers read from columns of a text: plain, optional and signed.
#![tactic(auto)]

ghost use Rattle.std.specs.Prelude.{◌≡◌, ◌&&◌, ◌≤◌, eqb, leb, length, not, position};
ghost use Rattle.std.specs.Bool.{then_some};
ghost use Rattle.columns.specs.Column.{dashed, number, same, minus, read_plain, plain_at, optional_at, signed_at};
ghost use Rattle.columns.specs.Reading.{formed_plain, formed_optional, formed_signed};
ghost use Rattle.columns.specs.Scan.{blanks, all_digits};

use columns::bytes::column_at;
use columns::reading::Signed;
use columns_write::tabled::{digits_in, is_front, marked_in};
use columns_write::written::mark_of;

// The first byte that is no blank.
fn first_mark(column: &[u8]) -> Option<usize>
    ensures { result ≡ position (λ b. not (eqb b 32)) column.now }
{
    column.iter().position(|b| *b != b' ')
}

// How many blanks stand in front.
#[tactic(auto, using(columns::proofs::Methods::blanks_is))]
fn blanks(column: &[u8]) -> usize
    ensures { (result ≡ blanks column.now) × (result ≤ length column.now) }
{
    first_mark(column).unwrap_or(column.len())
}

// The number that digits make, where all bytes are digits.
#[tactic(auto, using(columns::proofs::Steps::run_steps, columns::proofs::Steps::run_room))]
fn run_of_digits(digits: &[u8]) -> Option<u64>
    requires { length digits.now ≤ 19 }
    ensures { result ≡ then_some (all_digits digits.now) (number digits.now) }
{
    let mut number = 0;
    for &b in digits {
        if !b.is_ascii_digit() {
            return None;
        }
        number = number * 10 + u64::from(b - b'0');
    }
    Some(number)
}

// Blanks, and then digits, nineteen at most, "no leading zeros". (Lines and columns)
#[tactic(auto, using(columns::proofs::Answers::plain_columns))]
fn read_plain(column: &[u8]) -> Option<u64>
    ensures { result ≡ formed_plain (read_plain column.now) }
{
    let digits = &column[blanks(column)..];
    let n = digits.len();
    if n < 1 || 19 < n {
        return None;
    }
    if 1 < n && digits[0] == b'0' {
        return None;
    }
    run_of_digits(digits)
}

// Whether a column is "-".
#[tactic(auto, using(columns::proofs::Parts::dash_is, columns::proofs::Parts::dash_not))]
fn is_dash(column: &[u8]) -> bool
    ensures { result ≡ (leb 1 (length column.now) && same column.now (dashed (length column.now))) }
{
    !column.is_empty() && is_front(column, b'-')
}

// The number in the w columns from at on.
// Kept (no plainer): a text, a place and a width here and in the two below: each caller reads three to eight columns of one line.
#[tactic(auto, using(columns::proofs::Answers::plain_short, columns::proofs::Answers::plain_known))]
pub fn plain_at(text: &[u8], at: usize, w: usize) -> Option<u64>
    ensures { result ≡ formed_plain (plain_at text.now at w) }
{
    read_plain(column_at(text, at, w)?)
}

// The number, or that it is missing.
#[tactic(auto, using(columns::proofs::Answers::optional_short, columns::proofs::Answers::dash_known, columns::proofs::Answers::other_none, columns::proofs::Answers::other_some))]
pub fn optional_at(text: &[u8], at: usize, w: usize) -> Option<Option<u64>>
    ensures { result ≡ formed_optional (optional_at text.now at w) }
{
    let column = column_at(text, at, w)?;
    if is_dash(column) {
        return Some(None);
    }
    Some(Some(read_plain(column)?))
}

// The number and its sign.
#[tactic(auto, using(columns::proofs::Answers::signed_short, columns::proofs::Answers::signed_known))]
pub fn signed_at(text: &[u8], at: usize, w: usize) -> Option<Signed>
    ensures { result ≡ formed_signed (signed_at text.now at w) }
{
    let column = column_at(text, at, w)?;
    let below = column.contains(&b'-');
    let size = digits_in(column);
    let same = marked_in(column, mark_of(below), size);
    let formed = (1 <= column.len()) & (same & !(below & (size == 0)));
    formed.then_some(Signed { below, size })
}
