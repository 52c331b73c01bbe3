// What is said of a text: the number that its digits make, and whether it is what is written for a number.
ghost use Rattle.std.specs.Prelude.{◌≡◌, ◌≤◌, ◌^◌, ◌&&◌, eqb, ltb, length};
ghost use Rattle.std.specs.List.{list_all};
ghost use Rattle.columns.specs.Parts.{front};
ghost use Rattle.columns.specs.Column.{marked, digit as digitOf, number, digits, same, plain_at, digits_at, marked_at};

use crate::written::glyph;
use columns::bytes::column_at;
use columns_powers::{MOST_DIGITS, fits};

pub fn digit(b: u8) -> u64
    ensures { result ≡ digitOf b }
{
    if b.is_ascii_digit() {
        u64::from(b - b'0')
    } else {
        0
    }
}

// The number that the digits of a column make, by tens.
#[tactic(auto, using(columns::proofs::Steps::run_on, columns::proofs::Steps::run_over, columns::proofs::Steps::run_room, columns::proofs::Steps::digit_most))]
fn number_of(column: &[u8]) -> u64
    requires { length column.now ≤ 19 }
    ensures { result ≡ number column.now }
{
    let mut number = 0;
    for &b in column {
        number = number * 10 + digit(b);
    }
    number
}

// The number that the digits of a column's last nineteen bytes make.
#[tactic(auto, using(crate::proofs::Puts::digits_last))]
pub fn digits_in(column: &[u8]) -> u64
    ensures { result ≡ digits column.now }
{
    number_of(&column[column.len().saturating_sub(MOST_DIGITS)..])
}

// Only blanks stand in a column.
fn is_blank(column: &[u8]) -> bool
    ensures { result ≡ list_all (λ b. eqb b 32) column.now }
{
    column.iter().all(|b| *b == b' ')
}

// Whether a column is blanks, with the mark in its last byte.
#[tactic(auto, using(columns::proofs::Parts::front_behind, columns::proofs::Parts::front_not), unfolding(columns::specs::Parts::front, columns::specs::Column::same))]
pub fn is_front(column: &[u8], mark: u8) -> bool
    ensures { result ≡ same column.now (front mark (length column.now)) }
{
    match column.split_last() {
        Some((last, blanks)) => is_blank(blanks) && *last == mark,
        None => true,
    }
}

// Whether a column is what is written for n with the mark: from the right, as it is written.
#[tactic(auto, using(crate::proofs::Turns::same_turns))]
fn is_marked(column: &[u8], mark: u8, n: u64) -> bool
    ensures { result ≡ same column.now (marked mark (length column.now) n) }
{
    let mut rest = n;
    for i in (0..column.len()).rev() {
        if column[i] != glyph(rest % 10) {
            return false;
        }
        rest /= 10;
        if rest == 0 {
            return is_front(&column[..i], mark);
        }
    }
    true
}

// The same of any n: none is written from 10^19 on.
pub fn marked_in(column: &[u8], mark: u8, n: u64) -> bool
    ensures { result ≡ (ltb n (10 ^ 19) && same column.now (marked mark (length column.now) n)) }
{
    fits(MOST_DIGITS, n) && is_marked(column, mark, n)
}

// The number that the digits of the last nineteen of the w bytes from at on make; 0 where the text is too short. It is that of a plain column, formed or not.
#[tactic(auto, unfolding(columns::specs::Column::digits_at, columns::specs::Column::plain_at, columns::specs::Column::read_plain))]
pub fn digits_at(text: &[u8], at: usize, w: usize) -> u64
    ensures digits { result ≡ digits_at text.now at w }
    ensures plain { result ≡ (plain_at text.now at w).number }
{
    match column_at(text, at, w) {
        Some(column) => digits_in(column),
        None => 0,
    }
}

// Whether the w bytes from at on are what is written for n with the mark; false where the text is too short, or n is not written at all.
#[tactic(auto, using(columns::specs::Pastes::length_part), unfolding(columns::specs::Column::marked_at))]
pub fn marked_at(text: &[u8], at: usize, w: usize, mark: u8, n: u64) -> bool
    ensures { result ≡ marked_at text.now at w mark n }
{
    match column_at(text, at, w) {
        Some(column) => marked_in(column, mark, n),
        None => false,
    }
}
