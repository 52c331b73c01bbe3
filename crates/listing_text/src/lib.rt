// A whole text of rows: checked, and each row by its place.
#![tactic(auto)]

ghost use Rattle.std.specs.Prelude.{◌≡◌, ◌≤◌, ◌&&◌, not, length};
ghost use Rattle.std.specs.Bool.{then_some};
ghost use Rattle.rules.specs.Numbers.{refusal_number};
ghost use Rattle.listing.specs.Text.{row_good, is_listing, refusal_of_text, step_at, step_in, next_at};
ghost use Rattle.listing.specs.Keys.{among, line_key_number, lines_kept};

use columns::bytes::{column_at, holds};
use listing::keys::{is_among, key_of};
use listing::lines::ROW;
use listing::texts::Step;
use listing_row::read_line;
use rules::limits::MOST_GROUPS;
use rules::refusals::{Refusal, refuse};

// "at most 64 rows" (Lines and columns): one for each group
const MOST_ROWS: usize = MOST_GROUPS as usize;

// The key of a line that is a row, where none of those seen is the same.
#[tactic(auto, using(crate::proofs::Turns::key_in))]
fn new_key(line: &[u8], seen: &[u32]) -> Option<u32>
    ensures { result ≡ then_some (row_good line.now && not (among (line_key_number line.now) seen.now)) (line_key_number line.now) }
{
    let key = key_of(read_line(line)?);
    (!is_among(key, seen)).then_some(key)
}

// Kept (no plainer): `gate_listing::rows_kept` is the same loop over groups; one function of both would take a closure, and its contract at both.
// Whether each line is a row, and no code with its class is repeated. No line is read behind the first that shows they are not.
#[tactic(auto, using(listing::proofs::Keyed::kept_same, crate::proofs::Turns::good_more, crate::proofs::Turns::kept_rest, crate::proofs::Turns::rest_more, crate::proofs::Turns::rest_none, crate::proofs::Turns::numbers_more, std::proofs::lemmas::List::take_more_set, std::proofs::lemmas::Grind::common_steps))]
fn lines_kept(lines: &[[u8; ROW]]) -> bool
    requires { length lines.now ≤ 64 }
    ensures { result ≡ lines_kept lines.now }
{
    let mut keys = [0; MOST_ROWS];
    for (i, line) in lines.iter().enumerate() {
        match new_key(line, &keys[..i]) {
            Some(key) => keys[i] = key,
            None => return false,
        }
    }
    true
}

// Whether the whole text is a listing.
#[tactic(auto, using(listing::proofs::Keyed::good_by_keys), unfolding(listing::specs::Text::is_listing))]
fn is_listing(text: &[u8]) -> bool
    ensures { result ≡ is_listing text.now }
{
    let (lines, rest) = text.as_chunks::<ROW>();
    rest.is_empty() && lines.len() <= MOST_ROWS && lines_kept(lines)
}

// "The reader checks the whole text": refused by 21 where it is not a listing. (Lines and columns)
pub fn refusal_of_text(text: &[u8]) -> Result<(), Refusal>
    ensures { refusal_number result ≡ refusal_of_text text.now }
{
    refuse(!is_listing(text), Refusal::Malformed)
}

// What stands at a place of a text that was checked.
#[tactic(auto, unfolding(listing::specs::Text::step_at))]
fn step_at(text: &[u8], at: usize) -> Step
    ensures { result ≡ step_at text.now at }
{
    let Some(line) = column_at(text, at, ROW) else {
        return Step::End;
    };
    match read_line(line) {
        Some(row) => Step::Next(row),
        None => Step::Broken,
    }
}

// The same by a reader of what the check said: nothing of a refused text is handed out.
#[tactic(auto, unfolding(listing::specs::Text::step_in))]
pub fn step_in(text: &[u8], at: usize, checked: Result<(), Refusal>) -> Step
    ensures { result ≡ step_in text.now at (refusal_number checked) }
{
    match checked {
        Ok(()) => step_at(text, at),
        Err(_) => Step::Broken,
    }
}

// The place behind the row at a place; the same where too few bytes are left for a row.
#[tactic(auto, unfolding(listing::specs::Text::next_at))]
pub fn next_at(text: &[u8], at: usize) -> usize
    ensures { result ≡ next_at text.now at }
{
    if holds(text.len(), at, ROW) {
        at + ROW
    } else {
        at
    }
}
