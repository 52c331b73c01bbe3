// The reader: "checks the whole text, then hands out the rows one after the other". `opened` checks; `next` at 0, 108, 216, .. gives the rows of a
// listing in order, then the end, and of any other text nothing (listing/specs/Laws.antt, `hands_out_checked`, `ends_checked` and
// `hands_nothing`). (Lines and columns)
#![tactic(auto)]

ghost use Rattle.std.specs.Prelude.{◌≡◌};
ghost use Rattle.rules.specs.Numbers.{refusal_number};
ghost use Rattle.listing.specs.Text.{refusal_of_text, step_in, step_of, moved_on};

use listing::reader::ListingReader;
use listing::texts::Step;
use listing_text::{next_at, refusal_of_text, step_in};

// A reader at the start of a text, the whole of it checked.
pub fn opened<'a>(text: &'a [u8]) -> ListingReader<'a>
    ensures { (result.text ≡ text.entry) × ((result.at ≡ 0) × (refusal_number result.checked ≡ refusal_of_text text.now)) }
{
    let checked = refusal_of_text(text);
    ListingReader {
        text,
        at: 0,
        checked,
    }
}

// What stands at its position.
pub fn next<'a>(r: ListingReader<'a>) -> Step
    ensures { result ≡ step_in r.entry.text.now r.entry.at (refusal_number r.entry.checked) }
{
    step_in(r.text, r.at, r.checked)
}

// "hands out the rows one after the other": what stands at its position, and the reader moves on. (Lines and columns)
pub fn hand_out<'s, 'a>(r: &'s mut ListingReader<'a>) -> Step
    ensures { (result ≡ step_in r.old.text.now r.old.at (refusal_number r.old.checked)) × (r.new ≡ moved_on r.old) }
{
    let found = step_in(r.text, r.at, r.checked);
    r.at = next_at(r.text, r.at);
    found
}

// The same reader at another position.
pub fn moved<'a>(r: ListingReader<'a>, at: usize) -> ListingReader<'a>
    ensures { (result.text ≡ r.entry.text) × ((result.at ≡ at) × (result.checked ≡ r.entry.checked)) }
{
    ListingReader { at, ..r }
}

// What a reader of the text finds at a position, for callers that have a plain slice and a number.
pub fn row_from(text: &[u8], at: usize) -> Step
    ensures { result ≡ step_of text.now at }
{
    next(moved(opened(text), at))
}
