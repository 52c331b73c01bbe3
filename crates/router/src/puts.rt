// Rows and rooms as plain numbers, put into lent words.
ghost use Rattle.std.specs.Prelude.{◌≡◌, true, ◌<◌, length, get_or};
ghost use Rattle.rules.specs.Tests.{pick};
ghost use Rattle.words.specs.Words.{stored};
ghost use Rattle.rows.specs.Row.{no_row};
ghost use Rattle.rows.specs.Room.{room_told};
ghost use Rattle.listing.specs.Text.{is_listing, rows_in};
ghost use Rattle.router.specs.Handed.{row_words};
ghost use Rattle.router.specs.Rooms.{room_words};

use listing::lines::ROW;
use listing::texts::Step;
use listing_text::step_in;
use rows::{Net, Row};
use rules::kinds::Money;
use words::store;

// "-" as a word.
const DASH: u64 = 18_446_744_073_709_551_615;

// A sign as a word.
fn sign_word(below: bool) -> u64
    ensures { result ≡ pick below 1 0 }
{
    u64::from(below)
}

// A row's words into lent words; nothing where they do not fit.
#[tactic(auto, unfolding(crate::specs::Handed::row_words))]
pub(crate) fn put_row(out: &mut [u64], row: Row)
    ensures { out.new ≡ stored out.old 0 (row_words row) }
{
    let Money { open, bought, sold } = row.money;
    let words = [
        row.code,
        row.class,
        row.maximum.map_or(DASH, |quota| quota.0),
        row.own.map_or(DASH, |quota| quota.0),
        sign_word(row.below),
        row.net.0,
        open.0,
        bought.0,
        sold.0,
    ];
    store(out, 0, &words);
}

// A room's words into lent words; nothing where they do not fit.
pub(crate) fn put_room(out: &mut [u64], left: Net)
    ensures { out.new ≡ stored out.old 0 (room_words (room_told (Some left))) }
{
    let Net { below, size } = left;
    store(out, 0, &[sign_word(below), size.0]);
}

// Kept (no plainer): that the text is a listing: as in `listing_rooms`.
// The words of row k of a listing into lent words; nothing where they do not fit.
#[tactic(auto, using(listing::proofs::Lined::row_handed, listing::specs::Rooms::rows_few))]
pub(crate) fn put_found(text: &[u8], k: u64, out: &mut [u64])
    requires { (is_listing text.now ≡ true) × (k < length (rows_in text.now)) }
    ensures { out.new ≡ stored out.old 0 (row_words (get_or (rows_in text.now) k no_row)) }
{
    if let Step::Next(row) = step_in(text, ROW * (k as usize), Ok(())) {
        put_row(out, row);
    }
}
