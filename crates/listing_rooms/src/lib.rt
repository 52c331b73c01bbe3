// The rooms of a listing as text: the whole text is checked by the reader, then each row that it hands out gives a line. What each function means is in
// listing/specs/Rooms.antt.
#![tactic(auto)]

ghost use Rattle.std.specs.Prelude.{◌≡◌, true, ◌+◌, ◌*◌, ◌≤◌, ◌<◌, length, get_or};
ghost use Rattle.std.proofs.Math.Seq.{paste};
ghost use Rattle.rules.specs.Numbers.{refusal_number};
ghost use Rattle.rows.specs.Row.{row_kept, no_row};
ghost use Rattle.rows.specs.Room.{room_told};
ghost use Rattle.listing.specs.Text.{is_listing, rows_in, moved_on, row_bytes};
ghost use Rattle.listing.specs.Rooms.{room_bytes, left_put, room_text, rooms_text, refused_text, rooms_put, rooms_length};

use columns::bytes::put_text;
use columns::reading::Signed;
use columns_write::written::{put_optional, put_plain, put_signed};
use listing::lines::ROW;
use listing::reader::ListingReader;
use listing::texts::Step;
use listing_reader::{hand_out, opened};
use rows::{Net, Row};
use rows_room::room_of;
use rules::limits::MOST_GROUPS;
use rules::refusals::Refusal;

// Bytes of a line, and of the lines of 64 rows.
pub const ROOM: usize = 29;

pub const MOST_ROOMS: usize = ROOM * MOST_GROUPS as usize;

// The room in 21 columns, "-" where there is none.
fn put_left(out: &mut [u8], at: usize, room: Option<Net>)
    ensures { out.new ≡ left_put out.old at (room_told room) }
{
    match room {
        Some(left) => put_signed(
            out,
            at,
            21,
            Signed {
                below: left.below,
                size: left.size.0,
            },
        ),
        None => put_optional(out, at, 21, None),
    }
}

// The line of a row that keeps its rules.
#[tactic(auto, using(crate::proofs::Lined::room_written))]
fn put_room(line: &mut [u8], row: Row)
    requires { (length line.old ≡ room_bytes) × (row_kept row ≡ true) }
    ensures { line.new ≡ room_text row }
{
    put_plain(line, 0, 5, row.code);
    put_plain(line, 5, 2, row.class);
    put_left(line, 7, room_of(row));
    put_text(line, 28, b"\n");
}

// Kept (no plainer): that a text is a listing stands in three private contracts, here and in `router`: a reader is made of other texts too, and keeps why not.
// Kept (no plainer): line i by its place, 29 × i: the laws paste a text into a buffer, and chunks of it would have to be put together again.
// The line of row i of a listing, which the reader hands out next.
#[tactic(auto, using(listing::proofs::Lined::row_handed, crate::proofs::Lined::room_length, listing::specs::Rooms::row_keeps, columns::proofs::Methods::put_is))]
fn put_next(reader: &mut ListingReader, i: usize, out: &mut [u8])
    requires checked { refusal_number reader.old.checked ≡ 0 }
    requires place { reader.old.at ≡ row_bytes * i }
    requires there { (is_listing reader.old.text.now ≡ true) × (i < length (rows_in reader.old.text.now)) }
    requires room { room_bytes * i + room_bytes ≤ length out.old }
    ensures moved { reader.new ≡ moved_on reader.old }
    ensures line { out.new ≡ paste out.old (room_bytes * i) (room_text (get_or (rows_in reader.old.text.now) i no_row)) room_bytes }
{
    if let Step::Next(row) = hand_out(reader) {
        let at = ROOM * i;
        put_room(&mut out[at..at + ROOM], row);
    }
}

// The lines of the n rows of a listing, by a reader at its start.
#[tactic(auto, using(crate::proofs::Lined::rooms_step, listing::specs::Laws::moves_on))]
fn put_rooms(mut reader: ListingReader, n: usize, out: &mut [u8])
    requires checked { refusal_number reader.checked ≡ 0 }
    requires place { reader.at ≡ 0 }
    requires there { (is_listing reader.text.now ≡ true) × (n ≡ length (rows_in reader.text.now)) }
    requires room { room_bytes * n ≤ length out.old }
    ensures { out.new ≡ paste out.old 0 (rooms_text (rows_in reader.entry.text.now)) (room_bytes * n) }
{
    for i in 0..n {
        put_next(&mut reader, i, out);
    }
}

// " 21" and a line feed.
#[tactic(auto, using(crate::proofs::Lined::refused_written))]
fn put_refused(out: &mut [u8])
    requires { 4 ≤ length out.old }
    ensures { out.new ≡ paste out.old 0 refused_text 4 }
{
    put_plain(out, 0, 3, u64::from(Refusal::Malformed));
    put_text(out, 3, b"\n");
}

// The rooms of a text into a buffer of 1,856 bytes or more. Answers how many bytes it wrote.
#[tactic(auto, using(rules::specs::Numbers::refused_is, crate::proofs::Lined::count_rows, crate::proofs::Lined::few_rows, listing::specs::Rooms::length_rooms), unfolding(listing::specs::Rooms::rooms_length, listing::specs::Rooms::rooms_put, listing::specs::Rooms::rooms_of, columns::specs::Column::marked))]
pub fn write_rooms(text: &[u8], out: &mut [u8]) -> usize
    ensures { (result ≡ rooms_length text.now (length out.old)) × (out.new ≡ rooms_put text.now out.old) }
{
    if out.len() < MOST_ROOMS {
        return 0;
    }
    let reader = opened(text);
    match reader.checked {
        Ok(()) => {
            let n = text.len() / ROW;
            put_rooms(reader, n, out);
            ROOM * n
        }
        Err(_) => {
            put_refused(out);
            4
        }
    }
}
