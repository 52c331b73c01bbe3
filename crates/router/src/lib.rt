// The gate for order routers: eight functions over memory that the router lends, thin over the proved layers below. Each takes
// memory of any content and any length; docs/EMBEDDING.md says how large it should be and what the caller owes. What a router may count on
// beyond the eight contracts is proved in specs/: Safe.antt, Rows.antt, RoomLaws.antt, TextLaws.antt and LineLaws.antt.
// The crate router_c exports the eight to C, each under its name and with its clauses.
#![tactic(auto)]

pub mod puts; // rows and rooms put into lent words

ghost use Rattle.std.specs.Prelude.{◌≡◌, length};
ghost use Rattle.rules.specs.Codes.{call_of};
ghost use Rattle.rules.specs.Numbers.{refusal_number, told};
ghost use Rattle.rules.specs.Orders.{shanghai};
ghost use Rattle.claim.specs.Opening.{open_refusal, open_register, open_book};
ghost use Rattle.history.specs.Runs.{Loaded};
ghost use Rattle.claim.specs.Step.{memory, step, step_entry};
ghost use Rattle.ratiofile.specs.File.{file_in};
ghost use Rattle.gate_listing.specs.Listed.{list_refusal, listed};
ghost use Rattle.router.specs.Handed.{listed_bytes, handed_refusal, handed_row};
ghost use Rattle.router.specs.Rooms.{room_refusal, room_put};
ghost use Rattle.router.specs.Texts.{found_refusal, found_row, wrote_refusal, line_refusal, line_put};

pub use rules::calls::Answer; // the refusal number, or 0; and the group or order number given, or a listing's bytes, else 0
use crate::puts::{put_found, put_room, put_row};
use callfile::layout::CALL_BYTES;
use callfile::words::{words_fit, words_of};
use callfile_lines::writing::put_call;
use gate::Gate;
use gate_call::calls::call;
use gate_listing::write;
use gate_load::load;
use gate_open::open;
use listing::lines::ROW;
use listing_text::refusal_of_text;
use quota::asks::groups_enrolled;
use rows::row_of;
use rows_room::room_of;
use rules::calls::Call;
use rules::codes::call_of;
use rules::refusals::{Refusal, refuse};

// Bytes a group in a listing.
const ROW_BYTES: u64 = ROW as u64;

// Words of a row: code, class, maximum, own quota, 1 where net is below 0, net's size, open buys, bought, sold.
const ROW_WORDS: usize = 9;

// Words of a room: 1 where it is below 0, its size.
const ROOM_WORDS: usize = 2;

// Kept (rule): the C interface hands out numbers, so that the functions of the name ekhurtza_ turn a Result into them, and no function else.
// The refusal's number, or 0.
fn number_of<T: Copy>(outcome: Result<T, Refusal>) -> u64
    ensures { result ≡ refusal_number outcome }
{
    match outcome {
        Ok(_) => 0,
        Err(refusal) => u64::from(refusal),
    }
}

// A fresh gate in a register and a book of any content, with as many order places as are lent; no place is written.
pub fn ekhurtza_open(register: &mut [u32], book: &mut [u64], places: &[u64]) -> u64
    ensures { (result ≡ open_refusal (memory register.old book.old places.now))
        × ((register.new ≡ open_register (memory register.old book.old places.now))
        × (book.new ≡ open_book (memory register.old book.old places.now))) }
{
    number_of(open(register, book, places))
}

// A call by its code and four fields. A code other than 1 to 11 is refused by 2 in a sound gate, by 1 in another (rules' `no_call`).
pub fn ekhurtza_call(
    register: &mut [u32],
    book: &mut [u64],
    places: &mut [u64],
    code: u64,
    a: u64,
    b: u64,
    c: u64,
    d: u64,
) -> Answer
    ensures { (result.refusal ≡ (step shanghai (memory register.old book.old places.old) (call_of code a b c d)).answer.refusal)
        × ((result.number ≡ (step shanghai (memory register.old book.old places.old) (call_of code a b c d)).answer.number)
        × (memory register.new book.new places.new ≡ (step shanghai (memory register.old book.old places.old) (call_of code a b c d)).memory)) }
{
    let named = call_of(code, a, b, c, d);
    let mut gate = Gate {
        register,
        book,
        places,
    };
    Answer::from(call(&mut gate, named))
}

// A file of ratios by its text (2026-01): 1, 2 or 23, or 0 and the register has its table.
pub fn ekhurtza_load(register: &mut [u32], book: &[u64], places: &[u64], text: &[u8]) -> u64
    ensures { (result ≡ (step_entry shanghai (memory register.old book.now places.now) (Loaded (file_in text.now))).answer.refusal)
        × (memory register.new book.now places.now ≡ (step_entry shanghai (memory register.old book.now places.now) (Loaded (file_in text.now))).memory) }
{
    number_of(load(register, book, places, text))
}

// The listing into a lent buffer, and how many bytes it has.
#[tactic(auto, using(rules::specs::Numbers::refused_is), unfolding(crate::specs::Handed::listed_bytes, gate_listing::specs::Listed::list_refusal))]
fn listed(register: &[u32], book: &[u64], places: &[u64], buffer: &mut [u8]) -> Result<u64, Refusal>
    ensures refusal { refusal_number result ≡ list_refusal (memory register.now book.now places.now) (length buffer.old) }
    ensures bytes { (told result).number ≡ listed_bytes (memory register.now book.now places.now) (length buffer.old) }
    ensures buffer { buffer.new ≡ listed (memory register.now book.now places.now) buffer.old }
{
    write(register, book, places, buffer)?;
    Ok(ROW_BYTES * groups_enrolled(register))
}

pub fn ekhurtza_listing(register: &[u32], book: &[u64], places: &[u64], buffer: &mut [u8]) -> Answer
    ensures { (result.refusal ≡ list_refusal (memory register.now book.now places.now) (length buffer.old))
        × ((result.number ≡ listed_bytes (memory register.now book.now places.now) (length buffer.old))
        × (buffer.new ≡ listed (memory register.now book.now places.now) buffer.old)) }
{
    Answer::from(listed(register, book, places, buffer))
}

// The row of a group as plain numbers.
#[tactic(auto, using(rules::specs::Numbers::refused_is), unfolding(crate::specs::Handed::handed_refusal, crate::specs::Handed::handed_row, crate::specs::Handed::row_words))]
fn handed_row(
    register: &[u32],
    book: &[u64],
    places: &[u64],
    group: u64,
    out: &mut [u64],
) -> Result<(), Refusal>
    ensures refusal { refusal_number result ≡ handed_refusal (memory register.now book.now places.now) group (length out.old) }
    ensures row { out.new ≡ handed_row (memory register.now book.now places.now) group out.old }
{
    let row = row_of(register, book, places, group)?;
    refuse(out.len() < ROW_WORDS, Refusal::ShortBuffer)?;
    put_row(out, row);
    Ok(())
}

pub fn ekhurtza_row(
    register: &[u32],
    book: &[u64],
    places: &[u64],
    group: u64,
    out: &mut [u64],
) -> u64
    ensures { (result ≡ handed_refusal (memory register.now book.now places.now) group (length out.old))
        × (out.new ≡ handed_row (memory register.now book.now places.now) group out.old) }
{
    number_of(handed_row(register, book, places, group, out))
}

// The room left to a group: own quota − net, as sign and size.
#[tactic(auto, using(rules::specs::Numbers::refused_is), unfolding(crate::specs::Rooms::room_refusal, crate::specs::Rooms::room_put))]
fn handed_room(
    register: &[u32],
    book: &[u64],
    places: &[u64],
    group: u64,
    out: &mut [u64],
) -> Result<(), Refusal>
    ensures refusal { refusal_number result ≡ room_refusal (memory register.now book.now places.now) group (length out.old) }
    ensures room { out.new ≡ room_put (memory register.now book.now places.now) group out.old }
{
    let row = row_of(register, book, places, group)?;
    let left = room_of(row).ok_or(Refusal::NoMaximum)?;
    refuse(out.len() < ROOM_WORDS, Refusal::ShortBuffer)?;
    put_room(out, left);
    Ok(())
}

pub fn ekhurtza_room(
    register: &[u32],
    book: &[u64],
    places: &[u64],
    group: u64,
    out: &mut [u64],
) -> u64
    ensures { (result ≡ room_refusal (memory register.now book.now places.now) group (length out.old))
        × (out.new ≡ room_put (memory register.now book.now places.now) group out.old) }
{
    number_of(handed_room(register, book, places, group, out))
}

// Why row k of a text is not handed out.
#[tactic(auto, using(crate::proofs::Outcome::count_rows), unfolding(crate::specs::Texts::found_refusal))]
fn refusal_of_found(text: &[u8], k: u64, lent: usize) -> Result<(), Refusal>
    ensures { refusal_number result ≡ found_refusal text.now k lent }
{
    let rows = text.len() / ROW;
    refusal_of_text(text)?;
    // Kept (no plainer): `usize` has no `From` into `u64`; `try_from` would add a refusal that never comes.
    refuse(rows as u64 <= k, Refusal::NotThere)?;
    refuse(lent < ROW_WORDS, Refusal::ShortBuffer)
}

// Row k of a listing, counted from 0, as plain numbers. The whole text is checked first.
#[tactic(auto, using(rules::specs::Numbers::refused_is), unfolding(crate::specs::Texts::found_row, crate::specs::Texts::found_refusal, crate::specs::Handed::row_words))]
fn found_row(text: &[u8], k: u64, out: &mut [u64]) -> Result<(), Refusal>
    ensures refusal { refusal_number result ≡ found_refusal text.now k (length out.old) }
    ensures row { out.new ≡ found_row text.now k out.old }
{
    refusal_of_found(text, k, out.len())?;
    put_found(text, k, out);
    Ok(())
}

pub fn ekhurtza_read_row(text: &[u8], k: u64, out: &mut [u64]) -> u64
    ensures { (result ≡ found_refusal text.now k (length out.old))
        × (out.new ≡ found_row text.now k out.old) }
{
    number_of(found_row(text, k, out))
}

// Why a call's line is not written.
fn refusal_of_line(call: Call, lent: usize) -> Result<(), Refusal>
    ensures { refusal_number result ≡ wrote_refusal call lent }
{
    refuse(!words_fit(words_of(call)), Refusal::OutOfRange)?;
    refuse(lent < CALL_BYTES, Refusal::ShortBuffer)
}

// Kept (rule): no `?`: `put_call` is total and writes nothing that does not fit, and C is told why by the number beside it.
// A call as its line, with the line feed, by its code and four fields; those that the call does not use are written 0.
#[tactic(auto, using(crate::proofs::Outcome::line_told), unfolding(crate::specs::Texts::line_refusal, crate::specs::Texts::line_put))]
pub fn ekhurtza_call_line(code: u64, a: u64, b: u64, c: u64, d: u64, line: &mut [u8]) -> u64
    ensures { (result ≡ line_refusal code a b c d (length line.old)) × (line.new ≡ line_put code a b c d line.old) }
{
    let written = call_of(code, a, b, c, d);
    let refusal = number_of(refusal_of_line(written, line.len()));
    put_call(line, 0, written);
    refusal
}
