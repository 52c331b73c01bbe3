// The library for order routers as C sees it: the eight functions of the crate router, each under its name and with its clauses. include/ekhurtza.h
// declares them; a slice comes as a pointer and a length.
// Kept (rule): the C interface: eight names, numbers for refusals, each memory and field by itself.
#![tactic(auto)]

ghost use Rattle.std.specs.Prelude.{◌≡◌, length};
ghost use Rattle.rules.specs.Codes.{call_of};
ghost use Rattle.rules.specs.Orders.{shanghai};
ghost use Rattle.claim.specs.Opening.{open_refusal, open_register, open_book};
ghost use Rattle.history.specs.Runs.{Loaded};
ghost use Rattle.claim.specs.Step.{memory, step, step_entry};
ghost use Rattle.ratiofile.specs.File.{file_in};
ghost use Rattle.gate_listing.specs.Listed.{list_refusal, listed};
ghost use Rattle.router.specs.Handed.{listed_bytes, handed_refusal, handed_row};
ghost use Rattle.router.specs.Rooms.{room_refusal, room_put};
ghost use Rattle.router.specs.Texts.{found_refusal, found_row, line_refusal, line_put};

use router::Answer;

// A fresh gate in a register and a book of any content, with as many order places as are lent; no place is written.
#[unsafe(no_mangle)]
pub extern "C" fn ekhurtza_open(register: &mut [u32], book: &mut [u64], places: &[u64]) -> u64
    ensures { (result ≡ open_refusal (memory register.old book.old places.now))
        × ((register.new ≡ open_register (memory register.old book.old places.now))
        × (book.new ≡ open_book (memory register.old book.old places.now))) }
{
    router::ekhurtza_open(register, book, places)
}

// A call by its code and four fields. A code other than 1 to 11 is refused by 2 in a sound gate, by 1 in another (rules' `no_call`).
#[unsafe(no_mangle)]
pub extern "C" fn ekhurtza_call(
    register: &mut [u32],
    book: &mut [u64],
    places: &mut [u64],
    code: u64,
    a: u64,
    b: u64,
    c: u64,
    d: u64,
) -> Answer
    ensures { (result.refusal ≡ (step shanghai (memory register.old book.old places.old) (call_of code a b c d)).answer.refusal)
        × ((result.number ≡ (step shanghai (memory register.old book.old places.old) (call_of code a b c d)).answer.number)
        × (memory register.new book.new places.new ≡ (step shanghai (memory register.old book.old places.old) (call_of code a b c d)).memory)) }
{
    router::ekhurtza_call(register, book, places, code, a, b, c, d)
}

// A file of ratios by its text (2026-01): 1, 2 or 23, or 0 and the register has its table.
#[unsafe(no_mangle)]
pub extern "C" fn ekhurtza_load(
    register: &mut [u32],
    book: &[u64],
    places: &[u64],
    text: &[u8],
) -> u64
    ensures { (result ≡ (step_entry shanghai (memory register.old book.now places.now) (Loaded (file_in text.now))).answer.refusal)
        × (memory register.new book.now places.now ≡ (step_entry shanghai (memory register.old book.now places.now) (Loaded (file_in text.now))).memory) }
{
    router::ekhurtza_load(register, book, places, text)
}

// The listing into a lent buffer, and how many bytes it has.
#[unsafe(no_mangle)]
pub extern "C" fn ekhurtza_listing(
    register: &[u32],
    book: &[u64],
    places: &[u64],
    buffer: &mut [u8],
) -> Answer
    ensures { (result.refusal ≡ list_refusal (memory register.now book.now places.now) (length buffer.old))
        × ((result.number ≡ listed_bytes (memory register.now book.now places.now) (length buffer.old))
        × (buffer.new ≡ listed (memory register.now book.now places.now) buffer.old)) }
{
    router::ekhurtza_listing(register, book, places, buffer)
}

// The row of a group as plain numbers.
#[unsafe(no_mangle)]
pub extern "C" fn ekhurtza_row(
    register: &[u32],
    book: &[u64],
    places: &[u64],
    group: u64,
    out: &mut [u64],
) -> u64
    ensures { (result ≡ handed_refusal (memory register.now book.now places.now) group (length out.old))
        × (out.new ≡ handed_row (memory register.now book.now places.now) group out.old) }
{
    router::ekhurtza_row(register, book, places, group, out)
}

// The room left to a group: own quota − net, as sign and size.
#[unsafe(no_mangle)]
pub extern "C" fn ekhurtza_room(
    register: &[u32],
    book: &[u64],
    places: &[u64],
    group: u64,
    out: &mut [u64],
) -> u64
    ensures { (result ≡ room_refusal (memory register.now book.now places.now) group (length out.old))
        × (out.new ≡ room_put (memory register.now book.now places.now) group out.old) }
{
    router::ekhurtza_room(register, book, places, group, out)
}

// Row k of a listing, counted from 0, as plain numbers. The whole text is checked first.
#[unsafe(no_mangle)]
pub extern "C" fn ekhurtza_read_row(text: &[u8], k: u64, out: &mut [u64]) -> u64
    ensures { (result ≡ found_refusal text.now k (length out.old))
        × (out.new ≡ found_row text.now k out.old) }
{
    router::ekhurtza_read_row(text, k, out)
}

// A call as its line, with the line feed, by its code and four fields; those that the call does not use are written 0.
#[unsafe(no_mangle)]
pub extern "C" fn ekhurtza_call_line(
    code: u64,
    a: u64,
    b: u64,
    c: u64,
    d: u64,
    line: &mut [u8],
) -> u64
    ensures { (result ≡ line_refusal code a b c d (length line.old)) × (line.new ≡ line_put code a b c d line.old) }
{
    router::ekhurtza_call_line(code, a, b, c, d, line)
}
