// gateday: call lines from standard input, an answer for each on standard output, and at the end the listing. N is 2,048. `gateday --ratios FILE` loads a file of
// ratios first and prints its answer before all others (2026-01); with any other arguments nothing is read or printed.
// What is answered and listed is decided in `day` and `gate_listing`; here is only reading and writing.
#![tactic(auto)]

mod sink; // what is printed, until a write fails

ghost use Rattle.std.specs.Prelude.{◌≡◌, ◌+◌, ◌≤◌, length, drop};
ghost use Rattle.gate.specs.Lent.{memory_in, Leaves, SameLent};
ghost use Rattle.day.specs.Day.{told_in};
ghost use Rattle.day.specs.Pieces.{Done};

use crate::sink::Sink;
use book::layout::{BOOK, PLACE_WORDS};
use day::{answer_lines, answer_load, answer_rest, keep_rest};
use gate::Gate;
use gate_listing::write;
use gate_open::open;
use listing::lines::ROW;
use quota::asks::groups_enrolled;
use ratiofile::layout::FILE_BYTES;
use register::layout::REGISTER;
use std::env::{Env, FillError};
use std::io::{Read, Write};
use std::process::ExitCode;
use std::rt::Files;
use std::{fs, io};
use streams::read_text;

// "Program `gateday` has N = 2,048": so many places, in words. (Lines and columns)
const PLACES: usize = PLACE_WORDS * 2048;

// Kept (no plainer): sink, gate and buffer side by side: a struct of the three loans would have the sink's type and their lifetimes, and be taken apart here.
// The text's lines, as many as there is room for answers, answered and printed. Answers how many bytes they took.
#[tactic(auto, using(day::specs::Laws::told_used))]
fn print_some<W: Write>(
    sink: &mut Sink<W>,
    gate: &mut Gate<'_>,
    text: &[u8],
    out: &mut [u8],
) -> usize
    ensures used { (result ≤ length text.now) × (result ≡ (told_in out.old (memory_in gate.old) text.now).used) }
    ensures after { Leaves gate.old gate.new (told_in out.old (memory_in gate.old) text.now).memory }
{
    let progress = answer_lines(gate, text, out);
    sink.print(out.get(..progress.written));
    progress.used
}

// Every whole line of the text answered and printed. Answers how many bytes they took.
#[tactic(auto, using(crate::proofs::Told::turn_used, crate::proofs::Told::turn_memory, crate::proofs::Told::turn_within, crate::proofs::Told::none_used, crate::proofs::Told::none_memory, crate::proofs::Told::ends_used, crate::proofs::Told::ends_memory, day::specs::Pieces::cut_all, day::specs::Pieces::room_for_one))]
fn print_lines<W: Write>(
    sink: &mut Sink<W>,
    gate: &mut Gate<'_>,
    text: &[u8],
    out: &mut [u8],
) -> usize
    requires { 10 ≤ length out.old }
    ensures done { Done text.now (memory_in gate.old) result (memory_in gate.new) }
    ensures same { SameLent gate.old gate.new }
{
    let mut from: usize = 0;
    // Kept (no plainer): it counts no index; each turn goes on behind what the last one used.
    while from < text.len() {
        let used = print_some(sink, gate, &text[from..], out);
        if used == 0 {
            return from;
        }
        from += used;
    }
    from
}

// "and at the end the listing": a line without line feed first, where one is left. (Lines and columns)
fn print_end<W: Write>(sink: &mut Sink<W>, gate: &Gate<'_>, rest: usize, out: &mut [u8]) {
    let n = answer_rest(rest, out);
    sink.print(out.get(..n));
    if write(gate.register, gate.book, gate.places, out).is_ok() {
        let groups = groups_enrolled(gate.register) as usize;
        sink.print(out.get(..ROW.saturating_mul(groups)));
    }
}

// The whole source, line by line, or until a write fails. A loop has to end, and nothing says that a source does: it counts its turns up to a
// number that no run reaches.
#[tactic(auto, using(crate::proofs::Told::kept_fits, std::proofs::lemmas::Grind::common_steps))]
fn print_day<R: Read, W: Write>(
    source: &mut R,
    sink: &mut Sink<W>,
    gate: &mut Gate<'_>,
    input: &mut [u8],
    out: &mut [u8],
)
    requires { 10 ≤ length out.old }
{
    let mut filled: usize = 0;
    for _ in 0..u64::MAX {
        // no more comes at the input's end, or where a read failed
        let came = source.read(&mut input[filled..]).unwrap_or(0);
        if came == 0 {
            print_end(sink, gate, filled, out);
            return;
        }
        let held = filled + came;
        let used = print_lines(sink, gate, &input[..held], out);
        if sink.has_failed() {
            return;
        }
        filled = keep_rest(&mut input[..held], used);
    }
}

// The longest name of a file that the system opens.
const MOST_PATH: usize = 4096;

// One byte more than a file of ratios has: a file that fills it is none, whatever follows.
const MOST_RATIOS: usize = FILE_BYTES + 1;

// Kept (no plainer): no bytes for a file that is not there: the answer is that of a text which is none, and nothing else asks.
// The text of the file that the second argument names; no bytes where it can't be opened, as one whose name isn't UTF-8.
fn ratios_named<E: Env + Files>(rt: &E, text: &mut [u8]) -> usize
    ensures { result ≤ length text.old }
{
    let mut path = [0u8; MOST_PATH];
    let Ok(n) = rt.arg(2, &mut path) else {
        return 0;
    };
    let Ok(name) = str::from_utf8(&path[..n]) else {
        return 0;
    };
    match fs::open(rt, name) {
        Ok(mut file) => read_text(&mut file, text),
        Err(_) => 0,
    }
}

// The file of ratios loaded, and its answer printed.
fn print_load<E: Env + Files, W: Write>(
    rt: &E,
    sink: &mut Sink<W>,
    register: &mut [u32],
    book: &[u64],
    places: &[u64],
    out: &mut [u8],
) {
    let mut text = [0u8; MOST_RATIOS];
    let n = ratios_named(rt, &mut text);
    let written = answer_load(register, book, places, &text[..n], out);
    sink.print(out.get(..written));
}

// Whether the program has an argument of this number; 0 is its name.
fn has_arg<E: Env>(rt: &E, number: usize) -> bool {
    let mut word = [0u8; 16];
    !matches!(rt.arg(number, &mut word), Err(FillError::NotPresent))
}

// The arguments are `--ratios FILE`.
fn ratios_asked<E: Env>(rt: &E) -> bool {
    let mut word = [0u8; 16];
    match rt.arg(1, &mut word) {
        Ok(n) => word[..n] == b"--ratios"[..] && has_arg(rt, 2) && !has_arg(rt, 3),
        Err(_) => false,
    }
}

// Kept (no plainer): three slices here and at `print_load`: the gate is made after the load, which reads book and places alone.
// A file of ratios loaded where one is named. Answers whether the day begins.
fn begun<E: Env + Files, W: Write>(
    rt: &E,
    sink: &mut Sink<W>,
    register: &mut [u32],
    book: &[u64],
    places: &[u64],
    out: &mut [u8],
) -> bool {
    if !has_arg(rt, 1) {
        return true;
    }
    if !ratios_asked(rt) {
        return false;
    }
    print_load(rt, sink, register, book, places, out);
    true
}

fn main(rt: HostRuntime) -> io::Result<ExitCode> {
    let mut register = [0u32; REGISTER];
    let mut book = [0u64; BOOK];
    let mut places = [0u64; PLACES];
    let mut input = [0u8; 65536];
    let mut out = [0u8; 65530];
    let mut source = rt.stdin();
    let mut sink = Sink::new(rt.stdout());
    if open(&mut register, &mut book, &places).is_ok()
        && begun(&rt, &mut sink, &mut register, &book, &places, &mut out)
    {
        let mut gate = Gate {
            register: &mut register,
            book: &mut book,
            places: &mut places,
        };
        print_day(&mut source, &mut sink, &mut gate, &mut input, &mut out);
    }
    sink.end()
}
