// The part of gateday that decides: call lines in, answers out, over slices. The program around it only reads and writes.
#![tactic(auto)]

ghost use Rattle.std.specs.Prelude.{◌≡◌, ◌==◌, true, ◌+◌, ◌≤◌, length, drop, position};
ghost use Rattle.std.proofs.Math.Seq.{paste};
ghost use Rattle.rules.specs.Numbers.{told};
ghost use Rattle.claim.specs.Step.{memory};
ghost use Rattle.gate.specs.Lent.{memory_in, Leaves, SameLent};
ghost use Rattle.callfile.specs.Lines.{line_bytes};
ghost use Rattle.day.specs.Day.{line_step, printed, line_length, told_in, Answered, rest_text, LoadAnswered, kept_bytes};

use callfile::layout::{ANSWER_BYTES, LINE_BYTES};
use callfile_lines::reading::read_line;
use callfile_lines::writing::put_answer;
use gate::Gate;
use gate_call::calls::call;
use gate_load::load;
use rules::calls::Answer;
use rules::refusals::Refusal;

// The answer to a line, given without its line feed, and the memory after it.
#[tactic(auto, unfolding(crate::specs::Day::line_step))]
pub fn answer_line(gate: &mut Gate<'_>, line: &[u8]) -> Result<u64, Refusal>
    ensures answer { told result ≡ (line_step (memory_in gate.old) line.now).answer }
    ensures after { Leaves gate.old gate.new (line_step (memory_in gate.old) line.now).memory }
{
    let asked = read_line(line).ok_or(Refusal::Malformed)?;
    call(gate, asked)
}

// An answer's ten bytes from at on.
#[tactic(auto, using(crate::proofs::Telling::printed_put))]
fn put_printed(out: &mut [u8], at: usize, answer: Answer)
    requires { at + 10 ≤ length out.old }
    ensures { out.new ≡ paste out.old at (printed answer) 10 }
{
    let held = Answer {
        refusal: answer.refusal.min(999),
        number: answer.number.min(999_999),
    };
    put_answer(out, at, held);
}

fn first_feed(text: &[u8]) -> Option<usize>
    ensures { result ≡ position (λ b. b == 10) text.now }
{
    text.iter().position(|b| *b == 10)
}

// Whether a text's first line is as long as a call line, told without a look at its bytes one by one.
#[tactic(auto, using(crate::proofs::Telling::line_of))]
fn is_call_long(text: &[u8]) -> bool
    ensures { result ≡ true → line_bytes ≡ line_length text.now }
{
    if text.len() <= LINE_BYTES || text[LINE_BYTES] != 10 {
        return false;
    }
    let (line, _) = text.split_at(LINE_BYTES);
    !line.contains(&10)
}

// Where a text's first line ends: at its line feed, or at the end of the text. Most lines are as long as a call line.
#[tactic(auto, using(crate::proofs::Telling::line_within, crate::proofs::Telling::feed_is))]
fn line_end(text: &[u8]) -> usize
    ensures end { result ≡ line_length text.now }
    ensures within { result ≤ length text.now }
{
    if is_call_long(text) {
        return LINE_BYTES;
    }
    first_feed(text).unwrap_or(text.len())
}

// How far the lines of a text were answered: bytes of the text used, bytes written.
#[derive(Clone, Copy)]
pub struct Progress {
    pub used: usize,
    pub written: usize,
}

// Kept (no plainer): answer k by its place, 10 × k: a line that is not whole ends it in the middle, with what was written till then.
// Answers the whole lines of a text, as many as there is room for answers.
pub fn answer_lines(gate: &mut Gate<'_>, text: &[u8], out: &mut [u8]) -> Progress
    ensures answered { Answered (told_in out.old (memory_in gate.old) text.now) out.old result (memory_in gate.new) out.new }
    ensures same { SameLent gate.old gate.new }
{
    let room = out.len() / ANSWER_BYTES;
    let mut used: usize = 0;
    for k in 0..room {
        let e = used + line_end(&text[used..]);
        if e == text.len() {
            return Progress {
                used,
                written: ANSWER_BYTES * k,
            };
        }
        let answer = answer_line(gate, &text[used..e]);
        put_printed(out, ANSWER_BYTES * k, Answer::from(answer));
        used = e + 1;
    }
    Progress {
        used,
        written: ANSWER_BYTES * room,
    }
}

// What is left of an input after its last line feed is a line too: malformed. Answers how many bytes were written.
#[tactic(auto, using(std::proofs::lemmas::List::Edits::paste_none, crate::proofs::Telling::printed_long, crate::proofs::Telling::rest_line, crate::proofs::Telling::rest_none, crate::proofs::Telling::rest_no_room))]
pub fn answer_rest(rest: usize, out: &mut [u8]) -> usize
    ensures { (result ≡ length (rest_text rest out.old)) × (out.new ≡ paste out.old 0 (rest_text rest out.old) (length (rest_text rest out.old))) }
{
    if rest == 0 || out.len() < ANSWER_BYTES {
        return 0;
    }
    put_printed(out, 0, Answer::from(Err(Refusal::Malformed)));
    ANSWER_BYTES
}

// Kept (no plainer): three slices: the gate is made after the load, which reads book and places alone, and asks no caller for a loan to write them.
// The text of a file of ratios loaded (2026-01), and its answer at the start of the buffer. Answers how many bytes were written.
#[tactic(auto, using(std::proofs::lemmas::List::Edits::paste_none, crate::proofs::Telling::printed_long, crate::proofs::Telling::file_line, crate::proofs::Telling::file_no_room))]
pub fn answer_load(
    register: &mut [u32],
    book: &[u64],
    places: &[u64],
    file: &[u8],
    out: &mut [u8],
) -> usize
    ensures { LoadAnswered (memory register.old book.now places.now) file.now out.old result (memory register.new book.now places.now) out.new }
{
    let answer = load(register, book, places, file);
    if out.len() < ANSWER_BYTES {
        return 0;
    }
    put_printed(out, 0, Answer::from(answer));
    ANSWER_BYTES
}

// One byte more than a call line has, its line feed left out.
pub const MOST_KEPT: usize = LINE_BYTES + 1;

// What the first `filled` bytes hold behind the lines that were answered, moved to the buffer's front: thirty-nine bytes at most, since a line of more is
// malformed whatever follows. Answers how many bytes are kept: none where the buffer has not so many.
#[tactic(auto, using(std::proofs::lemmas::List::Edits::paste_none), unfolding(crate::specs::Day::kept_bytes))]
pub fn keep_rest_of(buffer: &mut [u8], used: usize, filled: usize) -> usize
    ensures { (result ≡ kept_bytes used filled (length buffer.old)) × (buffer.new ≡ paste buffer.old 0 (drop used buffer.old) result) }
{
    if buffer.len() < filled || filled <= used {
        return 0;
    }
    let n = (filled - used).min(MOST_KEPT);
    buffer.copy_within(used..used + n, 0);
    n
}

// The same of a whole piece of the input.
pub fn keep_rest(piece: &mut [u8], used: usize) -> usize
    ensures { (result ≡ kept_bytes used (length piece.old) (length piece.old)) × (piece.new ≡ paste piece.old 0 (drop used piece.old) result) }
{
    let filled = piece.len();
    keep_rest_of(piece, used, filled)
}
