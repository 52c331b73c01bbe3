// Call lines and answer lines put into a buffer, each with its line feed.
ghost use Rattle.std.specs.Prelude.{◌≡◌, true, ◌+◌, ◌≤◌, length};
ghost use Rattle.std.proofs.Math.Seq.{paste};
ghost use Rattle.callfile.specs.Lines.{spelled, line_text, words_fit, answer_fits as answerFitsIn, call_put, answer_put, line_bytes};

use callfile::layout::{ANSWER_BYTES, CALL_BYTES, LINE_BYTES};
use callfile::words::{Words, words_fit, words_of};
use columns::bytes::{holds, put_text};
use columns_powers::fits;
use columns_write::written::put_plain;
use rules::calls::{Answer, Call};

// The five columns of a call line.
fn put_words(out: &mut [u8], at: usize, w: Words)
    requires { (at + line_bytes ≤ length out.old) × (words_fit (spelled w) ≡ true) }
    ensures { out.new ≡ paste out.old at (line_text (spelled w)) line_bytes }
{
    put_plain(out, at, 2, w.code);
    put_plain(out, at + 2, 9, w.fields[0]);
    put_plain(out, at + 11, 9, w.fields[1]);
    put_plain(out, at + 20, 9, w.fields[2]);
    put_plain(out, at + 29, 9, w.fields[3]);
}

// The call as a line from at on; nothing where it does not fit, in the buffer or in its columns. It has no number to refuse by: a caller that writes
// call files lends 39 bytes a line and takes fields of at most nine digits.
#[tactic(auto, using(crate::proofs::Puts::call_put_lem), unfolding(callfile::specs::Lines::call_put))]
pub fn put_call(out: &mut [u8], at: usize, call: Call)
    ensures { out.new ≡ call_put out.old at call }
{
    let w = words_of(call);
    if holds(out.len(), at, CALL_BYTES) && words_fit(w) {
        put_words(out, at, w);
        put_text(out, at + LINE_BYTES, b"\n");
    }
}

fn answer_fits(answer: Answer) -> bool
    ensures { result ≡ answerFitsIn answer }
{
    fits(3, answer.refusal) && fits(6, answer.number)
}

// "the refusal number or 0 in 3 columns and the group or order number given (else 0) in 6, line feed"; nothing where it does not fit. It
// has no number to refuse by: `day` has ten bytes of room for it, and has held the answer to its columns. (Lines and columns)
#[tactic(auto, using(crate::proofs::Puts::answer_put_lem), unfolding(callfile::specs::Lines::answer_put))]
pub fn put_answer(out: &mut [u8], at: usize, answer: Answer)
    ensures { out.new ≡ answer_put out.old at answer }
{
    if holds(out.len(), at, ANSWER_BYTES) && answer_fits(answer) {
        put_plain(out, at, 3, answer.refusal);
        put_plain(out, at + 3, 6, answer.number);
        put_text(out, at + 9, b"\n");
    }
}
