// A lent list of calls, run in order: five words a call, code and four fields; two words an answer, refusal and number.
#![tactic(auto)]

ghost use Rattle.std.specs.Prelude.{◌≡◌, [], ◌∷◌, ◌+◌, ◌*◌, ◌≤◌, length};
ghost use Rattle.rules.specs.Numbers.{refusal_number};
ghost use Rattle.rules.specs.Orders.{shanghai};
ghost use Rattle.words.specs.Words.{stored};
ghost use Rattle.claim.specs.Step.{memory, step};
ghost use Rattle.gate.specs.Lent.{memory_in, Leaves};
ghost use Rattle.gate_runs.specs.FromOpening.{FromOpening};
ghost use Rattle.gate_runs.specs.Runs.{call_at, run_refusal, run_memory, run_answers};

use gate::Gate;
use gate_call::calls::call;
use gate_open::open;
use rules::calls::{Answer, Call};
use rules::codes::call_of;
use rules::refusals::{Refusal, refuse};
use words::store;

// Words a call, and words an answer.
pub const CALL_WORDS: usize = 5;

pub const ANSWER_WORDS: usize = 2;

// Kept (no plainer): specs/Runs.antt and proofs/Ran.antt read call i at words 5 * i; over `as_chunks::<5>()` a law that item i is those words would be needed.
// Call i of the words.
#[tactic(auto, unfolding(crate::specs::Runs::call_at))]
fn call_at(calls: &[u64], i: usize) -> Call
    requires { 5 * i + 5 ≤ length calls.now }
    ensures { result ≡ call_at calls.now i }
{
    let words = &calls[CALL_WORDS * i..];
    call_of(words[0], words[1], words[2], words[3], words[4])
}

// One turn: call i carried out, and its answer stored.
fn turn(gate: &mut Gate<'_>, calls: &[u64], i: usize, answers: &mut [u64])
    requires { (5 * i + 5 ≤ length calls.now) × (2 * i + 2 ≤ length answers.old) }
    ensures after { Leaves gate.old gate.new (step shanghai (memory_in gate.old) (call_at calls.now i)).memory }
    ensures answers { let answer = (step shanghai (memory_in gate.old) (call_at calls.now i)).answer in
        answers.new ≡ stored answers.old (2 * i) (answer.refusal ∷ answer.number ∷ []) }
{
    let c = call_at(calls, i);
    let answer = Answer::from(call(gate, c));
    store(answers, ANSWER_WORDS * i, &[answer.refusal, answer.number]);
}

// Refused where the words are not five a call or the room for the answers not two.
#[tactic(auto, unfolding(crate::specs::Runs::run_refusal))]
fn refusal_of_run(calls: &[u64], answers: &[u64]) -> Result<(), Refusal>
    ensures { refusal_number result ≡ run_refusal calls.now answers.now }
{
    let n = calls.len() / CALL_WORDS;
    let ok = (calls.len() == CALL_WORDS * n) & (answers.len() == ANSWER_WORDS * n);
    refuse(!ok, Refusal::OutOfRange)
}

// Kept (no plainer): the calls are read and the answers written, in two memories of the host.
// Every call in order, each with its answer; nothing is done where the lengths do not fit.
#[tactic(auto, using(crate::proofs::Ran::start_memory, crate::proofs::Ran::start_room, crate::proofs::Ran::room_fits, crate::proofs::Ran::turn_memory, crate::proofs::Ran::turn_room, crate::proofs::Ran::room_full), unfolding(crate::specs::Runs::run_memory, crate::specs::Runs::run_answers))]
pub fn run(gate: &mut Gate<'_>, calls: &[u64], answers: &mut [u64]) -> Result<(), Refusal>
    ensures answer { refusal_number result ≡ run_refusal calls.now answers.old }
    ensures after { Leaves gate.old gate.new (run_memory (memory_in gate.old) calls.now answers.old) }
    ensures answers { answers.new ≡ run_answers (memory_in gate.old) calls.now answers.old }
{
    refusal_of_run(calls, answers)?;
    let n = calls.len() / CALL_WORDS;
    for i in 0..n {
        turn(gate, calls, i, answers);
    }
    Ok(())
}

// Kept (proof): `search` turns `Leaves` of a gate into the three memories, here alone; in `run_from_opening` the answer `returns` would have to.
fn run_lent(
    register: &mut [u32],
    book: &mut [u64],
    places: &mut [u64],
    calls: &[u64],
    answers: &mut [u64],
) -> Result<(), Refusal>
    ensures answer { refusal_number result ≡ run_refusal calls.now answers.old }
    ensures after { memory register.new book.new places.new ≡ run_memory (memory register.old book.old places.old) calls.now answers.old }
    ensures answers { answers.new ≡ run_answers (memory register.old book.old places.old) calls.now answers.old }
{
    let mut gate = Gate {
        register,
        book,
        places,
    };
    run(&mut gate, calls, answers)
}

// A fresh gate, and every call in order: the third demand is this function's contract.
// Kept (no plainer): three slices: `open` reads the places beside two memories that it writes; over a gate a helper would lend it the three one by one.
pub fn run_from_opening(
    register: &mut [u32],
    book: &mut [u64],
    places: &mut [u64],
    calls: &[u64],
    answers: &mut [u64],
) -> Result<(), Refusal>
    ensures { FromOpening (memory register.old book.old places.old) calls.now answers.old (refusal_number result)
        (memory register.new book.new places.new) answers.new }
{
    refusal_of_run(calls, answers)?;
    open(register, book, places)?;
    run_lent(register, book, places, calls, answers)
}
