// One function over all eleven calls, for every call and every lent memory.
ghost use Rattle.std.specs.Prelude.{◌≡◌};
ghost use Rattle.rules.specs.Numbers.{told};
ghost use Rattle.rules.specs.Orders.{shanghai};
ghost use Rattle.claim.specs.Step.{memory, step};
ghost use Rattle.gate.specs.Lent.{memory_in, Leaves};

use gate::Gate;
use gate_guard::{
    guarded_attach, guarded_close, guarded_detach, guarded_enrol, guarded_own_quota, guarded_raise,
    guarded_regular, guarded_withdraw,
};
use rules::calls::Call;
use rules::refusals::Refusal;

// Kept (proof): the same over the three memories one by one: each call asks for no more than it writes, and a loan of one memory to be read beside another
// to be written, both behind one reference, gets no proof.
#[tactic(auto, unfolding(claim::specs::Step::step))]
fn answered(
    register: &mut [u32],
    book: &mut [u64],
    places: &mut [u64],
    c: Call,
) -> Result<u64, Refusal>
    ensures answer { told result ≡ (step shanghai (memory register.old book.old places.old) c).answer }
    ensures after { memory register.new book.new places.new ≡ (step shanghai (memory register.old book.old places.old) c).memory }
{
    // Kept (no plainer): which call it is, an enum says, and a match names the fields that each takes; a table of functions would want one list of them.
    match c {
        Call::Enrol { code, class } => guarded_enrol(register, book, places, code, class),
        Call::Attach { unit, group } => guarded_attach(register, book, places, unit, group),
        Call::Detach { unit } => guarded_detach(register, book, places, unit),
        Call::Regular {
            declarer,
            group,
            base,
            quota,
        } => guarded_regular(register, book, places, declarer, group, base, quota),
        Call::Raise {
            declarer,
            group,
            quota,
            flag,
        } => guarded_raise(register, book, places, declarer, group, quota, flag),
        Call::Withdraw { declarer, group } => guarded_withdraw(
            register, book, places, declarer, group,
        ),
        Call::OwnQuota { group, quota } => guarded_own_quota(register, book, places, group, quota),
        Call::Order {
            unit,
            kind,
            price,
            quantity,
        } => orders_enter::order(register, book, places, unit, kind, price, quantity),
        Call::Fill {
            order,
            price,
            quantity,
        } => orders_fill::fill(register, book, places, order, price, quantity),
        Call::Cancel { order } => orders_cancel::cancel(register, book, places, order),
        Call::Close => guarded_close(register, book, places),
    }
}

// The answer to a call, and what it leaves in the gate: Shanghai's step.
pub fn call(gate: &mut Gate<'_>, c: Call) -> Result<u64, Refusal>
    ensures answer { told result ≡ (step shanghai (memory_in gate.old) c).answer }
    ensures after { Leaves gate.old gate.new (step shanghai (memory_in gate.old) c).memory }
{
    answered(gate.register, gate.book, gate.places, c)
}
