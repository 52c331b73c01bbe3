// Calls 1 to 7 and the close over all of a gate's memory: 1 where a figure of the book is out of its range, or N is another than at opening.
// The register's own figures are checked by the quota layer's call, so that nothing is checked twice.
// Kept (no plainer): seven of the nine are a check and the quota layer's call; one over a closure would need the closure's contract at each of them.
// Kept (no plainer): three slices and no `gate::Gate`: each asks for no more than it writes, and a gate has all three to be written.
#![tactic(auto)]

ghost use Rattle.std.specs.Prelude.{◌≡◌, not};
ghost use Rattle.rules.specs.Orders.{shanghai};
ghost use Rattle.rules.specs.declared.calls.Call.TheVariants.{Enrol, Attach, Detach, Regular, Raise, Withdraw, OwnQuota, Close};
ghost use Rattle.history.specs.Runs.{Loaded};
ghost use Rattle.claim.specs.Step.{book_sound, memory, step, step_entry};
ghost use Rattle.rules.specs.Loads.{read_as};
ghost use Rattle.rules.specs.Numbers.{refused_if, told};
ghost use Rattle.rules.specs.declared.refusals.Refusal.TheVariants.{Unsound};

use book::check::book_ok;
use book_money::clear_money;
use orders_booking::close_orders;
use quota::asks::groups_enrolled;
use quota_close::close_quotas;
use rules::loads::RatioFile;
use rules::money::Millions;
use rules::refusals::{Refusal, refuse};

// The book is sound beside the register, and N places are lent.
#[tactic(auto, unfolding(claim::specs::Step::book_sound))]
pub fn book_sound(register: &[u32], book: &[u64], places: &[u64]) -> bool
    ensures { result ≡ book_sound (memory register.now book.now places.now) }
{
    book_ok(book, places, groups_enrolled(register))
}

// Refused by 1 where it is not.
fn sound(register: &[u32], book: &[u64], places: &[u64]) -> Result<(), Refusal>
    ensures { result ≡ refused_if (not (book_sound (memory register.now book.now places.now))) Unsound }
{
    refuse(!book_sound(register, book, places), Refusal::Unsound)
}

// Call 1. The money of the group enrolled is written too: none.
#[tactic(auto, unfolding(claim::specs::Step::step, quota::specs::Calls::enrol_answer))]
pub fn guarded_enrol(
    register: &mut [u32],
    book: &mut [u64],
    places: &[u64],
    code: u64,
    class: u64,
) -> Result<u64, Refusal>
    ensures answer { told result ≡ (step shanghai (memory register.old book.old places.now) (Enrol code class)).answer }
    ensures after { memory register.new book.new places.now ≡ (step shanghai (memory register.old book.old places.now) (Enrol code class)).memory }
{
    sound(register, book, places)?;
    let group = groups_enrolled(register);
    let number = quota_enrol::enrol(register, code, class)?;
    clear_money(book, group);
    Ok(number)
}

// Call 2.
#[tactic(auto, unfolding(claim::specs::Step::step))]
pub fn guarded_attach(
    register: &mut [u32],
    book: &[u64],
    places: &[u64],
    unit: u64,
    group: u64,
) -> Result<u64, Refusal>
    ensures answer { told result ≡ (step shanghai (memory register.old book.now places.now) (Attach unit group)).answer }
    ensures after { memory register.new book.now places.now ≡ (step shanghai (memory register.old book.now places.now) (Attach unit group)).memory }
{
    sound(register, book, places)?;
    quota_enrol::attach(register, unit, group)
}

// Call 3.
#[tactic(auto, unfolding(claim::specs::Step::step))]
pub fn guarded_detach(
    register: &mut [u32],
    book: &[u64],
    places: &[u64],
    unit: u64,
) -> Result<u64, Refusal>
    ensures answer { told result ≡ (step shanghai (memory register.old book.now places.now) (Detach unit)).answer }
    ensures after { memory register.new book.now places.now ≡ (step shanghai (memory register.old book.now places.now) (Detach unit)).memory }
{
    sound(register, book, places)?;
    quota_enrol::detach(register, unit)
}

// Call 4.
#[tactic(auto, unfolding(claim::specs::Step::step))]
pub fn guarded_regular(
    register: &mut [u32],
    book: &[u64],
    places: &[u64],
    declarer: u64,
    group: u64,
    base: Millions,
    quota: Millions,
) -> Result<u64, Refusal>
    ensures answer { told result ≡ (step shanghai (memory register.old book.now places.now) (Regular declarer group base quota)).answer }
    ensures after { memory register.new book.now places.now
        ≡ (step shanghai (memory register.old book.now places.now) (Regular declarer group base quota)).memory }
{
    sound(register, book, places)?;
    quota_declare::regular(register, declarer, group, base, quota)
}

// Call 5.
#[tactic(auto, unfolding(claim::specs::Step::step))]
pub fn guarded_raise(
    register: &mut [u32],
    book: &[u64],
    places: &[u64],
    declarer: u64,
    group: u64,
    quota: Millions,
    flag: u64,
) -> Result<u64, Refusal>
    ensures answer { told result ≡ (step shanghai (memory register.old book.now places.now) (Raise declarer group quota flag)).answer }
    ensures after { memory register.new book.now places.now
        ≡ (step shanghai (memory register.old book.now places.now) (Raise declarer group quota flag)).memory }
{
    sound(register, book, places)?;
    quota_declare::raise(register, declarer, group, quota, flag)
}

// Call 6.
#[tactic(auto, unfolding(claim::specs::Step::step))]
pub fn guarded_withdraw(
    register: &mut [u32],
    book: &[u64],
    places: &[u64],
    declarer: u64,
    group: u64,
) -> Result<u64, Refusal>
    ensures answer { told result ≡ (step shanghai (memory register.old book.now places.now) (Withdraw declarer group)).answer }
    ensures after { memory register.new book.now places.now ≡ (step shanghai (memory register.old book.now places.now) (Withdraw declarer group)).memory }
{
    sound(register, book, places)?;
    quota_declare::withdraw(register, declarer, group)
}

// Call 7.
#[tactic(auto, unfolding(claim::specs::Step::step))]
pub fn guarded_own_quota(
    register: &mut [u32],
    book: &[u64],
    places: &[u64],
    group: u64,
    quota: Millions,
) -> Result<u64, Refusal>
    ensures answer { told result ≡ (step shanghai (memory register.old book.now places.now) (OwnQuota group quota)).answer }
    ensures after { memory register.new book.now places.now ≡ (step shanghai (memory register.old book.now places.now) (OwnQuota group quota)).memory }
{
    sound(register, book, places)?;
    quota_declare::own_quota(register, group, quota)
}

// A load of ratios, as the file reads (2026-01).
#[tactic(auto, unfolding(claim::specs::Step::step_entry))]
pub fn guarded_load(
    register: &mut [u32],
    book: &[u64],
    places: &[u64],
    file: Option<RatioFile>,
) -> Result<u64, Refusal>
    ensures answer { told result ≡ (step_entry shanghai (memory register.old book.now places.now) (Loaded (read_as file))).answer }
    ensures after { memory register.new book.now places.now ≡ (step_entry shanghai (memory register.old book.now places.now) (Loaded (read_as file))).memory }
{
    sound(register, book, places)?;
    quota_load::load(register, file)
}

// Call 11. Close: quotas, then orders; no place is written.
#[tactic(auto, unfolding(claim::specs::Step::step, quota::specs::Calls::close_after))]
pub fn guarded_close(register: &mut [u32], book: &mut [u64], places: &[u64]) -> Result<u64, Refusal>
    ensures answer { told result ≡ (step shanghai (memory register.old book.old places.now) Close).answer }
    ensures after { memory register.new book.new places.now ≡ (step shanghai (memory register.old book.old places.now) Close).memory }
{
    sound(register, book, places)?;
    close_quotas(register)?;
    close_orders(book);
    Ok(0)
}
