// Calls 1 to 3: a group enrolled, a unit attached or detached. A refused call answers its number and leaves the register as it was, word for word.
#![tactic(auto)]

ghost use Rattle.std.specs.Prelude.{◌≡◌};
ghost use Rattle.rules.specs.Refusals.{answered};
ghost use Rattle.rules.specs.Numbers.{told};
ghost use Rattle.quota.specs.Calls.{enrol_answer, enrol_after, attach_refusal, attach_after, detach_refusal, detach_after};

use quota_admit::{refusal_of_attach, refusal_of_detach, refusal_of_enrol};
use quota_records::fresh_group;
use register_groups::{add_group, group_count};
use register_units::{add_unit, remove_unit};
use rules::refusals::Refusal;

// Call 1. Enrol group: given the next group number from 0.
#[tactic(auto, unfolding(quota::specs::Calls::enrol_answer, quota::specs::Calls::enrol_after))]
pub fn enrol(register: &mut [u32], code: u64, class: u64) -> Result<u64, Refusal>
    ensures answer { told result ≡ enrol_answer register.old code class }
    ensures register { register.new ≡ enrol_after register.old code class }
{
    refusal_of_enrol(register, code, class)?;
    let number = group_count(register);
    add_group(register, fresh_group(code, class));
    Ok(number)
}

// Call 2. Attach unit.
#[tactic(auto, unfolding(quota::specs::Calls::attach_after))]
pub fn attach(register: &mut [u32], unit: u64, group: u64) -> Result<u64, Refusal>
    ensures answer { told result ≡ answered (attach_refusal register.old unit group) }
    ensures register { register.new ≡ attach_after register.old unit group }
{
    refusal_of_attach(register, unit, group)?;
    add_unit(register, unit, group);
    Ok(0)
}

// Call 3. Detach unit: its orders live on.
#[tactic(auto, unfolding(quota::specs::Calls::detach_after))]
pub fn detach(register: &mut [u32], unit: u64) -> Result<u64, Refusal>
    ensures answer { told result ≡ answered (detach_refusal register.old unit) }
    ensures register { register.new ≡ detach_after register.old unit }
{
    refusal_of_detach(register, unit)?;
    remove_unit(register, unit);
    Ok(0)
}
