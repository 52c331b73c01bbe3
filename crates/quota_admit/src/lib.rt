// The refusals of calls 1 to 3 over the register: what the call reads, its list of rules, and 1 where the register is not sound.
//
// Kept (no plainer): three refusals of one shape, two lines each; what they read differs.
#![tactic(auto)]

ghost use Rattle.std.specs.Prelude.{◌≡◌};
ghost use Rattle.rules.specs.Numbers.{refusal_number};
ghost use Rattle.quota.specs.Reads.{enrol_reads, attach_reads};
ghost use Rattle.quota.specs.Calls.{enrol_refusal, attach_refusal, detach_refusal};

use quota::soundness::sound;
use register_groups::{group_count, is_taken};
use register_units::{is_attached, unit_count};
use rules::declaring::{AttachReads, EnrolReads};
use rules::limits::{MOST_GROUPS, MOST_UNITS};
use rules::refusals::Refusal;
use rules_declaring::declaring::{attach_refusal, detach_refusal, enrol_refusal};

fn reads_of_enrol(register: &[u32], code: u64, class: u64) -> EnrolReads
    ensures { result ≡ enrol_reads register.now code class }
{
    EnrolReads {
        taken: is_taken(register, code, class),
        full: MOST_GROUPS <= group_count(register),
    }
}

fn reads_of_attach(register: &[u32], unit: u64, group: u64) -> AttachReads
    ensures { result ≡ attach_reads register.now unit group }
{
    AttachReads {
        attached: is_attached(register, unit),
        full: MOST_UNITS <= unit_count(register),
        enrolled: group < group_count(register),
    }
}

#[tactic(auto, unfolding(quota::specs::Calls::enrol_refusal))]
pub fn refusal_of_enrol(register: &[u32], code: u64, class: u64) -> Result<(), Refusal>
    ensures { refusal_number result ≡ enrol_refusal register.now code class }
{
    sound(register)?;
    enrol_refusal(code, class, reads_of_enrol(register, code, class))
}

#[tactic(auto, unfolding(quota::specs::Calls::attach_refusal))]
pub fn refusal_of_attach(register: &[u32], unit: u64, group: u64) -> Result<(), Refusal>
    ensures { refusal_number result ≡ attach_refusal register.now unit group }
{
    sound(register)?;
    attach_refusal(unit, group, reads_of_attach(register, unit, group))
}

#[tactic(auto, unfolding(quota::specs::Calls::detach_refusal))]
pub fn refusal_of_detach(register: &[u32], unit: u64) -> Result<(), Refusal>
    ensures { refusal_number result ≡ detach_refusal register.now unit }
{
    sound(register)?;
    detach_refusal(unit, is_attached(register, unit))
}
