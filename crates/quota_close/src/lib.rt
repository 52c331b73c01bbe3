// The close of quotas: maximum, emergency and own quota of every enrolled group.
#![tactic(auto)]

ghost use Rattle.std.specs.Prelude.{◌≡◌};
ghost use Rattle.rules.specs.Numbers.{refusal_number};
ghost use Rattle.quota.specs.Calls.{closed_at, closed_below, close_refusal, close_after};

use quota::soundness::sound;
use quota_records::closed_group;
use register_groups::{group_at, group_count, put_group_inlined};
use rules::refusals::Refusal;

// Kept (no plainer): read, changed and put, as in calls 4 to 7 (`quota_declare`); one function of the five would take a closure, and need its contract at each.
// Group i after the close.
#[tactic(auto, unfolding(quota::specs::Calls::closed_at))]
fn close_group(register: &mut [u32], i: usize)
    ensures { register.new ≡ closed_at register.old i }
{
    let agreed = group_at(register, i);
    put_group_inlined(register, i, closed_group(agreed));
}

// The quota part of call 11: refused where the register is not sound.
#[tactic(auto, unfolding(quota::specs::Calls::closed_below, quota::specs::Calls::close_refusal, quota::specs::Calls::close_after))]
pub fn close_quotas(register: &mut [u32]) -> Result<(), Refusal>
    ensures answer { refusal_number result ≡ close_refusal register.old }
    ensures register { register.new ≡ close_after register.old }
{
    sound(register)?;
    let n = group_count(register) as usize;
    for i in 0..n {
        close_group(register, i);
    }
    Ok(())
}
