// Calls 4 to 7: figures declared and withdrawn, a raise, an own quota. A refused call answers its number and leaves the register as it was, word for word.
#![tactic(auto)]

ghost use Rattle.std.specs.Prelude.{◌≡◌};
ghost use Rattle.rules.specs.Refusals.{answered};
ghost use Rattle.rules.specs.Numbers.{told};
ghost use Rattle.quota.specs.Calls.{regular_refusal, regular_after, raise_refusal, raise_after, withdraw_refusal, withdraw_after, own_quota_refusal, own_quota_after};

use quota_records::{declared_group, filed_group, own_group, raised_group};
use quota_vet::{refusal_of_own_quota, refusal_of_raise, refusal_of_regular, refusal_of_withdraw};
use register_groups::{group_at, put_group};
use rules::money::Millions;
use rules::refusals::Refusal;

// Kept (no plainer): calls 4 to 7 and `quota_close::close_group` each read the group, change it and put it; one function of the five would take a closure, and need
// its contract at each.
// Kept (no plainer): declarer, group, base and quota are the fields of `Call::Regular`; a struct of them would be a second name for that variant, made at
// the match and taken apart again one line on.

// Call 4. Regular declaration: the last figure of each declarer stands (Articles 8 and 9).
#[tactic(auto, unfolding(quota::specs::Calls::regular_after))]
pub fn regular(
    register: &mut [u32],
    declarer: u64,
    group: u64,
    base: Millions,
    quota: Millions,
) -> Result<u64, Refusal>
    ensures answer { told result ≡ answered (regular_refusal register.old declarer group base quota) }
    ensures register { register.new ≡ regular_after register.old declarer group base quota }
{
    refusal_of_regular(register, declarer, group, base, quota)?;
    let agreed = group_at(register, group as usize);
    put_group(
        register,
        group as usize,
        declared_group(agreed, declarer, base, quota),
    );
    Ok(0)
}

// Call 5. Emergency raise: the maximum at once (Article 13).
#[tactic(auto, unfolding(quota::specs::Calls::raise_after))]
pub fn raise(
    register: &mut [u32],
    declarer: u64,
    group: u64,
    quota: Millions,
    flag: u64,
) -> Result<u64, Refusal>
    ensures answer { told result ≡ answered (raise_refusal register.old declarer group quota flag) }
    ensures register { register.new ≡ raise_after register.old declarer group quota flag }
{
    refusal_of_raise(register, declarer, group, quota, flag)?;
    let agreed = group_at(register, group as usize);
    put_group(
        register,
        group as usize,
        raised_group(agreed, declarer, quota),
    );
    Ok(0)
}

// Call 6. Withdraw emergency: filed now, in effect at the close.
#[tactic(auto, unfolding(quota::specs::Calls::withdraw_after))]
pub fn withdraw(register: &mut [u32], declarer: u64, group: u64) -> Result<u64, Refusal>
    ensures answer { told result ≡ answered (withdraw_refusal register.old declarer group) }
    ensures register { register.new ≡ withdraw_after register.old declarer group }
{
    refusal_of_withdraw(register, declarer, group)?;
    let agreed = group_at(register, group as usize);
    put_group(register, group as usize, filed_group(agreed));
    Ok(0)
}

// Call 7. Own quota: holds immediately (Article 14).
#[tactic(auto, unfolding(quota::specs::Calls::own_quota_after))]
pub fn own_quota(register: &mut [u32], group: u64, quota: Millions) -> Result<u64, Refusal>
    ensures answer { told result ≡ answered (own_quota_refusal register.old group quota) }
    ensures register { register.new ≡ own_quota_after register.old group quota }
{
    refusal_of_own_quota(register, group, quota)?;
    let agreed = group_at(register, group as usize);
    put_group(register, group as usize, own_group(agreed, quota));
    Ok(0)
}
