// The refusals of calls 4 to 7 over the register: what the call reads, its list of rules, and 1 where the register is not sound.
// Kept (no plainer): declarer, group, quota and flag are fields of a variant of `Call` (see `quota_declare`); four refusals of one shape, as in `quota_admit`.
#![tactic(auto)]

ghost use Rattle.std.specs.Prelude.{◌≡◌};
ghost use Rattle.rules.specs.Numbers.{refusal_number};
ghost use Rattle.quota.specs.Reads.{group_reads, figure_reads};
ghost use Rattle.quota.specs.Calls.{regular_refusal, raise_refusal, withdraw_refusal, own_quota_refusal};

use figures_declared::{is_full, stands};
use quota::soundness::sound;
use register_groups::{group_at, group_count};
use register_ratios::ratios_of;
use rules::declaring::{FigureReads, GroupReads};
use rules::money::Millions;
use rules::refusals::Refusal;
use rules_declaring::declaring::{
    own_quota_refusal, raise_refusal, regular_refusal, withdraw_refusal,
};

fn reads_of_group(register: &[u32], group: u64) -> GroupReads
    ensures { result ≡ group_reads register.now group }
{
    let agreed = group_at(register, group as usize);
    GroupReads {
        enrolled: group < group_count(register),
        code: agreed.code,
        class: agreed.class,
        quota: agreed.quota,
    }
}

fn reads_of_figures(register: &[u32], group: u64, declarer: u64) -> FigureReads
    ensures { result ≡ figure_reads register.now group declarer }
{
    let figures = group_at(register, group as usize).figures;
    FigureReads {
        standing: stands(figures, declarer),
        full: is_full(figures),
    }
}

#[tactic(auto, unfolding(quota::specs::Calls::regular_refusal))]
pub fn refusal_of_regular(
    register: &[u32],
    declarer: u64,
    group: u64,
    base: Millions,
    quota: Millions,
) -> Result<(), Refusal>
    ensures { refusal_number result ≡ regular_refusal register.now declarer group base quota }
{
    sound(register)?;
    let ratios = ratios_of(register);
    let reads = reads_of_group(register, group);
    let figures = reads_of_figures(register, group, declarer);
    regular_refusal(ratios, declarer, group, base, quota, reads, figures)
}

#[tactic(auto, unfolding(quota::specs::Calls::raise_refusal))]
pub fn refusal_of_raise(
    register: &[u32],
    declarer: u64,
    group: u64,
    quota: Millions,
    flag: u64,
) -> Result<(), Refusal>
    ensures { refusal_number result ≡ raise_refusal register.now declarer group quota flag }
{
    sound(register)?;
    let reads = reads_of_group(register, group);
    raise_refusal(declarer, group, quota, flag, reads)
}

#[tactic(auto, unfolding(quota::specs::Calls::withdraw_refusal))]
pub fn refusal_of_withdraw(register: &[u32], declarer: u64, group: u64) -> Result<(), Refusal>
    ensures { refusal_number result ≡ withdraw_refusal register.now declarer group }
{
    sound(register)?;
    withdraw_refusal(declarer, group, reads_of_group(register, group))
}

#[tactic(auto, unfolding(quota::specs::Calls::own_quota_refusal))]
pub fn refusal_of_own_quota(register: &[u32], group: u64, quota: Millions) -> Result<(), Refusal>
    ensures { refusal_number result ≡ own_quota_refusal register.now group quota }
{
    sound(register)?;
    own_quota_refusal(group, quota, reads_of_group(register, group))
}
