// The refusals of calls 1 to 7, groups, units and declarations, each over what the call reads.
// Kept (no plainer): code and class, declarer, group and quota are fields of a variant of `Call`: a struct of them would be a second name for it.
ghost use Rattle.std.specs.Prelude.{◌≡◌, ◌&&◌};
ghost use Rattle.rules.specs.Limits.{is_code, is_group};
ghost use Rattle.rules.specs.Numbers.{refusal_number};
ghost use Rattle.rules.specs.Refusals.{refusal};
ghost use Rattle.rules.specs.Lists.{is_foreign, held_by_another, nothing_to_withdraw, not_above, is_above, enrol_rules, attach_rules, detach_rules, regular_rules, raise_rules, withdraw_rules, own_quota_rules};

use rules::declaring::{AttachReads, EnrolReads, FigureReads, GroupReads};
use rules::limits::{BROKERAGE, PROPRIETARY, TOP_CLASS, TOP_CODE, TOP_GROUP, TOP_QUOTA};
use rules::money::Millions;
use rules::quotas::{Emergency, Ratios};
use rules::refusals::{Refusal, refuse};
use rules_quotas::{flag_due, quota_by};

// Call 1, enrol group.
#[tactic(auto, unfolding(rules::specs::Lists::enrol_rules))]
pub fn enrol_refusal(code: u64, class: u64, reads: EnrolReads) -> Result<(), Refusal>
    ensures { refusal_number result ≡ refusal (enrol_rules code class reads) }
{
    let in_range = code <= TOP_CODE && (1..=TOP_CLASS).contains(&class);
    refuse(!in_range, Refusal::OutOfRange)?;
    refuse(class == BROKERAGE, Refusal::NotControlled)?;
    refuse(reads.taken, Refusal::AlreadyThere)?;
    refuse(reads.full, Refusal::NoRoom)
}

// A unit or a declarer, and a group, each in the range of codes.
fn is_named(code: u64, group: u64) -> bool
    ensures { result ≡ (is_code code && is_group group) }
{
    code <= TOP_CODE && group <= TOP_GROUP
}

// Call 2, attach unit.
#[tactic(auto, unfolding(rules::specs::Lists::attach_rules))]
pub fn attach_refusal(unit: u64, group: u64, reads: AttachReads) -> Result<(), Refusal>
    ensures { refusal_number result ≡ refusal (attach_rules unit group reads) }
{
    let in_range = is_named(unit, group);
    refuse(!in_range, Refusal::OutOfRange)?;
    refuse(reads.attached, Refusal::AlreadyThere)?;
    refuse(reads.full, Refusal::NoRoom)?;
    refuse(!reads.enrolled, Refusal::NotThere)
}

// Call 3, detach unit.
#[tactic(auto, unfolding(rules::specs::Lists::detach_rules))]
pub fn detach_refusal(unit: u64, attached: bool) -> Result<(), Refusal>
    ensures { refusal_number result ≡ refusal (detach_rules unit attached) }
{
    refuse(TOP_CODE < unit, Refusal::OutOfRange)?;
    refuse(!attached, Refusal::NotThere)
}

// A class 1 group is declared by the firm alone.
fn is_foreign(reads: GroupReads, declarer: u64) -> bool
    ensures { result ≡ is_foreign reads declarer }
{
    reads.class == PROPRIETARY && declarer != reads.code
}

// Call 4, regular declaration: "refusal 8 .. by the table loaded last" (2026-01).
#[tactic(auto, unfolding(rules::specs::Lists::regular_rules))]
pub fn regular_refusal(
    ratios: Ratios,
    declarer: u64,
    group: u64,
    base: Millions,
    quota: Millions,
    reads: GroupReads,
    figures: FigureReads,
) -> Result<(), Refusal>
    ensures { refusal_number result ≡ refusal (regular_rules ratios declarer group base quota reads figures) }
{
    let in_range = is_named(declarer, group) && base.0 <= TOP_QUOTA && quota.0 <= TOP_QUOTA;
    let due = quota_by(ratios, reads.class, base);
    refuse(!in_range, Refusal::OutOfRange)?;
    refuse(!reads.enrolled, Refusal::NotThere)?;
    refuse(is_foreign(reads, declarer), Refusal::NotTheFirm)?;
    refuse(quota != due, Refusal::NotFromBase)?;
    refuse(base.0 == 0 && !figures.standing, Refusal::NothingToWithdraw)?;
    refuse(!figures.standing && figures.full, Refusal::EightStand)
}

fn held_by_another(emergency: Emergency, declarer: u64) -> bool
    ensures { result ≡ held_by_another emergency declarer }
{
    match emergency {
        Emergency::Held {
            declarer: holder,
            ..
        } => holder != declarer,
        Emergency::Nobody | Emergency::Filed { .. } => false,
    }
}

fn not_above(maximum: Option<Millions>, quota: Millions) -> bool
    ensures { result ≡ not_above maximum quota }
{
    maximum.is_some_and(|m| quota <= m)
}

// Call 5, emergency raise.
#[tactic(auto, unfolding(rules::specs::Lists::raise_rules))]
pub fn raise_refusal(
    declarer: u64,
    group: u64,
    quota: Millions,
    flag: u64,
    reads: GroupReads,
) -> Result<(), Refusal>
    ensures { refusal_number result ≡ refusal (raise_rules declarer group quota flag reads) }
{
    let agreed = reads.quota;
    let in_range = is_named(declarer, group) && 1 <= quota.0 && quota.0 <= TOP_QUOTA && flag <= 1;
    refuse(!in_range, Refusal::OutOfRange)?;
    refuse(!reads.enrolled, Refusal::NotThere)?;
    refuse(is_foreign(reads, declarer), Refusal::NotTheFirm)?;
    refuse(
        held_by_another(agreed.emergency, declarer),
        Refusal::HeldByAnother,
    )?;
    refuse(not_above(agreed.maximum, quota), Refusal::NotAboveMaximum)?;
    refuse(flag != flag_due(quota), Refusal::WrongFlag)
}

fn nothing_to_withdraw(emergency: Emergency) -> bool
    ensures { result ≡ nothing_to_withdraw emergency }
{
    !matches!(emergency, Emergency::Held { .. })
}

// Call 6, withdraw emergency.
#[tactic(auto, unfolding(rules::specs::Lists::withdraw_rules))]
pub fn withdraw_refusal(declarer: u64, group: u64, reads: GroupReads) -> Result<(), Refusal>
    ensures { refusal_number result ≡ refusal (withdraw_rules declarer group reads) }
{
    let emergency = reads.quota.emergency;
    let in_range = is_named(declarer, group);
    refuse(!in_range, Refusal::OutOfRange)?;
    refuse(!reads.enrolled, Refusal::NotThere)?;
    refuse(is_foreign(reads, declarer), Refusal::NotTheFirm)?;
    refuse(nothing_to_withdraw(emergency), Refusal::NothingToWithdraw)?;
    refuse(held_by_another(emergency, declarer), Refusal::HeldByAnother)
}

fn is_above(maximum: Option<Millions>, quota: Millions) -> bool
    ensures { result ≡ is_above maximum quota }
{
    maximum.is_some_and(|m| m < quota)
}

// Call 7, own quota.
#[tactic(auto, unfolding(rules::specs::Lists::own_quota_rules))]
pub fn own_quota_refusal(group: u64, quota: Millions, reads: GroupReads) -> Result<(), Refusal>
    ensures { refusal_number result ≡ refusal (own_quota_rules group quota reads) }
{
    let maximum = reads.quota.maximum;
    let in_range = group <= TOP_GROUP && quota.0 <= TOP_QUOTA;
    refuse(!in_range, Refusal::OutOfRange)?;
    refuse(!reads.enrolled, Refusal::NotThere)?;
    refuse(is_above(maximum, quota), Refusal::AboveMaximum)?;
    refuse(maximum.is_none(), Refusal::NoMaximum)
}
