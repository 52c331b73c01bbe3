// "Quotas": what follows from a base, the own quota in force, and the close's rule.
#![tactic(auto)]

ghost use Rattle.std.specs.Prelude.{◌≡◌};
ghost use Rattle.rules.specs.Quotas.{ratio_of, quota_at, quota_by, in_force, own_quota, regular_maximum, maximum_at_close, emergency_at_close, own_at_close, closed_quota, flag_due};

use rules::limits::{ASSET_MANAGEMENT, PROPRIETARY, TOP_QUOTA, TOP_RATIO};
use rules::money::Millions;
use rules::quotas::{Emergency, Quota, Ratio, Ratios};

// The ratio of a class, by a table (2026-01).
fn ratio_of(ratios: Ratios, class: u64) -> Ratio
    ensures { result ≡ ratio_of ratios class }
{
    match class {
        PROPRIETARY => ratios.proprietary,
        ASSET_MANAGEMENT => ratios.management,
        _ => ratios.institution,
    }
}

// base × numerator ÷ denominator, rounded half up. A number above its range counts as the top of the range: no product wraps, whatever the words of a
// register.
#[tactic(auto, using(crate::proofs::Ratios::product_fits))]
fn quota_at(ratio: Ratio, base: Millions) -> Millions
    ensures { result ≡ quota_at ratio base }
{
    let counted = base.0.min(TOP_QUOTA);
    let n = ratio.numerator.min(TOP_RATIO);
    let d = ratio.denominator.min(TOP_RATIO);
    if d == 0 {
        return Millions(0);
    }
    Millions((2 * (counted * n) + d) / (2 * d))
}

// The quota that a base gives its class, by a table of ratios (2026-01).
#[tactic(auto, unfolding(rules::specs::Quotas::quota_by))]
pub fn quota_by(ratios: Ratios, class: u64, base: Millions) -> Millions
    ensures { result ≡ quota_by ratios class base }
{
    quota_at(ratio_of(ratios, class), base)
}

// "flag: 1 above the threshold, else 0" (The eleven calls).
pub fn flag_due(quota: Millions) -> u64
    ensures { result ≡ flag_due quota }
{
    u64::from(Quota::THRESHOLD < quota.0)
}

// The own quota in force: none where the maximum is none. "Undeclared, it equals the maximum." (Quotas)
pub fn own_in_force(quota: Quota) -> Option<Millions>
    ensures { result ≡ in_force quota }
{
    quota.maximum.map(|maximum| quota.own.unwrap_or(maximum))
}

// What the standing figures give: the smaller of the threshold and their sum, or none where none stands.
pub fn regular_maximum(standing: u64, sum: Millions) -> Option<Millions>
    ensures { result ≡ regular_maximum standing sum }
{
    if standing == 0 {
        return None;
    }
    Some(Millions(sum.0.min(Quota::THRESHOLD)))
}

// The maximum that the close brings: the emergency figure if held and not filed for withdrawal, else the regular one.
pub fn maximum_at_close(emergency: Emergency, regular: Option<Millions>) -> Option<Millions>
    ensures { result ≡ maximum_at_close emergency regular }
{
    match emergency {
        Emergency::Held { figure, .. } => Some(figure),
        Emergency::Nobody | Emergency::Filed { .. } => regular,
    }
}

// A filed withdrawal "takes effect at the close, when nobody holds it any longer" (Quotas).
pub fn emergency_at_close(emergency: Emergency) -> Emergency
    ensures { result ≡ emergency_at_close emergency }
{
    match emergency {
        Emergency::Filed { .. } => Emergency::Nobody,
        kept => kept,
    }
}

// The own quota after the close: at most the new maximum, and erased where that is none.
pub fn own_at_close(maximum: Option<Millions>, own: Option<Millions>) -> Option<Millions>
    ensures { result ≡ own_at_close maximum own }
{
    let maximum = maximum?;
    let declared = own?;
    Some(declared.min(maximum))
}

// A group's quota after the close, with what its standing figures give.
#[tactic(auto, unfolding(rules::specs::Quotas::closed_quota))]
pub fn closed_quota(quota: Quota, regular: Option<Millions>) -> Quota
    ensures { result ≡ closed_quota quota regular }
{
    let maximum = maximum_at_close(quota.emergency, regular);
    Quota {
        maximum,
        own: own_at_close(maximum, quota.own),
        emergency: emergency_at_close(quota.emergency),
    }
}
