// A group's record changed: one part anew, the rest as it was.
#![tactic(auto)]

ghost use Rattle.std.specs.Prelude.{◌≡◌};
ghost use Rattle.quota.specs.Groups.{fresh_group, declared_group, raised_group, filing, filed_group, own_group, closed_group};

use figures::Figures;
use figures_declared::{count_of, declared, no_figures, sum_of, withdrawn};
use register::groups::Group;
use rules::money::Millions;
use rules::quotas::{Emergency, Quota};
use rules_quotas::{closed_quota, regular_maximum};

// Just enrolled: maximum none, no figure.
pub fn fresh_group(code: u64, class: u64) -> Group
    ensures { result ≡ fresh_group code class }
{
    Group {
        code,
        class,
        quota: Quota::fresh(),
        figures: no_figures(),
    }
}

// Base 0 withdraws the declarer's figure; else the quota is its figure.
#[tactic(auto, unfolding(quota::specs::Groups::declared_group))]
pub fn declared_group(group: Group, declarer: u64, base: Millions, quota: Millions) -> Group
    ensures { result ≡ declared_group group declarer base quota }
{
    let figures = if base.0 == 0 {
        withdrawn(group.figures, declarer)
    } else {
        declared(group.figures, declarer, quota)
    };
    Group { figures, ..group }
}

// An emergency raise is the maximum at once, held by its declarer, nothing filed.
#[tactic(auto, unfolding(quota::specs::Groups::raised_group))]
pub fn raised_group(group: Group, declarer: u64, figure: Millions) -> Group
    ensures { result ≡ raised_group group declarer figure }
{
    let quota = Quota {
        maximum: Some(figure),
        emergency: Emergency::Held { declarer, figure },
        ..group.quota
    };
    Group { quota, ..group }
}

fn filing_of(emergency: Emergency) -> Emergency
    ensures { result ≡ filing emergency }
{
    match emergency {
        Emergency::Held { declarer, figure } => Emergency::Filed { declarer, figure },
        other => other,
    }
}

// The emergency's withdrawal is filed; the maximum stays until the close.
#[tactic(auto, unfolding(quota::specs::Groups::filed_group))]
pub fn filed_group(group: Group) -> Group
    ensures { result ≡ filed_group group }
{
    let quota = Quota {
        emergency: filing_of(group.quota.emergency),
        ..group.quota
    };
    Group { quota, ..group }
}

// The own quota is declared.
#[tactic(auto, unfolding(quota::specs::Groups::own_group))]
pub fn own_group(group: Group, own: Millions) -> Group
    ensures { result ≡ own_group group own }
{
    let quota = Quota {
        own: Some(own),
        ..group.quota
    };
    Group { quota, ..group }
}

// A group after the close: maximum, emergency and own quota by the close's rule, over its standing figures.
#[tactic(auto, unfolding(quota::specs::Groups::closed_group))]
pub fn closed_group(group: Group) -> Group
    ensures { result ≡ closed_group group }
{
    let regular = regular_maximum(count_of(group.figures), sum_of(group.figures));
    Group {
        quota: closed_quota(group.quota, regular),
        ..group
    }
}
