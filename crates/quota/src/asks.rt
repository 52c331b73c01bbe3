// What the order layer may ask of a register. It knows the quota layer by these promises and nothing more.
ghost use Rattle.std.specs.Prelude.{◌≡◌};
ghost use Rattle.rules.specs.Keyed.{is_there, or_else};
ghost use Rattle.quota.specs.Asks.{is_sound, groups_enrolled, is_enrolled, is_attached, group_of_unit, own_in_force};

use register_check::register_ok;
use register_groups::{group_count, quota_at};
use register_units::find_unit;
use rules::money::Millions;
use rules_quotas::own_in_force;

// Every figure of the register is in its range.
#[tactic(auto, unfolding(crate::specs::Asks::is_sound))]
pub fn is_sound(register: &[u32]) -> bool
    ensures { result ≡ is_sound register.now }
{
    register_ok(register)
}

// How many groups are enrolled; they bear the numbers from 0 on.
#[tactic(auto, unfolding(crate::specs::Asks::groups_enrolled))]
pub fn groups_enrolled(register: &[u32]) -> u64
    ensures { result ≡ groups_enrolled register.now }
{
    group_count(register)
}

// The group is enrolled.
#[tactic(auto, unfolding(crate::specs::Asks::is_enrolled))]
pub fn is_enrolled(register: &[u32], group: u64) -> bool
    ensures { result ≡ is_enrolled register.now group }
{
    group < group_count(register)
}

// The group of a unit, where it is attached.
#[tactic(auto, unfolding(crate::specs::Asks::is_attached, crate::specs::Asks::group_of_unit))]
pub fn attachment_of(register: &[u32], unit: u64) -> Option<u64>
    ensures attached { is_there result ≡ is_attached register.now unit }
    ensures group { or_else 0 result ≡ group_of_unit register.now unit }
{
    find_unit(register, unit)
}

// A group's own quota in force.
#[tactic(auto, unfolding(crate::specs::Asks::own_in_force))]
pub fn own_in_force_of(register: &[u32], group: u64) -> Option<Millions>
    ensures { result ≡ own_in_force register.now group }
{
    own_in_force(quota_at(register, group as usize))
}
