// The attached units, each with its group: a keyed list in two columns.
#![tactic(auto)]

ghost use Rattle.std.specs.Prelude.{◌≡◌, eqb, position, take};
ghost use Rattle.rules.specs.Keyed.{find, is_there};
ghost use Rattle.register.specs.Layout.{unit_count, unit_column, units_of, add_unit, remove_unit};

use pairs::{place_of, remove_word};
use register::layout::{FIRST_UNIT, FIRST_UNIT_GROUP, REGISTER, UNITS};
use words::{low, whole, word_or};

// Kept (no plainer): one line, as `register_groups::group_count`: another word of the header.
// Units attached; 0 in a memory without a header.
pub fn unit_count(register: &[u32]) -> u64
    ensures { result ≡ unit_count register.now }
{
    u64::from(word_or(register, UNITS, 0))
}

// The attached units, of those that there is room for.
#[tactic(auto, using(crate::proofs::Attached::units_first))]
fn units(register: &[u32; REGISTER]) -> &[u32]
    ensures { result.now ≡ take (unit_count register.now) (unit_column register.now) }
{
    let n = (register[UNITS] as usize).min(256);
    &register[FIRST_UNIT..FIRST_UNIT + n]
}

// The group of an attached unit.
#[tactic(auto, using(crate::proofs::Attached::none_there, crate::proofs::Attached::found_within, crate::proofs::Attached::found_group, crate::proofs::Attached::missing))]
pub fn find_unit(register: &[u32], unit: u64) -> Option<u64>
    ensures { result ≡ find unit (units_of register.now) }
{
    let register = whole::<u32, REGISTER>(register)?;
    let k = place_of(units(register), unit)?;
    Some(u64::from(register[FIRST_UNIT_GROUP + k]))
}

// The unit is attached.
pub fn is_attached(register: &[u32], unit: u64) -> bool
    ensures { result ≡ is_there (find unit (units_of register.now)) }
{
    find_unit(register, unit).is_some()
}

// One more unit, behind the others; nothing where there is no room.
#[tactic(auto, unfolding(register::specs::Layout::add_unit))]
pub fn add_unit(register: &mut [u32], unit: u64, group: u64)
    ensures { register.new ≡ add_unit register.old unit group }
{
    if register.len() != REGISTER {
        return;
    }
    let n = register[UNITS];
    if 256 <= n {
        return;
    }
    let k = n as usize;
    register[FIRST_UNIT + k] = low(unit);
    register[FIRST_UNIT_GROUP + k] = low(group);
    register[UNITS] = n + 1;
}

// The unit taken out, the later ones moved down; nothing where it is not attached.
#[tactic(auto, using(crate::proofs::Attached::not_there), unfolding(register::specs::Layout::remove_unit))]
pub fn remove_unit(register: &mut [u32], unit: u64)
    ensures { register.new ≡ remove_unit register.old unit }
{
    if register.len() != REGISTER {
        return;
    }
    let n = register[UNITS];
    if 256 < n {
        return;
    }
    let m = n as usize;
    let Some(k) = place_of(&register[FIRST_UNIT..FIRST_UNIT + m], unit) else {
        return;
    };
    remove_word(&mut register[FIRST_UNIT..FIRST_UNIT + m], k);
    remove_word(&mut register[FIRST_UNIT_GROUP..FIRST_UNIT_GROUP + m], k);
    register[UNITS] = n - 1;
}
