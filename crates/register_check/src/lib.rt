// The self check in columns: every figure of the enrolled groups and of the attached units is in its range, and so are the counts and the ratios. Three loops
// without early exit beside the ratios': the seven scalars of a group, a declarer with its figure, a unit with its group. Each loop reads neighbours in memory,
// so the compiler takes four at a time.
#![tactic(auto, using(words::specs::Each::below_none, words::specs::Each::below_turn))]

ghost use Rattle.std.specs.Prelude.{◌≡◌, ◌≤◌, ◌<◌};
ghost use Rattle.words.specs.Each.{all_below};
ghost use Rattle.register.specs.Check.{unit_ok, ratio_ok, register_ok};
ghost use Rattle.register.specs.Columns.{scalars_ok, declared_ok};

use register::layout::{
    CLASS_COLUMN, EMERGENCY_COLUMN, FIRST_DECLARER, FIRST_FIGURE, FIRST_SCALAR, FIRST_UNIT,
    FIRST_UNIT_GROUP, GROUPS, HOLDER_COLUMN, RATIO_WORDS, RATIOS, REGISTER, SCALARS, UNITS,
};
use words::whole;

// Kept (rule): this crate names `words` and `register` alone (crates.txt): the numbers stand here and in specs/Check.antt, `most_words`, held to each other.
// The greatest values of code, class, maximum, own quota, holder, emergency figure, figures standing.
const MOST: [u32; SCALARS] = [99_999, 4, 10_000_000, 10_000_000, 200_000, 9_999_999, 8];

// The scalars of group i: at most their greatest values, the class 1 or more, and no figure where nobody holds an emergency.
#[tactic(auto, using(words::specs::Each::below_none, words::specs::Each::below_turn), unfolding(register::specs::Columns::scalars_ok))]
fn scalars_ok(register: &[u32; REGISTER], i: usize) -> bool
    requires { i < 64 }
    ensures { result ≡ scalars_ok register.now i }
{
    let mut ok = true;
    for k in 0..SCALARS {
        ok &= register[FIRST_SCALAR + 64 * k + i] <= MOST[k];
    }
    ((1 <= register[CLASS_COLUMN + i])
        & !((register[HOLDER_COLUMN + i] == 200_000) & (register[EMERGENCY_COLUMN + i] != 0)))
        & ok
}

// Kept (no plainer): n beside the register, in three loops: a slice holds one column, and each loop reads two or more at one place: two slices say more than n.
fn all_scalars_ok(register: &[u32; REGISTER], n: usize) -> bool
    requires { n ≤ 64 }
    ensures { result ≡ all_below n (scalars_ok register.now) }
{
    let mut ok = true;
    for i in 0..n {
        ok &= scalars_ok(register, i);
    }
    ok
}

// The first n declarers, counted over all groups, and their figures.
fn declared_ok(register: &[u32; REGISTER], n: usize) -> bool
    requires { n ≤ 512 }
    ensures { result ≡ all_below n (declared_ok register.now) }
{
    let mut ok = true;
    for j in 0..n {
        ok &= (register[FIRST_DECLARER + j] <= 99_999) & (register[FIRST_FIGURE + j] <= 9_999_999);
    }
    ok
}

fn units_ok(register: &[u32; REGISTER], n: usize) -> bool
    requires { n ≤ 256 }
    ensures { result ≡ all_below n (unit_ok register.now) }
{
    let mut ok = true;
    for k in 0..n {
        ok &= (register[FIRST_UNIT + k] <= 99_999)
            & (register[FIRST_UNIT_GROUP + k] < register[GROUPS]);
    }
    ok
}

// The words of the ratios: "both 1 to 100" (2026-01).
#[tactic(auto, using(words::specs::Each::below_none, words::specs::Each::below_turn, crate::proofs::Ratios::ratio_read))]
fn ratios_ok(register: &[u32; REGISTER]) -> bool
    ensures { result ≡ all_below 6 (ratio_ok register.now) }
{
    let mut ok = true;
    for word in &register[RATIOS..RATIOS + RATIO_WORDS] {
        ok &= (1 <= *word) & (*word <= 100);
    }
    ok
}

// Every figure of the register is in its range.
#[tactic(auto, using(register::specs::Columns::columns, std::proofs::lemmas::Grind::common_steps), unfolding(register::specs::Check::register_ok))]
pub fn register_ok(register: &[u32]) -> bool
    ensures { result ≡ register_ok register.now }
{
    let Some(register) = whole(register) else {
        return false;
    };
    let groups = register[GROUPS];
    let units = register[UNITS];
    if 64 < groups || 256 < units {
        return false;
    }
    let n = groups as usize;
    ratios_ok(register)
        & ((all_scalars_ok(register, n) & declared_ok(register, 8 * n))
            & units_ok(register, units as usize))
}
