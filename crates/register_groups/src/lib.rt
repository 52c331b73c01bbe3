// A group's record: code, class, quota and figures, read from its words and put into them.
#![tactic(auto)]

ghost use Rattle.std.specs.Prelude.{◌≡◌, [], ◌<◌};
ghost use Rattle.std.specs.List.{list_any, range_with_len};
ghost use Rattle.register.specs.Layout.{place as place_of, record_at, put_words, figures_of, group_of, words_of, group_at, put_group, group_count, add_group, is_group, is_taken, record_words, register_length};

use figures::Figures;
use register::groups::Group;
use register::layout::{FIRST_DECLARER, FIRST_FIGURE, FIRST_SCALAR, GROUPS, RECORD, REGISTER};
use register_codec::{emergency_of, figure_word, holder_word, limit_of, limit_word};
use rules::money::Millions;
use rules::quotas::Quota;
use words::{low, whole, word_or};

#[tactic(auto, unfolding(register::specs::Layout::figures_of))]
fn figures_of(w: &[u64; RECORD]) -> Figures
    ensures { result ≡ figures_of w.now }
{
    Figures {
        standing: w[6],
        declarers: [w[7], w[8], w[9], w[10], w[11], w[12], w[13], w[14]],
        quotas: [
            Millions(w[15]),
            Millions(w[16]),
            Millions(w[17]),
            Millions(w[18]),
            Millions(w[19]),
            Millions(w[20]),
            Millions(w[21]),
            Millions(w[22]),
        ],
    }
}

// What a record says.
#[tactic(auto, unfolding(register::specs::Layout::group_of))]
fn group_of(w: &[u64; RECORD]) -> Group
    ensures { result ≡ group_of w.now }
{
    Group {
        code: w[0],
        class: w[1],
        quota: Quota {
            maximum: limit_of(w[2]),
            own: limit_of(w[3]),
            emergency: emergency_of(w[4], w[5]),
        },
        figures: figures_of(w),
    }
}

// The record of a group.
#[tactic(auto, unfolding(register::specs::Layout::words_of))]
fn words_of(group: Group) -> [u64; RECORD]
    ensures { result ≡ words_of group }
{
    let Quota {
        maximum,
        own,
        emergency,
    } = group.quota;
    let Figures {
        standing,
        declarers: d,
        quotas: q,
    } = group.figures;
    [
        group.code,
        group.class,
        limit_word(maximum),
        limit_word(own),
        holder_word(emergency),
        figure_word(emergency),
        standing,
        d[0],
        d[1],
        d[2],
        d[3],
        d[4],
        d[5],
        d[6],
        d[7],
        q[0].0,
        q[1].0,
        q[2].0,
        q[3].0,
        q[4].0,
        q[5].0,
        q[6].0,
        q[7].0,
    ]
}

// A group of zeros, where there is none.
#[tactic(auto, unfolding(register::specs::Layout::group_of, register::specs::Layout::figures_of))]
fn no_group() -> Group
    ensures { result ≡ group_of [] }
{
    group_of(&[0; RECORD])
}

// Kept (no plainer): `i < 64` stands in three contracts here and in one of `register_check`; a type for a group's place would be made at each call.
// The place of word k of group i.
#[tactic(auto, using(register::specs::Records::place_range), unfolding(register::specs::Layout::place))]
fn place(i: usize, k: usize) -> usize
    requires { (i < 64) × (k < record_words) }
    ensures at { result ≡ place_of i k }
    ensures within { result < register_length }
{
    if k < 7 {
        FIRST_SCALAR + 64 * k + i
    } else if k < 15 {
        FIRST_DECLARER + 8 * i + (k - 7)
    } else {
        FIRST_FIGURE + 8 * i + (k - 15)
    }
}

// The record of group i.
#[tactic(auto, using(register::proofs::Steps::gathered_none, register::proofs::Steps::gathered_turn, register::proofs::Steps::gathered_all, std::proofs::lemmas::Grind::common_steps))]
fn gathered(register: &[u32; REGISTER], i: usize) -> [u64; RECORD]
    requires { i < 64 }
    ensures { result ≡ record_at register.now i }
{
    let mut r = [0; RECORD];
    for k in 0..RECORD {
        r[k] = u64::from(register[place(i, k)]);
    }
    r
}

// The words of group i replaced.
#[tactic(auto, using(register::proofs::Steps::puts_none, register::proofs::Steps::puts_turn))]
fn scatter(register: &mut [u32; REGISTER], i: usize, r: &[u64; RECORD])
    requires { i < 64 }
    ensures { register.new ≡ put_words register.old i r.now record_words }
{
    for k in 0..RECORD {
        register[place(i, k)] = low(r[k]);
    }
}

// Group i of a register; where there is none, a group of zeros.
#[tactic(auto, unfolding(register::specs::Layout::record_at))]
pub fn group_at(register: &[u32], i: usize) -> Group
    ensures { result ≡ group_at register.now i }
{
    match whole(register) {
        Some(register) if i < 64 => group_of(&gathered(register, i)),
        _ => no_group(),
    }
}

// Its quota alone.
pub fn quota_at(register: &[u32], i: usize) -> Quota
    ensures { result ≡ (group_at register.now i).quota }
{
    group_at(register, i).quota
}

// As `put_group`, always within its caller's code: the close replaces every group, and a call for each takes more than twice the instructions.
#[tactic(auto, using(register::proofs::Steps::put_step, std::proofs::lemmas::Grind::common_steps), unfolding(register::specs::Layout::put_record))]
#[inline(always)]
pub fn put_group_inlined(register: &mut [u32], i: usize, group: Group)
    ensures { register.new ≡ put_group register.old i group }
{
    if 64 <= i {
        return;
    }
    if let Some(register) = register.as_mut_array() {
        scatter(register, i, &words_of(group));
    }
}

// Group i of a register replaced; where there is none, nothing. Calls 1 and 4 to 7 put one group each: one copy serves them.
pub fn put_group(register: &mut [u32], i: usize, group: Group)
    ensures { register.new ≡ put_group register.old i group }
{
    put_group_inlined(register, i, group);
}

// Groups enrolled; 0 in a memory without a header.
pub fn group_count(register: &[u32]) -> u64
    ensures { result ≡ group_count register.now }
{
    u64::from(word_or(register, GROUPS, 0))
}

// One more group, in the next place; nothing where there is none.
#[tactic(auto, using(std::proofs::lemmas::Grind::common_steps), unfolding(register::specs::Layout::add_group))]
pub fn add_group(register: &mut [u32], group: Group)
    ensures { register.new ≡ add_group register.old group }
{
    if register.len() != REGISTER {
        return;
    }
    let n = register[GROUPS];
    if 64 <= n {
        return;
    }
    put_group(register, n as usize, group);
    register[GROUPS] = n + 1;
}

// Group i has the code and the class.
fn is_group(register: &[u32], code: u64, class: u64, i: usize) -> bool
    ensures { result ≡ is_group register.now code class i }
{
    let group = group_at(register, i);
    (group.code == code) & (group.class == class)
}

// One of the first n groups has the code and the class.
fn any_is(register: &[u32], code: u64, class: u64, n: usize) -> bool
    ensures { result ≡ list_any (is_group register.now code class) (range_with_len 0 n) }
{
    (0..n).any(|i| is_group(register, code, class, i))
}

// A group of that code and class is enrolled; of more than 64 the first 64 are looked at.
#[tactic(auto, using(crate::proofs::Taken::taken_among))]
pub fn is_taken(register: &[u32], code: u64, class: u64) -> bool
    ensures { result ≡ is_taken register.now code class }
{
    let n = group_count(register).min(64) as usize;
    any_is(register, code, class, n)
}
