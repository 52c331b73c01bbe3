// A call as five numbers: its code and four fields, of which those that it does not use are 0.
ghost use Rattle.std.specs.Prelude.{◌≡◌};
ghost use Rattle.callfile.specs.Lines.{spelled, words_of, is_call, words_fit};

use columns_powers::fits;
use rules::calls::Call;

// Kept (no plainer): code and fields are the five columns of a line; the enum of the calls is `Call`.
#[derive(Clone, Copy)]
pub struct Words {
    pub code: u64,
    pub fields: [u64; 4],
}

// Kept (no plainer): a function and no `From`: definitions and laws name `words_of`, which says which way it goes.
// "Codes, with fields", in the paper's order. (The eleven calls)
#[tactic(auto, unfolding(crate::specs::Lines::words_of))]
pub fn words_of(call: Call) -> Words
    ensures { spelled result ≡ words_of call }
{
    let (code, fields) = match call {
        Call::Enrol { code, class } => (1, [code, class, 0, 0]),
        Call::Attach { unit, group } => (2, [unit, group, 0, 0]),
        Call::Detach { unit } => (3, [unit, 0, 0, 0]),
        Call::Regular {
            declarer,
            group,
            base,
            quota,
        } => (4, [declarer, group, base.0, quota.0]),
        Call::Raise {
            declarer,
            group,
            quota,
            flag,
        } => (5, [declarer, group, quota.0, flag]),
        Call::Withdraw { declarer, group } => (6, [declarer, group, 0, 0]),
        Call::OwnQuota { group, quota } => (7, [group, quota.0, 0, 0]),
        Call::Order {
            unit,
            kind,
            price,
            quantity,
        } => (8, [unit, kind, price.0, quantity]),
        Call::Fill {
            order,
            price,
            quantity,
        } => (9, [order, price.0, quantity, 0]),
        Call::Cancel { order } => (10, [order, 0, 0, 0]),
        Call::Close => (11, [0, 0, 0, 0]),
    };
    Words { code, fields }
}

// How many fields each call has, by its code.
const FIELDS: [usize; 12] = [0, 2, 2, 1, 4, 4, 2, 2, 4, 3, 1, 0];

// "the code, 1 to 11, .. unused fields are 0" (Lines and columns)
#[tactic(auto, unfolding(crate::specs::Lines::is_call, crate::specs::Lines::fields))]
pub fn is_call(w: Words) -> bool
    ensures { result ≡ is_call (spelled w) }
{
    if w.code < 1 || 11 < w.code {
        return false;
    }
    let used = FIELDS[w.code as usize];
    let [a, b, c, d] = w.fields;
    (1 <= used || a == 0) && (2 <= used || b == 0) && (3 <= used || c == 0) && (4 <= used || d == 0)
}

// Whether the code fits in 2 columns, and each field in 9.
#[tactic(auto, unfolding(crate::specs::Lines::words_fit))]
pub fn words_fit(w: Words) -> bool
    ensures { result ≡ words_fit (spelled w) }
{
    let [a, b, c, d] = w.fields;
    fits(2, w.code) && fits(9, a) && fits(9, b) && fits(9, c) && fits(9, d)
}
