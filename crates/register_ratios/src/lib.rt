// The table of ratios of a register: six words of its header, read and put (2026-01).
#![tactic(auto)]

ghost use Rattle.std.specs.Prelude.{◌≡◌, ◌+◌, ◌<◌, get_or, set};
ghost use Rattle.rules.specs.Quotas.{ratio as ratio_of};
ghost use Rattle.register.specs.Layout.{held, first_declarer, ratios_of, put_ratio, put_ratios};

use register::layout::RATIOS;
use rules::quotas::{Ratio, Ratios};
use words::{low, word_or};

fn ratio_at(register: &[u32], k: usize) -> Ratio
    requires { k < first_declarer }
    ensures { result ≡ ratio_of (get_or register.now k 0) (get_or register.now (k + 1) 0) }
{
    Ratio {
        numerator: u64::from(word_or(register, k, 0)),
        denominator: u64::from(word_or(register, k + 1, 0)),
    }
}

// The ratios of classes 1, 3 and 4; zeros in a memory without a header.
pub fn ratios_of(register: &[u32]) -> Ratios
    ensures { result ≡ ratios_of register.now }
{
    Ratios {
        proprietary: ratio_at(register, RATIOS),
        management: ratio_at(register, RATIOS + 2),
        institution: ratio_at(register, RATIOS + 4),
    }
}

// Kept (no plainer): `words::store` of one word would make a list of it, test two lengths and copy: here one test and one write.
fn put_word(register: &mut [u32], k: usize, x: u64)
    ensures { register.new ≡ set register.old k (held x) }
{
    if k < register.len() {
        register[k] = low(x);
    }
}

fn put_ratio(register: &mut [u32], k: usize, ratio: Ratio)
    requires { k < first_declarer }
    ensures { register.new ≡ put_ratio register.old k ratio }
{
    put_word(register, k, ratio.numerator);
    put_word(register, k + 1, ratio.denominator);
}

// The register with other ratios; in a memory without a header only what is there is written.
pub fn put_ratios(register: &mut [u32], ratios: Ratios)
    ensures { register.new ≡ put_ratios register.old ratios }
{
    put_ratio(register, RATIOS, ratios.proprietary);
    put_ratio(register, RATIOS + 2, ratios.management);
    put_ratio(register, RATIOS + 4, ratios.institution);
}
