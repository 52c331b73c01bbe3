// A load: a file of ratios, as it reads, into the register (2026-01). A refused load answers its number and leaves the register as it was, word for word.
#![tactic(auto)]

ghost use Rattle.std.specs.Prelude.{◌≡◌};
ghost use Rattle.rules.specs.Refusals.{answered};
ghost use Rattle.rules.specs.Numbers.{refusal_number, told};
ghost use Rattle.rules.specs.Loads.{read_as};
ghost use Rattle.quota.specs.Calls.{load_refusal, load_after};

use quota::soundness::sound;
use register_groups::group_count;
use register_ratios::put_ratios;
use rules::loads::RatioFile;
use rules::quotas::Ratios;
use rules::refusals::Refusal;
use rules_declaring::loading::load_refusal;

// 1 where the register is not sound, else what the file says and whether a group is enrolled decide: 2, 23.
#[tactic(auto, unfolding(quota::specs::Calls::load_refusal))]
pub fn refusal_of_load(register: &[u32], file: Option<RatioFile>) -> Result<(), Refusal>
    ensures { refusal_number result ≡ load_refusal register.now (read_as file) }
{
    sound(register)?;
    load_refusal(file, 0 < group_count(register))
}

// "refusal 8 and the history's quotas go by the table loaded last" (2026-01)
#[tactic(auto, unfolding(quota::specs::Calls::load_refusal, quota::specs::Calls::load_after, rules::specs::Loads::load_rules))]
pub fn load(register: &mut [u32], file: Option<RatioFile>) -> Result<u64, Refusal>
    ensures answer { told result ≡ answered (load_refusal register.old (read_as file)) }
    ensures register { register.new ≡ load_after register.old (read_as file) }
{
    refusal_of_load(register, file)?;
    // Kept (no plainer): `refusal_of_load` refuses a file that is none; to return the file it would unwrap it after `load_refusal`: this line in another place.
    put_ratios(register, Ratios::from(file.unwrap()));
    Ok(0)
}
