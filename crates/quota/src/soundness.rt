// "a figure of the gate out of its range": 1, before everything. (Refusal list)
ghost use Rattle.std.specs.Prelude.{◌≡◌, not};
ghost use Rattle.rules.specs.Numbers.{refused_if};
ghost use Rattle.rules.specs.declared.refusals.Refusal.TheVariants.{Unsound};
ghost use Rattle.register.specs.Check.{register_ok};

use register_check::register_ok;
use rules::refusals::{Refusal, refuse};

// Refused unless every figure of the register is in its range.
pub fn sound(register: &[u32]) -> Result<(), Refusal>
    ensures { result ≡ refused_if (not (register_ok register.now)) Unsound }
{
    refuse(!register_ok(register), Refusal::Unsound)
}
