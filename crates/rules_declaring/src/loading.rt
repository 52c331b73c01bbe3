// The refusals of a load, a file of ratios, over what the file says (2026-01).
ghost use Rattle.std.specs.Prelude.{◌≡◌, Some};
ghost use Rattle.rules.specs.Numbers.{refusal_number};
ghost use Rattle.rules.specs.Refusals.{refusal};
ghost use Rattle.rules.specs.Loads.{line_in_range, file_in_range, in_order, load_rules, read_as};

use rules::limits::{ASSET_MANAGEMENT, INSTITUTION, PROPRIETARY, TOP_CLASS, TOP_RATIO};
use rules::loads::{RatioFile, RatioLine};
use rules::refusals::{Refusal, refuse};

// The numbers of a line are in their ranges.
fn line_in_range(line: RatioLine) -> bool
    ensures { result ≡ line_in_range line }
{
    (1..=TOP_CLASS).contains(&line.class)
        && (1..=TOP_RATIO).contains(&line.numerator)
        && (1..=TOP_RATIO).contains(&line.denominator)
}

fn file_in_range(file: RatioFile) -> bool
    ensures { result ≡ file_in_range (read_as (Some file)) }
{
    line_in_range(file.first) && line_in_range(file.second) && line_in_range(file.third)
}

// "for classes 1, 3 and 4 in that order" (2026-01)
fn in_order(file: RatioFile) -> bool
    ensures { result ≡ in_order (read_as (Some file)) }
{
    file.first.class == PROPRIETARY
        && file.second.class == ASSET_MANAGEMENT
        && file.third.class == INSTITUTION
}

// 2 where a formed file has a number outside its range; 23 where it is not of its form, or a group is enrolled.
#[tactic(auto, unfolding(rules::specs::Loads::load_rules))]
pub fn load_refusal(file: Option<RatioFile>, enrolled: bool) -> Result<(), Refusal>
    ensures { refusal_number result ≡ refusal (load_rules (read_as file) enrolled) }
{
    let lines = file.ok_or(Refusal::NoTable)?;
    refuse(!file_in_range(lines), Refusal::OutOfRange)?;
    refuse(!in_order(lines) || enrolled, Refusal::NoTable)
}
