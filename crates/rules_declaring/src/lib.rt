// The refusals of calls 1 to 7 and of loads, over what the call reads ("Refusal list"): rules/specs/Lists.antt has the lists. No state. Those of calls
// 8 to 10 are in the crate `rules_trading`.
#![tactic(auto)]

pub mod declaring; // the refusals of calls 1 to 7, over what each reads
pub mod loading; // the refusals of a file of ratios
