// The gate over lent memory: one function for all eleven calls; the crate `gate_open` opens it. The third demand is in claim/specs/Demand.antt.
#![tactic(auto)]

pub mod calls; // one function over all eleven calls
