// A gate: the three memories that the host lends, together. They may have any content and any length; what a call answers, and what it leaves in them, is
// said over their content (`memory_in`, claim/specs/Step.antt). The crates `gate_open`, `gate_guard`, `gate_call` and `gate_load` have the calls.
#![tactic(auto)]

// Groups, units and quotas; the groups' money; an order's place each.
#[derive(Drop)]
pub struct Gate<'a> {
    pub register: &'a mut [u32],
    pub book: &'a mut [u64],
    pub places: &'a mut [u64],
}
