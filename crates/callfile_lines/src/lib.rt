// Call lines read and written, answer lines written. What each function means is in callfile/specs/Lines.antt. Every function is
// total: what does not fit is not written.
#![tactic(auto)]

pub mod reading; // a call line read
pub mod writing; // call lines and answer lines put into a buffer
