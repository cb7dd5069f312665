// Verdicts on an opened bundle whose matrix stands in the scratch: the check of the whole, and the coverage rule for one signature and one tuple.
#![tactic(auto)]

pub mod check;
pub mod witness;
