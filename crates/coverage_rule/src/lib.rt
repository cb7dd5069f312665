// The coverage rule for one tuple of a signature, and when one signature implies another.
#![tactic(auto)]

pub mod implied;
pub mod judge;
