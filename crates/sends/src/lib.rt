// A send as a caller passes it: whether it is one of the bundle, the classes that it passes, and whether signatures cover it.
#![tactic(auto)]

pub mod covered;
pub mod send;
