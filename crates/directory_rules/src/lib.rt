// Numbers 1 to 3: the size of a bundle, its directory, and its counts.
#![tactic(auto)]

pub mod directory;
pub mod limits;
