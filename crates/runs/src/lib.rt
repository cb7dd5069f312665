// The run of a send of an opened bundle whose matrix stands in the scratch.
#![tactic(auto)]

pub mod run;
