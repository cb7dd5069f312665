// The run of a send that an accepted bundle covers: what the check accepts runs soundly.
#![tactic(auto)]

pub mod accepted;
