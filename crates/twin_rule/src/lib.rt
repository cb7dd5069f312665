// The rule of twins: methods of a function with the same specialisers, looked for among the methods of one bucket alone.
#![tactic(auto)]

mod bucket;
pub mod chain;
pub mod twin;
