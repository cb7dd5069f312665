// Opening (M 3.1): the rules 1 to 9 in their order, each decided for the whole bundle before the next.
#![tactic(auto)]

mod lowest;
pub mod opening;
