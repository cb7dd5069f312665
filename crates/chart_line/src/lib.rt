// The chart of a function of two arguments, a line at a time, over an opened bundle whose matrix stands in the scratch.
#![tactic(auto)]

mod cell;
mod concrete;
pub mod line;
