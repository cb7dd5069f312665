// The frames of a run. Of each frame one array holds three numbers: its method, its next instruction and the height of its stack; the other holds
// bytes: its argument classes, and then its values, bottom first.
#![tactic(auto)]

pub mod frame;
pub mod stack;
