// Dispatch: the index of the methods, those that apply to a send, the one that lookup finds, and whether it is exact.
#![tactic(auto)]

mod applicable;
pub mod exact;
pub mod index;
pub mod lookup;
pub mod select;
