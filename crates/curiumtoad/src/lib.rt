// The entry points: whatever is passed, an answer comes back. Each opens the bundle first, refuses in the order of the rules' numbers, and leaves the work to
// the layers below, from which the types of their answers are passed on.
#![tactic(auto)]

pub mod ancestry;
pub mod chart;
pub mod check;
pub mod checked_run;
pub mod instruction;
pub mod lookup;
pub mod opening;
pub mod rough;
pub mod run;
pub mod run_accepted;
pub mod send_type;
pub mod view;
pub mod witness;

pub use answers::refusal::Refusal;
pub use answers::send::{Send, Tuple};
