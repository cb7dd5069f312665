// The machine: sends, resends, returns and single instructions over frames, and the run of a send.
#![tactic(auto)]

mod call;
pub mod ending;
mod resend;
mod returning;
pub mod run;
mod step;
