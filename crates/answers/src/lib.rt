// What calls answer with, and what layers below them find: sends, findings and refusals, and the number of each. An answer of a call is made of these.
#![tactic(auto)]

pub mod failure;
pub mod finding;
pub mod number;
pub mod opening;
pub mod refusal;
pub mod send;
