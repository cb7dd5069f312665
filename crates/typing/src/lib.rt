// Typing: static types as rows, the type of a send and the check of bodies.
#![tactic(auto)]

pub mod body;
pub mod methods;
mod resend;
pub mod row;
pub mod send;
