// What a method overrides: the target of a resend in it, and whether its arguments suit that method.
#![tactic(auto)]

pub mod suits;
pub mod target;
