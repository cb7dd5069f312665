// The rule of each record: whether one class, function, signature, method or body breaks it.
#![tactic(auto)]

pub mod class;
pub mod code;
pub mod function;
pub mod method;
mod sequence;
pub mod signature;
pub mod tuple;
