// Inheritance as a graph of classes: an order of them with parents first, sets of classes as words of bits, and the lowest class on a cycle.
#![tactic(auto)]

pub mod class_set;
mod closure;
pub mod cycle;
pub mod order;
