// What every call that takes scratch begins with.
#![tactic(auto)]

pub mod begin;
