// Sets of methods as words of bits, by the places of the methods in an order, and the tables of such sets by which a search narrows one.
#![tactic(auto)]

pub mod order;
pub mod sets;
pub mod table;
