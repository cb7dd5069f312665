// The subclass matrix in the scratch, and tuples of classes compared by it.
#![tactic(auto)]

pub mod matrix;
pub mod places;
pub mod prepared;
pub mod tuple;
