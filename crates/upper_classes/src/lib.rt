// The answer for arguments known only roughly: what the tuples of concrete classes below the upper classes find.
#![tactic(auto)]

pub mod answer;
mod least;
