// The search among the tuples of concrete classes below given ones, for the first at which the answer to a question is no. The check of coverage and the answer
// for arguments known only roughly both ask by it.
#![tactic(auto)]

mod alike;
mod leader;
pub mod question;
pub mod search;
pub mod tables;
