// The listing: what the check says of a bundle, as lines of text; and the lines of refused calls.
#![tactic(auto)]

pub mod listing;
pub mod refusal;
