// The lines of a listing and of a refusal, appended to a lent buffer piece by piece.
#![tactic(auto)]

pub mod append;
pub mod line;
