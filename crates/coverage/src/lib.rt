// Coverage: the search for a signature with a tuple that breaks the coverage rule.
#![tactic(auto)]

pub mod signature;
