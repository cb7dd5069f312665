// Questions about an opened bundle whose matrix stands in the scratch: how a class stands to another, what a send finds, and its static type.
#![tactic(auto)]

pub mod ancestry;
pub mod lookup;
pub mod send_type;
