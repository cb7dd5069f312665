// What the test programs share: words and numbers on standard output, counts, lent buffers, and replies compared and printed.
#![tactic(auto)]

pub mod buffer;
pub mod counts;
pub mod print;
pub mod replies;
