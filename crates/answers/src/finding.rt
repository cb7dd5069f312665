// What a check finds broken.
use crate::failure::Failure;
use crate::number::Number;
use crate::opening::LayoutFinding;
use crate::send::Send;

// Numbers 10 to 13: the signature, a send that it covers, and what that fails by.
#[derive(Clone, Copy)]
pub struct CoverageFinding {
    pub signature: usize,
    pub send: Send,
    pub failure: Failure,
}

// Numbers 14 to 17 and 25 to 27: the method and its first broken instruction.
#[derive(Clone, Copy)]
pub struct BodyFinding {
    pub number: Number,
    pub method: usize,
    pub instruction: usize,
}

// What a refused check found; number 19, which is none of the three, has a case of its own.
#[derive(Clone, Copy)]
pub enum Finding {
    Layout(LayoutFinding),
    Scratch,
    Coverage(CoverageFinding),
    Body(BodyFinding),
}
