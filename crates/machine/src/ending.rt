// How a run ends.
use answers::failure::Failure;
use answers::number::Number;
use answers::send::Send;

// A value; the step count used up; the frames used up; a send that fails; or the run is stopped by a rule's number at an instruction of a method.
#[derive(Clone, Copy)]
pub enum Ending {
    Value(usize),
    Spent,
    Deep,
    Fails(Send, Failure),
    Stopped(Number, usize, usize),
}
