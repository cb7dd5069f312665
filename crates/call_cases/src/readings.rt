// The body view and the body reader.
use crate::replies::{UNLENT, UNLIKE, alone};
use curiumtoad::Refusal;
use curiumtoad::instruction::nth_instruction;
use curiumtoad::view::body_view;
use layout::instruction::Instruction;
use reader::{nth_reading, place_after, read_at};
use reply::Reply;
use test_support::replies::is_same;

// The length of the part, which is copied to the row, or the record of a refusal.
pub(crate) fn view_reply(bundle: &[u8], row: &mut [u8], method: usize) -> Reply {
    match body_view(bundle, method) {
        Ok(part) => {
            if part.len() > row.len() {
                return alone(UNLENT);
            }
            row[..part.len()].copy_from_slice(part);
            Reply::given(0, part.len())
        }
        Err(refusal) => Reply::from(refusal),
    }
}

// One more than the operation, and the operand, 0 for RESEND; both are 0 where no instruction is left.
fn of_reading(reading: Option<Instruction>) -> Reply {
    reading.map_or(alone(0), of_instruction)
}

fn of_instruction(instruction: Instruction) -> Reply {
    match instruction {
        Instruction::Arg(place) => Reply::given(1, place),
        Instruction::New(class) => Reply::given(2, class),
        Instruction::Send(function) => Reply::given(3, function),
        Instruction::Resend => Reply::given(4, 0),
    }
}

// The one of two replies that have to be the same.
fn agreed(first: Reply, second: Reply) -> Reply {
    if is_same(first, second) {
        return first;
    }
    alone(UNLIKE)
}

// Any bytes as code, by a reader and without one.
pub(crate) fn reading_reply(code: &[u8], position: usize) -> Reply {
    agreed(
        of_reading(nth_reading(code, position)),
        of_reading(read_at(code, position)),
    )
}

fn of_nth(answer: Result<Option<Instruction>, Refusal>) -> Reply {
    match answer {
        Ok(reading) => of_reading(reading),
        Err(refusal) => Reply::from(refusal),
    }
}

// The position after so many readings from the start. A body has at most 64 instructions, so that more than 100 readings say nothing new.
fn reached(code: &[u8], readings: usize) -> usize {
    let mut at = 0;
    for _ in 0..readings.min(100) {
        at = place_after(code, at);
    }
    at
}

// One reading after another over the part that the body view gives.
fn by_steps(bundle: &[u8], method: usize, position: usize) -> Reply {
    match body_view(bundle, method) {
        Ok(code) => of_reading(read_at(code, reached(code, position))),
        Err(refusal) => Reply::from(refusal),
    }
}

// A method's instruction, at once and by steps.
pub(crate) fn instruction_reply(bundle: &[u8], method: usize, position: usize) -> Reply {
    agreed(
        of_nth(nth_instruction(bundle, method, position)),
        by_steps(bundle, method, position),
    )
}
