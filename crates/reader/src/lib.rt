// A method's code, and the body reader (M 10.6): it keeps a method's code and a position, and gives the instructions in their order until there are no more.
#![tactic(auto)]

pub mod code;

ghost use Rattle.std.specs.Prelude.{◌≡◌, ◌-◌, ◌/◌, length};
ghost use Rattle.std.specs.Iterator.{at_most};
ghost use Rattle.reader.specs.Reader.{reading_said, reading_at, place_after, advanced};

use layout::bytes::byte_at;
use layout::instruction::{Instruction, decoded};

// The code of a method, as the body view hands it back, and the number of the instruction to read next.
#[derive(Clone, Copy)]
pub struct BodyReader<'a> {
    code: &'a [u8],
    at: usize,
}

// The work: the instruction at a position of any bytes. Where fewer than two bytes are left, or the operation is none of 0 to 3, there is none. No operand is tested,
// so that a RESEND is one whatever stands behind it.
pub fn read_at(code: &[u8], at: usize) -> Option<Instruction>
    ensures { reading_said result ≡ reading_at code.now at }
{
    if code.len() / 2 <= at {
        return None;
    }
    let operation = byte_at(code, 2 * at);
    if operation > 3 {
        return None;
    }
    let operand = byte_at(code, 2 * at + 1);
    Some(decoded(operation, operand))
}

// Where a reader stands after reading there: past the instruction, or where it was when there was none.
pub fn place_after(code: &[u8], at: usize) -> usize
    ensures { result ≡ place_after code.now at }
{
    match read_at(code, at) {
        Some(_) => at + 1,
        None => at,
    }
}

impl<'a> BodyReader<'a> {
    // A reader at the first instruction.
    pub fn new(code: &'a [u8]) -> Self
        ensures { (result.code ≡ code.entry) × (result.at ≡ 0) }
    {
        BodyReader { code, at: 0 }
    }
}

// The next instruction, and the reader goes past it. There are no more of them than pairs of bytes.
impl<'a> Iterator for BodyReader<'a> {
    type Item = Instruction;

    ghost next_gives = { λ r read after. (reading_said read ≡ reading_at r.code.now r.at) × (after ≡ advanced r) };

    ghost remaining = { λ r. at_most (length r.code.now / 2 - r.at) };

    fn next(&mut self) -> Option<Instruction> {
        let read = read_at(self.code, self.at);
        self.at = place_after(self.code, self.at);
        read
    }
}

// Instruction n of the code. Its parameters are plain, so that who calls it needs no proof about readers.
pub fn nth_reading(code: &[u8], n: usize) -> Option<Instruction>
    ensures { reading_said result ≡ reading_at code.now n }
{
    BodyReader { code, at: n }.next()
}
