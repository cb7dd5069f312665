// What a call refuses before the rules of its own.
ghost use Rattle.std.specs.Prelude.{◌≡◌, get_or};
ghost use Rattle.answers.specs.Numbers.{code_of};
ghost use Rattle.answers.specs.declared.refusal.Refusal.TheVariants.{Layout};
ghost use Rattle.answers.specs.Refusals.{refusal_number, refusal_values};

use crate::number::Number;
use crate::opening::LayoutFinding;

// Numbers 1 to 9, 19, 20 and 18, in the order in which they are tried.
#[derive(Clone, Copy)]
pub enum Refusal {
    Layout(LayoutFinding),
    Scratch,
    Row,
    Absent,
}

impl Refusal {
    pub fn number(self) -> Number
        ensures { code_of result ≡ refusal_number self }
    {
        match self {
            Refusal::Layout(found) => found.number(),
            Refusal::Scratch => Number::ShortScratch,
            Refusal::Row => Number::ShortBuffer,
            Refusal::Absent => Number::Absent,
        }
    }

    // The record that is named, 0 where none is.
    pub fn record(self) -> usize
        ensures { result ≡ get_or (refusal_values self) 0 0 }
    {
        match self {
            Refusal::Layout(found) => found.record(),
            Refusal::Scratch => 0,
            Refusal::Row => 0,
            Refusal::Absent => 0,
        }
    }
}

impl From<LayoutFinding> for Refusal {
    ghost from_gives = { λ found r. r ≡ Layout found };

    fn from(found: LayoutFinding) -> Refusal {
        Refusal::Layout(found)
    }
}
