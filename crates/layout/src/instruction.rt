// An instruction as the machine and the check of bodies see it.
ghost use Rattle.std.specs.Prelude.{◌≡◌};
ghost use Rattle.rules.specs.Model.{decode};
ghost use Rattle.layout.specs.Instruction.{instr};

use crate::bundle::Bundle;

// What an operation and its operand say (M 2.8).
#[derive(Clone, Copy)]
pub enum Instruction {
    Arg(usize),
    New(usize),
    Send(usize),
    Resend,
}

// The instruction of these two bytes. Number 9 refuses every other operation, and what stands for it here, and a RESEND whose operand is not 0.
#[tactic(auto, unfolding(rules::specs::Model::decode, crate::specs::Instruction::instr))]
pub fn decoded(operation: usize, operand: usize) -> Instruction
    ensures { instr result ≡ decode operation operand }
{
    match operation {
        0 => Instruction::Arg(operand),
        1 => Instruction::New(operand),
        2 => Instruction::Send(operand),
        3 => Instruction::Resend,
        _ => Instruction::Arg(Bundle::PLACES),
    }
}
