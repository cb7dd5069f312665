// The call for one instruction of a method of a bundle.
ghost use Rattle.std.specs.Prelude.{◌≡◌};
ghost use Rattle.curiumtoad.specs.Instruction.{instruction_said, instruction_call};

use answers::refusal::Refusal;
use bundle_rules::opening::open;
use layout::instruction::Instruction;
use reader::code::code_of;
use reader::nth_reading;

// Instruction n of a method, or that the method has no more.
pub fn nth_instruction(
    bundle: &[u8],
    method: usize,
    n: usize,
) -> Result<Option<Instruction>, Refusal>
    ensures { instruction_said result ≡ instruction_call bundle.now method n }
{
    let bundle = open(bundle)?;
    if bundle.tables.methods <= method {
        return Err(Refusal::Absent);
    }
    Ok(nth_reading(code_of(&bundle, method), n))
}
