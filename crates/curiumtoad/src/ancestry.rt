// The ancestry question.
ghost use Rattle.std.specs.Prelude.{◌≡◌, length};
ghost use Rattle.rules.specs.Calls.{ancestry_call, scratch_after};
ghost use Rattle.questions.specs.Said.{ancestry_said};

use answers::refusal::Refusal;
use preparation::begin::begin;
pub use questions::ancestry::Ancestry;
use questions::ancestry::ancestry_in;
use subclasses::prepared::PreparedBundle;

// How class a stands to class c: the same class, an heir, or neither.
pub fn ancestry(bundle: &[u8], scratch: &mut [u8], a: usize, c: usize) -> Result<Ancestry, Refusal>
    ensures result_value { ancestry_said result ≡ ancestry_call bundle.now (length scratch.old) a c }
    ensures scratch_after { scratch.new ≡ scratch_after bundle.now scratch.old }
{
    let bundle = begin(bundle, scratch)?;
    ancestry_in(&PreparedBundle { bundle, scratch }, a, c)
}
