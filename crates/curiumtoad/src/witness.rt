// The witness check: the coverage rule for one signature and one tuple.
ghost use Rattle.std.specs.Prelude.{◌≡◌, length};
ghost use Rattle.rules.specs.Calls.{witness_call, scratch_after};
ghost use Rattle.answers.specs.Send.{classes_of};
ghost use Rattle.verdicts.specs.Said.{witness_said};

pub use answers::finding::CoverageFinding;
use answers::send::Tuple;
use preparation::begin::begin;
use subclasses::prepared::PreparedBundle;
pub use verdicts::witness::WitnessError;
use verdicts::witness::witness_in;

// The coverage rule's answer for a signature and a tuple of concrete classes that it covers.
pub fn witness(
    bundle: &[u8],
    scratch: &mut [u8],
    signature: usize,
    tuple: Tuple,
) -> Result<(), WitnessError>
    ensures result_value { witness_said result ≡ witness_call bundle.now (length scratch.old) signature (classes_of tuple) }
    ensures scratch_after { scratch.new ≡ scratch_after bundle.now scratch.old }
{
    let bundle = begin(bundle, scratch)?;
    witness_in(&PreparedBundle { bundle, scratch }, signature, tuple)
}
