// The check of a whole bundle.
ghost use Rattle.std.specs.Prelude.{◌≡◌, length, Err};
ghost use Rattle.rules.specs.Calls.{check_call, scratch_after};
ghost use Rattle.answers.specs.Findings.{verdict_said};
ghost use Rattle.answers.specs.Refusals.{refusal_said};
ghost use Rattle.preparation.specs.Begins.{Early};

pub use answers::finding::{BodyFinding, Finding};
use answers::refusal::Refusal;
use preparation::begin::begin;
use subclasses::prepared::PreparedBundle;
use verdicts::check::check_in;

// What a check finds where the call cannot begin.
pub(crate) fn early(refusal: Refusal) -> Finding
    requires { Early refusal }
    ensures { verdict_said (Err result) ≡ refusal_said refusal }
{
    match refusal {
        Refusal::Layout(found) => Finding::Layout(found),
        Refusal::Scratch => Finding::Scratch,
        Refusal::Row | Refusal::Absent => unreachable!(),
    }
}

// Whether the bundle is accepted, and if not, what is broken: the lowest-numbered broken signature with its first broken tuple, or with none the lowest
// broken method with its first broken instruction.
pub fn check(bundle: &[u8], scratch: &mut [u8]) -> Result<(), Finding>
    ensures result_value { verdict_said result ≡ check_call bundle.now (length scratch.old) }
    ensures scratch_after { scratch.new ≡ scratch_after bundle.now scratch.old }
{
    match begin(bundle, scratch) {
        Ok(bundle) => check_in(&PreparedBundle { bundle, scratch }),
        Err(refusal) => Err(early(refusal)),
    }
}
