// The check of a whole bundle: coverage before bodies.
ghost use Rattle.std.specs.Prelude.{◌≡◌};
ghost use Rattle.rules.specs.Coverage.{verdict};
ghost use Rattle.layout.specs.Bundles.{model};
ghost use Rattle.answers.specs.Findings.{verdict_said};

use answers::finding::Finding;
use coverage::signature::broken_signature;
use subclasses::prepared::PreparedBundle;
use typing::methods::type_bodies;

// The verdict: the lowest broken signature with its first broken tuple, or with none the lowest broken method with its first broken instruction.
pub fn check_in(prepared: &PreparedBundle<'_>) -> Result<(), Finding>
    ensures { verdict_said result ≡ verdict (model prepared.now.bundle) }
{
    broken_signature(prepared)?;
    type_bodies(prepared)
}
