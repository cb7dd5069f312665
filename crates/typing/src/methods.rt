// The check of all bodies.
ghost use Rattle.std.specs.Prelude.{◌≡◌};
ghost use Rattle.rules.specs.Coverage.{body_verdict, broken_method};
ghost use Rattle.layout.specs.Bundles.{model};
ghost use Rattle.answers.specs.Findings.{verdict_said};

use crate::body::type_body;
use answers::finding::{BodyFinding, Finding};
use dispatch::index::IndexedBundle;
use subclasses::prepared::PreparedBundle;

// The verdict on the bodies: accepted, or the lowest method whose body breaks. Its stack of types is not there while signatures are judged.
#[inline(never)]
pub fn type_bodies(prepared: &PreparedBundle<'_>) -> Result<(), Finding>
    ensures { let M = model prepared.now.bundle in verdict_said result ≡ body_verdict M (broken_method M) }
{
    let indexed = IndexedBundle::new(prepared);
    for m in 0..prepared.bundle.tables.methods {
        if let Err(error) = type_body(&indexed, m) {
            let found = BodyFinding {
                number: error.number,
                method: m,
                instruction: error.instruction,
            };
            return Err(Finding::Body(found));
        }
    }
    Ok(())
}
