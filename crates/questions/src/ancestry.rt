// The ancestry question.
ghost use Rattle.std.specs.Prelude.{◌≡◌};
ghost use Rattle.rules.specs.Calls.{ancestry_in};
ghost use Rattle.layout.specs.Bundles.{model};
ghost use Rattle.questions.specs.Said.{ancestry_said};

use answers::refusal::Refusal;
pub use subclasses::matrix::Ancestry;
use subclasses::prepared::PreparedBundle;

// How class a stands to class c.
pub fn ancestry_in(prepared: &PreparedBundle<'_>, a: usize, c: usize) -> Result<Ancestry, Refusal>
    ensures { ancestry_said result ≡ ancestry_in a c (model prepared.now.bundle) }
{
    let classes = prepared.bundle.tables.classes;
    if classes <= a || classes <= c {
        return Err(Refusal::Absent);
    }
    Ok(prepared.ancestry(a, c))
}
