// A resend in a body: the type that it leaves, or why it breaks.
ghost use Rattle.std.specs.Prelude.{◌≡◌, ◌<◌, length};
ghost use Rattle.rules.specs.Model.{resend};
ghost use Rattle.rules.specs.Lookup.{found};
ghost use Rattle.rules.specs.Resend.{resend_target};
ghost use Rattle.layout.specs.Bundles.{model};
ghost use Rattle.typing.specs.Bodies.{Applied};

use crate::row::{Stack, class_row};
use answers::number::Number;
use dispatch::index::IndexedBundle;
use overriding::suits::suits;
use overriding::target::resend_target;
use subclasses::prepared::PreparedBundle;

// A resend in method m to its target: where the arguments of m suit that one, the type of its result class goes on the stack.
fn apply_target(
    prepared: &PreparedBundle<'_>,
    m: usize,
    target: usize,
    stack: &mut Stack,
) -> Result<(), Number>
    requires m_lt_methods { m < prepared.now.bundle.tables.methods }
    requires m_value { resend_target (model prepared.now.bundle) m ≡ found target }
    requires room { length stack.old.items < 64 }
    ensures { Applied (model prepared.now.bundle) m resend stack.old.items stack.new.items result }
{
    let bundle = &prepared.bundle;
    let n = bundle.arity(bundle.function(m));
    if !suits(prepared, n, m, target) {
        return Err(Number::NarrowTarget);
    }
    stack.push(class_row(prepared, bundle.result(target)));
    Ok(())
}

// A resend in method m takes nothing off the stack: its arguments are those of m.
pub(crate) fn apply_resend(
    indexed: &IndexedBundle<'_>,
    m: usize,
    stack: &mut Stack,
) -> Result<(), Number>
    requires m_lt_methods { m < indexed.now.prepared.bundle.tables.methods }
    requires room { length stack.old.items < 64 }
    ensures { Applied (model indexed.now.prepared.bundle) m resend stack.old.items stack.new.items result }
{
    match resend_target(indexed, m) {
        Ok(target) => apply_target(&indexed.prepared, m, target, stack),
        Err(failed) => Err(failed.resend_number()),
    }
}
