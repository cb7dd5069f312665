// A resend: the frame on top hands its arguments to a method that its own overrides.
ghost use Rattle.std.specs.Prelude.{◌≡◌, ◌<◌};
ghost use Rattle.rules.specs.Model.{resend};
ghost use Rattle.rules.specs.Lookup.{found};
ghost use Rattle.rules.specs.Machine.{resend_to};
ghost use Rattle.layout.specs.Bundles.{model};
ghost use Rattle.frames.specs.Arrays.{method_at};
ghost use Rattle.machine.specs.Held.{frame_of, callers_of, split, turn_at, Going};
ghost use Rattle.machine.specs.Endings.{StepsTo};

use crate::call::enter;
use crate::ending::Ending;
use answers::number::Number;
use dispatch::index::IndexedBundle;
use frames::frame::Frames;
use overriding::target::resend_target;
use subclasses::prepared::PreparedBundle;

// A resend with this target: 27, then Deep.
fn resend_to(
    prepared: &PreparedBundle<'_>,
    frames: &mut Frames,
    top: usize,
    target: usize,
) -> Result<usize, Ending>
    requires going { Going (model prepared.now.bundle) frames.old.numbers frames.old.values top }
    requires target_lt_methods { target < prepared.now.bundle.tables.methods }
    requires target_value { let M = model prepared.now.bundle in M.function target ≡ M.function (method_at frames.old.numbers top) }
    ensures { let M = model prepared.now.bundle in StepsTo M frames.new.numbers frames.new.values result (resend_to M (split M (frame_of M frames.old.numbers frames.old.values top)) (callers_of M frames.old.numbers frames.old.values top) (found target)) }
{
    let bundle = &prepared.bundle;
    let n = bundle.arity(bundle.function(target));
    let args = frames.arguments(top, n);
    if !prepared.declared_hold(&args[..n], target) {
        return Err(Ending::Stopped(Number::NarrowTarget, frames.method(top), frames.next(top)));
    }
    frames.pass(top);
    enter(frames, &args[..n], target, top + 1)
}

// RESEND goes to the target of the frame's method, whatever the classes of the arguments; 25 or 26 where there is none. It takes nothing off the stack.
pub(crate) fn resend(
    indexed: &IndexedBundle<'_>,
    frames: &mut Frames,
    top: usize,
) -> Result<usize, Ending>
    requires going { Going (model indexed.now.prepared.bundle) frames.old.numbers frames.old.values top }
    ensures { let M = model indexed.now.prepared.bundle in StepsTo M frames.new.numbers frames.new.values result (turn_at M frames.old.numbers frames.old.values top resend) }
{
    let m = frames.method(top);
    match resend_target(indexed, m) {
        Ok(target) => resend_to(&indexed.prepared, frames, top, target),
        Err(failed) => Err(Ending::Stopped(failed.resend_number(), m, frames.next(top))),
    }
}
