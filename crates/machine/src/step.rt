// One instruction of the frame on top.
ghost use Rattle.std.specs.Prelude.{◌<◌, ◌∷◌};
ghost use Rattle.rules.specs.Model.{arg, new, send};
ghost use Rattle.rules.specs.Machine.{made, after};
ghost use Rattle.layout.specs.Bundles.{model};
ghost use Rattle.frames.specs.Arrays.{method_at};
ghost use Rattle.machine.specs.Held.{frame_of, callers_of, split, next_of, turn_at, Going};
ghost use Rattle.machine.specs.Endings.{StepsTo};

use crate::call::call;
use crate::ending::Ending;
use crate::resend::resend;
use answers::number::Number;
use dispatch::index::IndexedBundle;
use frames::frame::Frames;
use layout::instruction::Instruction;
use layout::open::OpenBundle;

// An instruction that puts a value on the stack.
fn put(bundle: &OpenBundle<'_>, frames: &mut Frames, top: usize, v: usize) -> Result<usize, Ending>
    requires going { Going (model bundle.now) frames.old.numbers frames.old.values top }
    requires v_lt_classes { v < bundle.now.tables.classes }
    ensures { let M = model bundle.now in let g = frame_of M frames.old.numbers frames.old.values top in StepsTo M frames.new.numbers frames.new.values result (made (after (split M g) (v ∷ g.stack)) (callers_of M frames.old.numbers frames.old.values top)) }
{
    frames.pass(top);
    frames.push(top, v);
    Ok(top)
}

// ARG puts the argument at a place on the stack.
fn arg(
    bundle: &OpenBundle<'_>,
    frames: &mut Frames,
    top: usize,
    place: usize,
) -> Result<usize, Ending>
    requires going { Going (model bundle.now) frames.old.numbers frames.old.values top }
    requires place_bound { place < (model bundle.now).arity ((model bundle.now).function (method_at frames.old.numbers top)) }
    ensures { let M = model bundle.now in StepsTo M frames.new.numbers frames.new.values result (turn_at M frames.old.numbers frames.old.values top (arg place)) }
{
    let v = frames.argument(top, place);
    put(bundle, frames, top, v)
}

// NEW puts a class on the stack; 15 where it is abstract.
fn new(bundle: &OpenBundle<'_>, frames: &mut Frames, top: usize, c: usize) -> Result<usize, Ending>
    requires going { Going (model bundle.now) frames.old.numbers frames.old.values top }
    requires c_lt_classes { c < bundle.now.tables.classes }
    ensures { let M = model bundle.now in StepsTo M frames.new.numbers frames.new.values result (turn_at M frames.old.numbers frames.old.values top (new c)) }
{
    if !bundle.is_concrete(c) {
        return Err(Ending::Stopped(Number::AbstractNew, frames.method(top), frames.next(top)));
    }
    put(bundle, frames, top, c)
}

// SEND takes its arguments off the stack, 14 where there are too few, and calls.
fn send(
    indexed: &IndexedBundle<'_>,
    frames: &mut Frames,
    top: usize,
    f: usize,
) -> Result<usize, Ending>
    requires going { Going (model indexed.now.prepared.bundle) frames.old.numbers frames.old.values top }
    requires f_lt_functions { f < indexed.now.prepared.bundle.tables.functions }
    ensures { let M = model indexed.now.prepared.bundle in StepsTo M frames.new.numbers frames.new.values result (turn_at M frames.old.numbers frames.old.values top (send f)) }
{
    let n = indexed.prepared.bundle.arity(f);
    if frames.height(top) < n {
        return Err(Ending::Stopped(Number::BadStack, frames.method(top), frames.next(top)));
    }
    let args = frames.pop(top, n);
    frames.pass(top);
    call(indexed, frames, f, &args[..n], top + 1)
}

// The next instruction of the frame on top. It is made, and leaves a frame on top; or it fails.
pub(crate) fn step(
    indexed: &IndexedBundle<'_>,
    frames: &mut Frames,
    top: usize,
) -> Result<usize, Ending>
    requires going { Going (model indexed.now.prepared.bundle) frames.old.numbers frames.old.values top }
    ensures { let M = model indexed.now.prepared.bundle in StepsTo M frames.new.numbers frames.new.values result (turn_at M frames.old.numbers frames.old.values top (next_of M frames.old.numbers top)) }
{
    let bundle = &indexed.prepared.bundle;
    let m = frames.method(top);
    let at = frames.next(top);
    match bundle.instruction(m, at) {
        Instruction::Arg(place) => arg(bundle, frames, top, place),
        Instruction::New(c) => new(bundle, frames, top, c),
        Instruction::Send(f) => send(indexed, frames, top, f),
        Instruction::Resend => resend(indexed, frames, top),
    }
}
