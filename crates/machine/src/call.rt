// A send above the frames that wait for it: what lookup finds, the declared classes, and the frame that is opened.
ghost use Rattle.std.specs.Prelude.{◌≡◌, ◌<◌, ◌≤◌, length};
ghost use Rattle.rules.specs.Layout.{places};
ghost use Rattle.rules.specs.Lookup.{found};
ghost use Rattle.rules.specs.Machine.{max_frames, target_found, call_target, call};
ghost use Rattle.layout.specs.Bundles.{model};
ghost use Rattle.subclasses.specs.Places.{Arguments};
ghost use Rattle.machine.specs.Held.{callers_of, Waiting};
ghost use Rattle.machine.specs.Endings.{Enters, StepsTo};

use crate::ending::Ending;
use answers::failure::Failure;
use answers::send::Send;
use dispatch::index::IndexedBundle;
use frames::frame::{Frames, MAX_FRAMES};
use subclasses::prepared::PreparedBundle;

// Opens a frame for method m above `depth` others, and answers which it is; or Deep.
pub(crate) fn enter(
    frames: &mut Frames,
    args: &[u8],
    m: usize,
    depth: usize,
) -> Result<usize, Ending>
    requires args_len_bound { length args.now ≤ places }
    requires depth_le_max_frames { depth ≤ max_frames }
    ensures { Enters frames.old.numbers frames.old.values args.now m depth frames.new.numbers frames.new.values result }
{
    if depth == MAX_FRAMES {
        return Err(Ending::Deep);
    }
    frames.begin(depth, m, args);
    Ok(depth)
}

// A send of function f that found method m: 12, then Deep.
fn call_found(
    prepared: &PreparedBundle<'_>,
    frames: &mut Frames,
    f: usize,
    args: &[u8],
    m: usize,
    depth: usize,
) -> Result<usize, Ending>
    requires arguments { Arguments (model prepared.now.bundle) f args.now }
    requires m_lt_methods { m < prepared.now.bundle.tables.methods }
    requires m_value { (model prepared.now.bundle).function m ≡ f }
    requires waiting { Waiting (model prepared.now.bundle) frames.old.numbers frames.old.values depth }
    ensures { let M = model prepared.now.bundle in StepsTo M frames.new.numbers frames.new.values result (call_target M f args.now (callers_of M frames.old.numbers frames.old.values depth) (target_found M args.now (found m))) }
{
    if !prepared.declared_hold(args, m) {
        return Err(Ending::Fails(Send::of(f, args), Failure::Declared(m)));
    }
    enter(frames, args, m, depth)
}

// A send of function f, with `depth` frames that wait for it: 10, 11, 12, then Deep.
pub(crate) fn call(
    indexed: &IndexedBundle<'_>,
    frames: &mut Frames,
    f: usize,
    args: &[u8],
    depth: usize,
) -> Result<usize, Ending>
    requires arguments { Arguments (model indexed.now.prepared.bundle) f args.now }
    requires waiting { Waiting (model indexed.now.prepared.bundle) frames.old.numbers frames.old.values depth }
    ensures { let M = model indexed.now.prepared.bundle in StepsTo M frames.new.numbers frames.new.values result (call M f args.now (callers_of M frames.old.numbers frames.old.values depth)) }
{
    match indexed.lookup(f, args) {
        Ok(m) => call_found(&indexed.prepared, frames, f, args, m, depth),
        Err(failed) => Err(Ending::Fails(Send::of(f, args), Failure::Lookup(failed))),
    }
}
