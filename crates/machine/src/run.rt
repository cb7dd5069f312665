// Whole runs: the start, and paces until one ends the run or the count is used up.
ghost use Rattle.std.specs.Prelude.{◌≡◌, ◌+◌, ◌<◌};
ghost use Rattle.rules.specs.Machine.{progress, start, pace_from, run_from, run};
ghost use Rattle.layout.specs.Bundles.{model};
ghost use Rattle.subclasses.specs.Places.{Arguments};
ghost use Rattle.machine.specs.Held.{resumed, Waiting, Going};
ghost use Rattle.machine.specs.Progress.{ResumesTo, ProgressTo};
ghost use Rattle.machine.specs.Outcome.{outcome_of};

use crate::call::call;
use crate::ending::Ending;
use crate::returning::return_values;
use crate::step::step;
use dispatch::index::IndexedBundle;
use frames::frame::Frames;
use subclasses::prepared::PreparedBundle;

// The ending of a run and the steps made.
#[derive(Clone, Copy)]
pub struct Outcome {
    pub ending: Ending,
    pub steps: u32,
}

// The start of a run, which is no step: the send that opens it, with the ends of bodies that follow. It leaves a frame on top, or ends the run.
fn start(
    indexed: &IndexedBundle<'_>,
    frames: &mut Frames,
    f: usize,
    args: &[u8],
) -> Result<usize, Ending>
    requires arguments { Arguments (model indexed.now.prepared.bundle) f args.now }
    requires waiting { Waiting (model indexed.now.prepared.bundle) frames.old.numbers frames.old.values 0 }
    ensures { let M = model indexed.now.prepared.bundle in ResumesTo M frames.new.numbers frames.new.values result (start M f args.now).next }
{
    let top = call(indexed, frames, f, args, 0)?;
    return_values(&indexed.prepared.bundle, frames, top)
}

// One pace: the next instruction of the frame on top, which is a step unless it fails, with the ends of bodies that follow. It leaves a frame on top and
// is the step after `steps` others, or ends the run.
fn pace(
    indexed: &IndexedBundle<'_>,
    frames: &mut Frames,
    top: usize,
    steps: u32,
) -> Result<usize, Outcome>
    requires going { Going (model indexed.now.prepared.bundle) frames.old.numbers frames.old.values top }
    requires steps_bound { steps < 4294967295 }
    ensures { let M = model indexed.now.prepared.bundle in ProgressTo M frames.new.numbers frames.new.values (steps + 1) result (pace_from M (resumed M frames.old.numbers frames.old.values top) steps) }
{
    match step(indexed, frames, top) {
        Ok(next) => {
            let steps = steps + 1;
            return_values(&indexed.prepared.bundle, frames, next).map_err(|ending| Outcome {
                ending,
                steps,
            })
        }
        Err(ending) => Err(Outcome { ending, steps }),
    }
}

// Paces from the frame on top, at most `count` of them.
fn run_from(indexed: &IndexedBundle<'_>, frames: &mut Frames, top: usize, count: u32) -> Outcome
    requires going { Going (model indexed.now.prepared.bundle) frames.old.numbers frames.old.values top }
    ensures { let M = model indexed.now.prepared.bundle in outcome_of result ≡ (run_from M count (progress (resumed M frames.old.numbers frames.old.values top) 0)).outcome }
{
    let mut k = top;
    for steps in 0..count {
        match pace(indexed, frames, k, steps) {
            Ok(next) => k = next,
            Err(outcome) => return outcome,
        }
    }
    Outcome {
        ending: Ending::Spent,
        steps: count,
    }
}

// A run of one send, with no more steps than the count.
pub fn run(prepared: &PreparedBundle<'_>, f: usize, args: &[u8], count: u32) -> Outcome
    requires { Arguments (model prepared.now.bundle) f args.now }
    ensures { let M = model prepared.now.bundle in outcome_of result ≡ (run M f args.now count).outcome }
{
    let indexed = IndexedBundle::new(prepared);
    let mut frames = Frames::new();
    match start(&indexed, &mut frames, f, args) {
        Ok(top) => run_from(&indexed, &mut frames, top, count),
        Err(ending) => Outcome { ending, steps: 0 },
    }
}
