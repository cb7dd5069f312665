// The ends of bodies.
ghost use Rattle.layout.specs.Bundles.{model};
ghost use Rattle.machine.specs.Held.{resumed, Held};
ghost use Rattle.machine.specs.Progress.{BodyAt, ResumesTo};

use crate::ending::Ending;
use answers::number::Number;
use frames::frame::Frames;
use layout::open::OpenBundle;

// The value of the body of frame k, or none while it has an instruction left; 14 where it ended without just one value.
fn value_of(bundle: &OpenBundle<'_>, frames: &Frames, k: usize) -> Result<Option<usize>, Ending>
    requires held { Held (model bundle.now) frames.now.numbers frames.now.values k }
    ensures { BodyAt (model bundle.now) frames.now.numbers frames.now.values k result }
{
    let m = frames.method(k);
    let at = frames.next(k);
    if at < bundle.size(m) {
        return Ok(None);
    }
    if frames.height(k) != 1 {
        return Err(Ending::Stopped(Number::BadStack, m, at));
    }
    Ok(Some(frames.lowest(k)))
}

// Returns the value of each body that has ended to its caller, until a frame has an instruction left, which is then on top, or the run ends.
pub(crate) fn return_values(
    bundle: &OpenBundle<'_>,
    frames: &mut Frames,
    top: usize,
) -> Result<usize, Ending>
    requires held { Held (model bundle.now) frames.old.numbers frames.old.values top }
    ensures { let M = model bundle.now in ResumesTo M frames.new.numbers frames.new.values result (resumed M frames.old.numbers frames.old.values top) }
{
    for caller in (0..top).rev() {
        let k = caller + 1;
        let Some(v) = value_of(bundle, frames, k)? else {
            return Ok(k);
        };
        frames.push(caller, v);
    }
    let Some(v) = value_of(bundle, frames, 0)? else {
        return Ok(0);
    };
    Err(Ending::Value(v))
}
