// A run for callers that have no branch for a send that finds no method, or two: its answer has no case for a number that stops a run.
ghost use Rattle.std.specs.Prelude.{◌≡◌, length};
ghost use Rattle.rules.specs.Calls.{scratch_after};
ghost use Rattle.rules.specs.Accepted.{accepted_call};
ghost use Rattle.answers.specs.Send.{tuple_of};
ghost use Rattle.sound_runs.specs.Accepted.{accepted_said, EndsSoundly};

use answers::send::Send;
use preparation::begin::begin;
use sound_runs::accepted::accepted_in;
pub use sound_runs::accepted::{AcceptedError, SoundEnd, SoundRun};
use subclasses::prepared::PreparedBundle;

// Runs the send if the bundle is accepted and some signature covers the send. Nothing runs before both are known.
pub fn run_accepted(
    bundle: &[u8],
    scratch: &mut [u8],
    send: Send,
    count: u32,
) -> Result<SoundRun, AcceptedError>
    ensures result_value { accepted_said result ≡ accepted_call bundle.now (length scratch.old) send.function (tuple_of send) count }
    ensures ends_soundly { EndsSoundly bundle.now (length scratch.old) send.function (tuple_of send) count (accepted_said result) }
    ensures scratch_after { scratch.new ≡ scratch_after bundle.now scratch.old }
{
    let bundle = begin(bundle, scratch)?;
    accepted_in(&PreparedBundle { bundle, scratch }, send, count)
}
