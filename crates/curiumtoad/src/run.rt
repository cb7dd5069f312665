// The run of a send.
ghost use Rattle.std.specs.Prelude.{◌≡◌, length};
ghost use Rattle.rules.specs.Calls.{run_call, scratch_after};
ghost use Rattle.answers.specs.Send.{tuple_of};
ghost use Rattle.runs.specs.Said.{run_said};

use answers::refusal::Refusal;
use answers::send::Send;
pub use machine::run::Outcome;
use preparation::begin::begin;
use runs::run::run_in;
use subclasses::prepared::PreparedBundle;

// A run of the function with these concrete classes, of no more steps than the count. The bundle has to open, not to be accepted.
pub fn run(bundle: &[u8], scratch: &mut [u8], send: Send, count: u32) -> Result<Outcome, Refusal>
    ensures result_value { run_said result ≡ run_call bundle.now (length scratch.old) send.function (tuple_of send) count }
    ensures scratch_after { scratch.new ≡ scratch_after bundle.now scratch.old }
{
    let bundle = begin(bundle, scratch)?;
    run_in(&PreparedBundle { bundle, scratch }, send, count)
}
