// The run of a send.
ghost use Rattle.std.specs.Prelude.{◌≡◌};
ghost use Rattle.rules.specs.Calls.{run_in};
ghost use Rattle.layout.specs.Bundles.{model};
ghost use Rattle.answers.specs.Send.{tuple_of};
ghost use Rattle.runs.specs.Said.{run_said};

use answers::refusal::Refusal;
use answers::send::Send;
use machine::run::{Outcome, run};
use sends::send::concrete_classes_of;
use subclasses::prepared::PreparedBundle;

// A run of a send with concrete classes, of no more steps than the count: how it ended, with the steps made.
pub fn run_in(prepared: &PreparedBundle<'_>, send: Send, count: u32) -> Result<Outcome, Refusal>
    ensures { run_said result ≡ run_in send.function (tuple_of send) count (model prepared.now.bundle) }
{
    let args = concrete_classes_of(&prepared.bundle, send).ok_or(Refusal::Absent)?;
    Ok(run(prepared, send.function, args.as_slice(), count))
}
