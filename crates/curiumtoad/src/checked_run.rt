// The check and the run of one send, together: the checker that accepted a bundle and the stepper that runs it judge every send alike.
ghost use Rattle.std.specs.Prelude.{◌≡◌, length};
ghost use Rattle.rules.specs.Calls.{check_call, run_call, scratch_after};
ghost use Rattle.answers.specs.Send.{tuple_of};
ghost use Rattle.answers.specs.Findings.{verdict_said};
ghost use Rattle.runs.specs.Said.{run_said};
ghost use Rattle.curiumtoad.specs.Alike.{JudgedAlike};

use crate::check::early;
use answers::finding::Finding;
use answers::refusal::Refusal;
use answers::send::Send;
use machine::run::Outcome;
use preparation::begin::begin;
use runs::run::run_in;
use subclasses::prepared::PreparedBundle;
use verdicts::check::check_in;

// Both answers.
#[derive(Clone, Copy)]
pub struct CheckedRun {
    pub verdict: Result<(), Finding>,
    pub outcome: Result<Outcome, Refusal>,
}

// Checks the bundle and runs the send.
pub fn checked_run(bundle: &[u8], scratch: &mut [u8], send: Send, count: u32) -> CheckedRun
    ensures verdict_value { verdict_said result.verdict ≡ check_call bundle.now (length scratch.old) }
    ensures outcome_value { run_said result.outcome ≡ run_call bundle.now (length scratch.old) send.function (tuple_of send) count }
    ensures judged_alike { JudgedAlike bundle.now send.function (tuple_of send) count result.verdict result.outcome }
    ensures scratch_after { scratch.new ≡ scratch_after bundle.now scratch.old }
{
    match begin(bundle, scratch) {
        Ok(bundle) => {
            let prepared = PreparedBundle { bundle, scratch };
            CheckedRun {
                verdict: check_in(&prepared),
                outcome: run_in(&prepared, send, count),
            }
        }
        Err(refusal) => CheckedRun {
            verdict: Err(early(refusal)),
            outcome: Err(refusal),
        },
    }
}
