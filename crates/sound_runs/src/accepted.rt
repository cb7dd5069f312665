// The check, then the cover of the send, and only then the run.
ghost use Rattle.std.specs.Prelude.{◌≡◌, true};
ghost use Rattle.rules.specs.Bounded.{every};
ghost use Rattle.rules.specs.Layout.{gives};
ghost use Rattle.rules.specs.Coverage.{concrete_class, verdict, is_covered};
ghost use Rattle.rules.specs.Machine.{run};
ghost use Rattle.rules.specs.Accepted.{accepted_in};
ghost use Rattle.answers.specs.Send.{tuple_of};
ghost use Rattle.layout.specs.Bundles.{model};
ghost use Rattle.subclasses.specs.Places.{Arguments};
ghost use Rattle.machine.specs.Outcome.{outcome_of};
ghost use Rattle.sound_runs.specs.declared.accepted.AcceptedError.TheVariants.{NotAccepted, Refused};
ghost use Rattle.sound_runs.specs.Accepted.{sound_outcome, accepted_said, Unstopped};

use answers::finding::Finding;
use answers::refusal::Refusal;
use answers::send::Send;
use machine::ending::Ending;
use machine::run::{Outcome, run};
use sends::covered::is_covered;
use sends::send::concrete_classes_of;
use subclasses::prepared::PreparedBundle;
use verdicts::check::check_in;

// How a run ends that no number stops.
#[derive(Clone, Copy)]
pub enum SoundEnd {
    Value(usize),
    Spent,
    Deep,
}

// The end, with the steps made.
#[derive(Clone, Copy)]
pub struct SoundRun {
    pub end: SoundEnd,
    pub steps: u32,
}

// The finding of a check that did not accept; an opening send that no signature covers; or a refusal of the call itself.
#[derive(Clone, Copy)]
pub enum AcceptedError {
    NotAccepted(Finding),
    NotCovered,
    Refused(Refusal),
}

impl From<Finding> for AcceptedError {
    ghost from_gives = { λ finding e. e ≡ NotAccepted finding };

    fn from(finding: Finding) -> AcceptedError {
        AcceptedError::NotAccepted(finding)
    }
}

impl From<Refusal> for AcceptedError {
    ghost from_gives = { λ refusal e. e ≡ Refused refusal };

    fn from(refusal: Refusal) -> AcceptedError {
        AcceptedError::Refused(refusal)
    }
}

// The run, where no number stopped it.
fn sound_end(outcome: Outcome) -> SoundRun
    requires { Unstopped outcome.ending }
    ensures { sound_outcome result ≡ outcome_of outcome }
{
    let end = match outcome.ending {
        Ending::Value(c) => SoundEnd::Value(c),
        Ending::Spent => SoundEnd::Spent,
        Ending::Deep => SoundEnd::Deep,
        Ending::Fails(_, _) | Ending::Stopped(_, _, _) => unreachable!(),
    };
    SoundRun {
        end,
        steps: outcome.steps,
    }
}

// The run of a send that some signature covers, of an accepted bundle.
fn sound_run(prepared: &PreparedBundle<'_>, function: usize, args: &[u8], count: u32) -> SoundRun
    requires arguments { Arguments (model prepared.now.bundle) function args.now }
    requires args_concrete { every (concrete_class (model prepared.now.bundle)) args.now ≡ true }
    requires accepted { verdict (model prepared.now.bundle) ≡ gives tt }
    requires covered { is_covered (model prepared.now.bundle) function args.now ≡ true }
    ensures { sound_outcome result ≡ (run (model prepared.now.bundle) function args.now count).outcome }
{
    sound_end(run(prepared, function, args, count))
}

// Runs the send if the bundle is accepted and some signature covers the send.
pub fn accepted_in(
    prepared: &PreparedBundle<'_>,
    send: Send,
    count: u32,
) -> Result<SoundRun, AcceptedError>
    ensures { accepted_said result ≡ accepted_in send.function (tuple_of send) count (model prepared.now.bundle) }
{
    let args = concrete_classes_of(&prepared.bundle, send).ok_or(Refusal::Absent)?;
    check_in(prepared)?;
    let classes = args.as_slice();
    if !is_covered(prepared, send.function, classes) {
        return Err(AcceptedError::NotCovered);
    }
    Ok(sound_run(prepared, send.function, classes, count))
}
