// An answer as a number and eight values, for callers that have none of the enums: C, and programs that compare answers.
#![tactic(auto)]

ghost use Rattle.std.specs.Prelude.{◌≡◌, [], ◌∷◌, ◌++◌};
ghost use Rattle.answers.specs.Numbers.{code_of};
ghost use Rattle.answers.specs.Opening.{layout_number, layout_values, said};
ghost use Rattle.answers.specs.Send.{send_values};
ghost use Rattle.answers.specs.Failures.{failure_number, failure_methods};
ghost use Rattle.answers.specs.Refusals.{refusal_number, refusal_values};
ghost use Rattle.answers.specs.Findings.{coverage_said, finding_number, finding_values, verdict_said};
ghost use Rattle.subclasses.specs.Ancestry.{ancestry_of};
ghost use Rattle.machine.specs.Endings.{ending_of};
ghost use Rattle.machine.specs.Outcome.{outcome_of};
ghost use Rattle.questions.specs.Said.{ancestry_said, lookup_said, send_type_said};
ghost use Rattle.verdicts.specs.Said.{witness_said};
ghost use Rattle.runs.specs.Said.{run_said};
ghost use Rattle.sound_runs.specs.Accepted.{accepted_said, sound_outcome};
ghost use Rattle.chart_line.specs.Charted.{chart_said};
ghost use Rattle.upper_classes.specs.Answered.{rough_said};
ghost use Rattle.reply.specs.Replies.{numbered, reply, nothing, counts, ancestry_values, match_values, line_length, rough_values, ending_reply, with_steps, outcome_reply, run_reply, accepted_reply};

use answers::failure::Failure;
use answers::finding::{CoverageFinding, Finding};
use answers::number::Number;
use answers::opening::LayoutFinding;
use answers::refusal::Refusal;
use answers::send::Send;
use chart_line::line::ChartError;
use layout::bundle::Bundle;
use machine::ending::Ending;
use machine::run::Outcome;
use questions::ancestry::Ancestry;
use questions::lookup::{LookupError, Match};
use questions::send_type::SendTypeError;
use sound_runs::accepted::{AcceptedError, SoundEnd, SoundRun};
use upper_classes::answer::{Rough, RoughError};
use verdicts::witness::WitnessError;

// The number of an answer (M 11), 0 where nothing is refused, and what is named beside it.
#[derive(Clone, Copy)]
pub struct Reply {
    pub number: u8,
    pub values: [usize; 8],
}

// The value for how a class stands to another.
fn standing(ancestry: Ancestry) -> usize
    ensures { result ∷ [] ≡ ancestry_values (ancestry_of ancestry) }
{
    match ancestry {
        Ancestry::Same => 1,
        Ancestry::Heir => 2,
        Ancestry::Neither => 0,
    }
}

impl Reply {
    // A number with two values or fewer.
    pub fn pair(number: u8, v0: usize, v1: usize) -> Reply
        ensures { result ≡ numbered number (v0 ∷ v1 ∷ []) }
    {
        Reply {
            number,
            values: [v0, v1, 0, 0, 0, 0, 0, 0],
        }
    }

    // Nothing is refused, with two values or fewer.
    pub fn given(v0: usize, v1: usize) -> Reply
        ensures { result ≡ numbered 0 (v0 ∷ v1 ∷ []) }
    {
        Reply::pair(0, v0, v1)
    }

    // What is refused, with two values or fewer.
    pub fn refused(number: Number, v0: usize, v1: usize) -> Reply
        ensures { result ≡ numbered (code_of number) (v0 ∷ v1 ∷ []) }
    {
        Reply::pair(number.code(), v0, v1)
    }

    // A send that fails.
    fn of_send(send: Send, failure: Failure) -> Reply
        ensures { result ≡ numbered (failure_number failure) (send_values send ++ failure_methods failure) }
    {
        let tuple = send.tuple;
        let number = failure.number().code();
        let m = failure.first();
        let n = failure.second();
        Reply {
            number,
            values: [send.function, tuple.a0, tuple.a1, tuple.a2, m, n, 0, 0],
        }
    }

    // The same reply with the steps made as its last value.
    fn with_steps(self, steps: u32) -> Reply
        ensures { result ≡ with_steps self steps }
    {
        let mut values = self.values;
        values[7] = steps as usize;
        Reply {
            number: self.number,
            values,
        }
    }
}

// 1 to 9, from 4 on with the record.
impl From<LayoutFinding> for Reply {
    ghost from_gives = { λ found r. r ≡ numbered (layout_number found) (layout_values found) };

    fn from(found: LayoutFinding) -> Reply {
        Reply::refused(found.number(), found.record(), 0)
    }
}

// 1 to 9, 18, 19 and 20.
impl From<Refusal> for Reply {
    ghost from_gives = { λ refusal r. r ≡ numbered (refusal_number refusal) (refusal_values refusal) };

    fn from(refusal: Refusal) -> Reply {
        Reply::refused(refusal.number(), refusal.record(), 0)
    }
}

impl From<Result<Bundle, LayoutFinding>> for Reply {
    ghost from_gives = { λ opening r. r ≡ reply counts (said opening) };

    fn from(opening: Result<Bundle, LayoutFinding>) -> Reply {
        match opening {
            Ok(b) => Reply {
                number: 0,
                values: [b.classes, b.functions, b.signatures, b.methods, 0, 0, 0, 0],
            },
            Err(found) => Reply::from(found),
        }
    }
}

impl From<Result<Ancestry, Refusal>> for Reply {
    ghost from_gives = { λ answer r. r ≡ reply ancestry_values (ancestry_said answer) };

    fn from(answer: Result<Ancestry, Refusal>) -> Reply {
        match answer {
            Ok(ancestry) => Reply::given(standing(ancestry), 0),
            Err(refusal) => Reply::from(refusal),
        }
    }
}

impl From<Result<Match, LookupError>> for Reply {
    ghost from_gives = { λ answer r. r ≡ reply match_values (lookup_said answer) };

    fn from(answer: Result<Match, LookupError>) -> Reply {
        match answer {
            Ok(found) => Reply::given(found.method, usize::from(found.exact)),
            Err(LookupError::Fails(send, failed)) => Reply::of_send(send, Failure::Lookup(failed)),
            Err(LookupError::Refused(refusal)) => Reply::from(refusal),
        }
    }
}

impl From<Result<(), SendTypeError>> for Reply {
    ghost from_gives = { λ answer r. r ≡ reply nothing (send_type_said answer) };

    fn from(answer: Result<(), SendTypeError>) -> Reply {
        match answer {
            Ok(()) => Reply::given(0, 0),
            Err(SendTypeError::Unlicensed) => Reply::refused(Number::NoLicence, 0, 0),
            Err(SendTypeError::Refused(refusal)) => Reply::from(refusal),
        }
    }
}

impl From<Result<usize, ChartError>> for Reply {
    ghost from_gives = { λ answer r. r ≡ reply line_length (chart_said answer) };

    fn from(answer: Result<usize, ChartError>) -> Reply {
        match answer {
            Ok(n) => Reply::given(n, 0),
            Err(ChartError::Refused(refusal)) => Reply::from(refusal),
            Err(ChartError::NotBinary) => Reply::refused(Number::NotBinary, 0, 0),
            Err(ChartError::NoLine) => Reply::refused(Number::NoLine, 0, 0),
            Err(ChartError::Short) => Reply::refused(Number::ShortLine, 0, 0),
        }
    }
}

// The first value tells one method, which is the second, from a send that may fail and from several.
impl From<Result<Rough, RoughError>> for Reply {
    ghost from_gives = { λ answer r. r ≡ reply rough_values (rough_said answer) };

    fn from(answer: Result<Rough, RoughError>) -> Reply {
        match answer {
            Ok(Rough::One(m)) => Reply::given(0, m),
            Ok(Rough::MayFail) => Reply::given(1, 0),
            Ok(Rough::Several) => Reply::given(2, 0),
            Err(RoughError::NoConcrete) => Reply::refused(Number::NoConcrete, 0, 0),
            Err(RoughError::Refused(refusal)) => Reply::from(refusal),
        }
    }
}

// A broken tuple: the signature, its send, and the methods.
impl From<CoverageFinding> for Reply {
    ghost from_gives = { λ found r. r ≡ reply nothing (coverage_said found) };

    fn from(found: CoverageFinding) -> Reply {
        let send = found.send;
        let tuple = send.tuple;
        let failure = found.failure;
        let number = failure.number().code();
        let m = failure.first();
        let n = failure.second();
        Reply {
            number,
            values: [
                found.signature,
                send.function,
                tuple.a0,
                tuple.a1,
                tuple.a2,
                m,
                n,
                0,
            ],
        }
    }
}

impl From<Result<(), WitnessError>> for Reply {
    ghost from_gives = { λ answer r. r ≡ reply nothing (witness_said answer) };

    fn from(answer: Result<(), WitnessError>) -> Reply {
        match answer {
            Ok(()) => Reply::given(0, 0),
            Err(WitnessError::Fails(found)) => Reply::from(found),
            Err(WitnessError::Refused(refusal)) => Reply::from(refusal),
        }
    }
}

impl From<Finding> for Reply {
    ghost from_gives = { λ found r. r ≡ numbered (finding_number found) (finding_values found) };

    fn from(found: Finding) -> Reply {
        match found {
            Finding::Layout(broken) => Reply::from(broken),
            Finding::Scratch => Reply::refused(Number::ShortScratch, 0, 0),
            Finding::Coverage(broken) => Reply::from(broken),
            Finding::Body(broken) => {
                Reply::refused(broken.number, broken.method, broken.instruction)
            },
        }
    }
}

impl From<Result<(), Finding>> for Reply {
    ghost from_gives = { λ verdict r. r ≡ reply nothing (verdict_said verdict) };

    fn from(verdict: Result<(), Finding>) -> Reply {
        match verdict {
            Ok(()) => Reply::given(0, 0),
            Err(found) => Reply::from(found),
        }
    }
}

// An ending, without the steps.
impl From<Ending> for Reply {
    ghost from_gives = { λ ending r. r ≡ ending_reply (ending_of ending) };

    fn from(ending: Ending) -> Reply {
        match ending {
            Ending::Value(c) => Reply::given(0, c),
            Ending::Spent => Reply::given(1, 0),
            Ending::Deep => Reply::given(2, 0),
            Ending::Fails(send, failure) => Reply::of_send(send, failure),
            Ending::Stopped(number, m, at) => Reply::refused(number, m, at),
        }
    }
}

impl From<Outcome> for Reply {
    ghost from_gives = { λ outcome r. r ≡ outcome_reply (outcome_of outcome) };

    fn from(outcome: Outcome) -> Reply {
        let ending = outcome.ending;
        Reply::from(ending).with_steps(outcome.steps)
    }
}

impl From<Result<Outcome, Refusal>> for Reply {
    ghost from_gives = { λ answer r. r ≡ run_reply (run_said answer) };

    fn from(answer: Result<Outcome, Refusal>) -> Reply {
        match answer {
            Ok(outcome) => Reply::from(outcome),
            Err(refusal) => Reply::from(refusal),
        }
    }
}

impl From<SoundRun> for Reply {
    ghost from_gives = { λ run r. r ≡ outcome_reply (sound_outcome run) };

    fn from(run: SoundRun) -> Reply {
        let end = match run.end {
            SoundEnd::Value(c) => Reply::given(0, c),
            SoundEnd::Spent => Reply::given(1, 0),
            SoundEnd::Deep => Reply::given(2, 0),
        };
        end.with_steps(run.steps)
    }
}

impl From<Result<SoundRun, AcceptedError>> for Reply {
    ghost from_gives = { λ answer r. r ≡ accepted_reply (accepted_said answer) };

    fn from(answer: Result<SoundRun, AcceptedError>) -> Reply {
        match answer {
            Ok(run) => Reply::from(run),
            Err(AcceptedError::NotAccepted(found)) => Reply::from(found),
            Err(AcceptedError::NotCovered) => Reply::refused(Number::Absent, 1, 0),
            Err(AcceptedError::Refused(refusal)) => Reply::from(refusal),
        }
    }
}
