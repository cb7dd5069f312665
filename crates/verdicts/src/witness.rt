// The witness check: the coverage rule for one signature and one tuple.
ghost use Rattle.std.specs.Prelude.{◌≡◌, ◌&&◌, ◌<◌};
ghost use Rattle.rules.specs.Bounded.{every};
ghost use Rattle.rules.specs.Coverage.{covers, concrete_class};
ghost use Rattle.rules.specs.Calls.{witness_in};
ghost use Rattle.layout.specs.Bundles.{model};
ghost use Rattle.subclasses.specs.Places.{Arguments};
ghost use Rattle.answers.specs.Send.{classes_of, tuple_of};
ghost use Rattle.verdicts.specs.declared.witness.WitnessError.TheVariants.{Refused};
ghost use Rattle.verdicts.specs.Said.{witness_said};

use answers::finding::CoverageFinding;
use answers::refusal::Refusal;
use answers::send::{Send, Tuple};
use coverage_rule::judge::judge;
use sends::covered::covers;
use sends::send::{all_concrete, classes_of};
use subclasses::prepared::PreparedBundle;

// The rule fails, by 10 to 13; or a refusal.
#[derive(Clone, Copy)]
pub enum WitnessError {
    Fails(CoverageFinding),
    Refused(Refusal),
}

impl From<Refusal> for WitnessError {
    ghost from_gives = { λ refusal e. e ≡ Refused refusal };

    fn from(refusal: Refusal) -> WitnessError {
        WitnessError::Refused(refusal)
    }
}

// Whether argument classes of the signature's function are concrete, and the signature covers them.
fn is_witness(prepared: &PreparedBundle<'_>, signature: usize, args: &[u8]) -> bool
    requires signature_lt_signatures { signature < prepared.now.bundle.tables.signatures }
    requires arguments { let M = model prepared.now.bundle in Arguments M (M.sig_function signature) args.now }
    ensures { let M = model prepared.now.bundle in result ≡ (every (concrete_class M) args.now && covers M signature args.now) }
{
    all_concrete(&prepared.bundle, args) && covers(prepared, signature, args)
}

// The rule's answer for a signature that is there and a send of its function.
fn witness_send(
    prepared: &PreparedBundle<'_>,
    signature: usize,
    send: Send,
) -> Result<(), WitnessError>
    requires signature_lt_signatures { signature < prepared.now.bundle.tables.signatures }
    requires function_value { send.function ≡ (model prepared.now.bundle).sig_function signature }
    ensures { witness_said result ≡ witness_in signature (tuple_of send) (model prepared.now.bundle) }
{
    let args = classes_of(&prepared.bundle, send).ok_or(Refusal::Absent)?;
    let classes = args.as_slice();
    if !is_witness(prepared, signature, classes) {
        return Err(WitnessError::Refused(Refusal::Absent));
    }
    match judge(prepared, signature, classes) {
        Ok(_) => Ok(()),
        Err(failure) => {
            let found = CoverageFinding {
                signature,
                send,
                failure,
            };
            Err(WitnessError::Fails(found))
        }
    }
}

// The coverage rule's answer for a signature and a tuple of concrete classes that it covers.
pub fn witness_in(
    prepared: &PreparedBundle<'_>,
    signature: usize,
    tuple: Tuple,
) -> Result<(), WitnessError>
    ensures { witness_said result ≡ witness_in signature (classes_of tuple) (model prepared.now.bundle) }
{
    let bundle = &prepared.bundle;
    if bundle.tables.signatures <= signature {
        return Err(WitnessError::Refused(Refusal::Absent));
    }
    let function = bundle.sig_function(signature);
    let send = Send { function, tuple };
    witness_send(prepared, signature, send)
}
