// Lookup: which method a send finds, and whether it is exact.
ghost use Rattle.std.specs.Prelude.{◌≡◌};
ghost use Rattle.rules.specs.Calls.{lookup_in};
ghost use Rattle.layout.specs.Bundles.{model};
ghost use Rattle.answers.specs.Send.{tuple_of};
ghost use Rattle.questions.specs.declared.lookup.LookupError.TheVariants.{Refused};
ghost use Rattle.questions.specs.Said.{lookup_said};

use answers::failure::NotFound;
use answers::refusal::Refusal;
use answers::send::Send;
use dispatch::exact::is_exact;
use dispatch::index::IndexedBundle;
use sends::send::classes_of;
use subclasses::prepared::PreparedBundle;

// The method found, and whether its specialisers are the arguments.
#[derive(Clone, Copy)]
pub struct Match {
    pub method: usize,
    pub exact: bool,
}

// Why the send finds no method, or a refusal.
#[derive(Clone, Copy)]
pub enum LookupError {
    Fails(Send, NotFound),
    Refused(Refusal),
}

impl From<Refusal> for LookupError {
    ghost from_gives = { λ refusal e. e ≡ Refused refusal };

    fn from(refusal: Refusal) -> LookupError {
        LookupError::Refused(refusal)
    }
}

// What a send, of abstract classes too, finds.
pub fn lookup_in(prepared: &PreparedBundle<'_>, send: Send) -> Result<Match, LookupError>
    ensures { lookup_said result ≡ lookup_in send.function (tuple_of send) (model prepared.now.bundle) }
{
    let bundle = &prepared.bundle;
    let args = classes_of(bundle, send).ok_or(Refusal::Absent)?;
    let indexed = IndexedBundle::new(prepared);
    match indexed.lookup(send.function, args.as_slice()) {
        Ok(method) => {
            let exact = is_exact(bundle, args.as_slice(), method);
            Ok(Match { method, exact })
        }
        Err(failed) => Err(LookupError::Fails(send, failed)),
    }
}
