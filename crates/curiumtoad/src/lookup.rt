// Lookup: which method a send finds, and whether it is exact.
ghost use Rattle.std.specs.Prelude.{◌≡◌, length};
ghost use Rattle.rules.specs.Calls.{lookup_call, scratch_after};
ghost use Rattle.answers.specs.Send.{tuple_of};
ghost use Rattle.questions.specs.Said.{lookup_said};

use answers::send::Send;
use preparation::begin::begin;
use questions::lookup::lookup_in;
pub use questions::lookup::{LookupError, Match};
use subclasses::prepared::PreparedBundle;

// What a send of the function with these classes, abstract ones too, finds.
pub fn lookup(bundle: &[u8], scratch: &mut [u8], send: Send) -> Result<Match, LookupError>
    ensures result_value { lookup_said result ≡ lookup_call bundle.now (length scratch.old) send.function (tuple_of send) }
    ensures scratch_after { scratch.new ≡ scratch_after bundle.now scratch.old }
{
    let bundle = begin(bundle, scratch)?;
    lookup_in(&PreparedBundle { bundle, scratch }, send)
}
