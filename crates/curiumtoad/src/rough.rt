// What a send finds where only an upper class is known for each argument.
ghost use Rattle.std.specs.Prelude.{◌≡◌, length};
ghost use Rattle.rules.specs.Calls.{scratch_after};
ghost use Rattle.rules.specs.Rough.{rough_call};
ghost use Rattle.answers.specs.Send.{tuple_of};
ghost use Rattle.upper_classes.specs.Answered.{rough_said};

use answers::send::Send;
use preparation::begin::begin;
use subclasses::prepared::PreparedBundle;
use upper_classes::answer::rough_in;
pub use upper_classes::answer::{Rough, RoughError};

// What the tuples of concrete classes below those of the send, abstract ones too, find: one method, several, or for some tuple none or two.
pub fn rough(bundle: &[u8], scratch: &mut [u8], send: Send) -> Result<Rough, RoughError>
    ensures result_value { rough_said result ≡ rough_call bundle.now (length scratch.old) send.function (tuple_of send) }
    ensures scratch_after { scratch.new ≡ scratch_after bundle.now scratch.old }
{
    let bundle = begin(bundle, scratch)?;
    rough_in(&PreparedBundle { bundle, scratch }, send)
}
