// The send type call.
ghost use Rattle.std.specs.Prelude.{◌≡◌, length};
ghost use Rattle.rules.specs.Calls.{send_type_call, scratch_after, row_after};
ghost use Rattle.answers.specs.Send.{tuple_of};
ghost use Rattle.questions.specs.Said.{blank, send_type_said};

use answers::send::Send;
use preparation::begin::begin;
pub use questions::send_type::SendTypeError;
use questions::send_type::send_type_in;
use subclasses::prepared::PreparedBundle;

// The static type of a send of the function with arguments of these classes, abstract ones too, into the lent row.
pub fn send_type(
    bundle: &[u8],
    scratch: &mut [u8],
    row: &mut [u8],
    send: Send,
) -> Result<(), SendTypeError>
    ensures result_value { send_type_said result ≡ blank (send_type_call bundle.now (length scratch.old) (length row.old) send.function (tuple_of send)) }
    ensures scratch_after { scratch.new ≡ scratch_after bundle.now scratch.old }
    ensures row_after { row.new ≡ row_after bundle.now (length scratch.old) row.old send.function (tuple_of send) }
{
    let bundle = begin(bundle, scratch)?;
    send_type_in(&PreparedBundle { bundle, scratch }, row, send)
}
