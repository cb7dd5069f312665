// The static type of a send.
ghost use Rattle.std.specs.Prelude.{◌≡◌, length};
ghost use Rattle.rules.specs.Calls.{send_type_in, row_on};
ghost use Rattle.layout.specs.Bundles.{model};
ghost use Rattle.answers.specs.Send.{tuple_of};
ghost use Rattle.questions.specs.declared.send_type.SendTypeError.TheVariants.{Refused};
ghost use Rattle.questions.specs.Said.{blank, send_type_said};

use answers::refusal::Refusal;
use answers::send::Send;
use sends::send::classes_of;
use subclasses::prepared::PreparedBundle;
use typing::row::ROW_BYTES;
use typing::send::send_type;

// 16, no signature licenses the send; or a refusal.
#[derive(Clone, Copy)]
pub enum SendTypeError {
    Unlicensed,
    Refused(Refusal),
}

impl From<Refusal> for SendTypeError {
    ghost from_gives = { λ refusal e. e ≡ Refused refusal };

    fn from(refusal: Refusal) -> SendTypeError {
        SendTypeError::Refused(refusal)
    }
}

// The static type of a send with arguments of these classes, abstract ones too, into the lent row.
pub fn send_type_in(
    prepared: &PreparedBundle<'_>,
    row: &mut [u8],
    send: Send,
) -> Result<(), SendTypeError>
    ensures result_value { send_type_said result ≡ blank (send_type_in (length row.old) send.function (tuple_of send) (model prepared.now.bundle)) }
    ensures row_after { let M = model prepared.now.bundle in row.new ≡ row_on (send_type_in (length row.old) send.function (tuple_of send) M) M row.old }
{
    if row.len() < ROW_BYTES {
        return Err(SendTypeError::Refused(Refusal::Row));
    }
    let args = classes_of(&prepared.bundle, send).ok_or(Refusal::Absent)?;
    if send_type(prepared, send.function, args.as_slice(), row) {
        Ok(())
    } else {
        Err(SendTypeError::Unlicensed)
    }
}
