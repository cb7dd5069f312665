// Where a method's code lies. A pointer into the bundle is the caller's to make, so the body view crosses as an offset and a length.
ghost use Rattle.std.specs.Prelude.{◌≡◌};
ghost use Rattle.rules.specs.Calls.{body_view_call};
ghost use Rattle.reply.specs.Replies.{reply};
ghost use Rattle.curiumtoad_c.specs.Exported.{placed};

use answers::number::Number;
use bundle_rules::opening::open;
use reply::Reply;

pub(crate) fn body_place(bundle: &[u8], method: usize) -> Reply
    ensures { result ≡ reply (placed bundle.now method) (body_view_call bundle.now method) }
{
    match open(bundle) {
        Err(found) => Reply::from(found),
        Ok(bundle) => {
            if bundle.tables.methods <= method {
                Reply::refused(Number::Absent, 0, 0)
            } else {
                let span = bundle.body_span(method);
                Reply::given(span.at, span.len)
            }
        }
    }
}
