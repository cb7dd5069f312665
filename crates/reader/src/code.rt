// The code of a method: the part of the bundle that is its body.
ghost use Rattle.std.specs.Prelude.{◌≡◌, ◌+◌, ◌<◌};
ghost use Rattle.rules.specs.Layout.{code_at, code_of};

use layout::open::OpenBundle;

// Two methods may have equal code, so the contract gives the part's place in the bundle beside its contents.
pub fn code_of<'a>(bundle: &OpenBundle<'a>, method: usize) -> &'a [u8]
    requires { method < bundle.now.tables.methods }
    ensures ref_ptr_value { result.ref_ptr ≡ (bundle.now.bytes.ref_ptr.0, code_at bundle.now.bytes.now method + bundle.now.bytes.ref_ptr.1) }
    ensures result_value { result.now ≡ code_of bundle.now.bytes.now method }
{
    let span = bundle.body_span(method);
    let end = span.at + span.len;
    &bundle.bytes[span.at..end]
}
