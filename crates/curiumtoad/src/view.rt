// The body view: the part of the bundle that is a method's code.
ghost use Rattle.std.specs.Prelude.{◌≡◌, ◌+◌, IfOk};
ghost use Rattle.rules.specs.Calls.{body_view_call, body_view_start};
ghost use Rattle.curiumtoad.specs.View.{view_said};

use answers::refusal::Refusal;
use bundle_rules::opening::open;
use reader::code::code_of;

// The code of a method. Two methods may have equal code, so the contract gives the part's place in the bundle beside its contents.
pub fn body_view(bundle: &[u8], method: usize) -> Result<&[u8], Refusal>
    ensures result_value { view_said result ≡ body_view_call bundle.now method }
    ensures place { IfOk result (λ part. part.ref_ptr ≡ (bundle.entry.ref_ptr.0, body_view_start bundle.now method + bundle.entry.ref_ptr.1)) }
{
    let bundle = open(bundle)?;
    if bundle.tables.methods <= method {
        return Err(Refusal::Absent);
    }
    Ok(code_of(&bundle, method))
}
