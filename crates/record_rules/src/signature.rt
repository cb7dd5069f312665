// The rule of a signature record.
ghost use Rattle.std.specs.Prelude.{◌≡◌, not, ◌<◌};
ghost use Rattle.rules.specs.Layout.{signature_rule};

use crate::tuple::tuple_breaks;
use layout::open::Records;

// Whether signature s names an absent function or class, or an unused place of it is not 0.
#[tactic(auto, unfolding(rules::specs::Layout::signature_rule, rules::specs::Layout::sig_tuple_of))]
pub fn signature_breaks(records: &Records<'_>, s: usize) -> bool
    requires s_lt_signatures { s < records.now.tables.signatures }
    ensures { result ≡ not (signature_rule records.now.bytes.now s) }
{
    let f = records.sig_function(s);
    if records.tables.functions <= f {
        return true;
    }
    let n = records.arity(f);
    let classes = records.tables.classes;
    tuple_breaks(records.bytes, records.sig_tuple_at(s), n, classes)
        || classes <= records.sig_result(s)
}
