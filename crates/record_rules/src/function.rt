// The rule of a function record.
ghost use Rattle.std.specs.Prelude.{◌≡◌, not, ◌<◌};
ghost use Rattle.rules.specs.Layout.{function_rule};

use layout::bundle::Bundle;
use layout::open::Records;

// Whether function f has more arguments than there are places.
#[tactic(auto, unfolding(rules::specs::Layout::function_rule))]
pub fn function_breaks(records: &Records<'_>, f: usize) -> bool
    requires f_lt_functions { f < records.now.tables.functions }
    ensures { result ≡ not (function_rule records.now.bytes.now f) }
{
    Bundle::PLACES < records.arity(f)
}
