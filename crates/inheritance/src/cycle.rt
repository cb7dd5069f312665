// The lowest class that lies on a cycle, if there is one. Where the classes have an order with parents first there is none, and nothing more is computed.
ghost use Rattle.std.specs.Prelude.{◌≡◌};
ghost use Rattle.rules.specs.Layout.{class_count, lowest};
ghost use Rattle.rules.specs.Cycles.{cycle_rule};
ghost use Rattle.inheritance.specs.Found.{found};

use crate::closure::closure;
use crate::order::class_order;
use layout::open::ListedBundle;

// The first class that is among those that it inherits from.
fn lowest_by_closure(bundle: &ListedBundle<'_>) -> Option<usize>
    ensures { found result ≡ lowest (cycle_rule bundle.now.bytes.now) (class_count bundle.now.bytes.now) }
{
    let rows = closure(bundle);
    for c in 0..bundle.tables.classes {
        if rows[c].has(c) {
            return Some(c);
        }
    }
    None
}

pub fn lowest_on_cycle(bundle: &ListedBundle<'_>) -> Option<usize>
    ensures { found result ≡ lowest (cycle_rule bundle.now.bytes.now) (class_count bundle.now.bytes.now) }
{
    if class_order(bundle).is_some() {
        return None;
    }
    lowest_by_closure(bundle)
}
