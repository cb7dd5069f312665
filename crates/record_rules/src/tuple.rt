// The places of a signature or a method (M 2.9): a class of the bundle at each that is used, 0 at the others.
ghost use Rattle.std.specs.Prelude.{◌≡◌, not, ◌+◌, ◌≤◌, length};
ghost use Rattle.rules.specs.Bytes.{part};
ghost use Rattle.rules.specs.Layout.{places, place_rule, tuple_rule};

use layout::bundle::Bundle;
use layout::bytes::byte_at;

// Whether a number keeps the rule of place i: it is a class where the place is used, one of the first n, and 0 elsewhere.
#[tactic(auto, unfolding(rules::specs::Layout::place_rule))]
pub fn fits(classes: usize, n: usize, i: usize, x: usize) -> bool
    ensures { result ≡ place_rule classes n i x }
{
    if i < n { x < classes } else { x == 0 }
}

// Whether one of the places from byte `at` on breaks the rule.
pub(crate) fn tuple_breaks(bytes: &[u8], at: usize, n: usize, classes: usize) -> bool
    requires { at + places ≤ length bytes.now }
    ensures { result ≡ not (tuple_rule classes n (part bytes.now at places)) }
{
    for i in 0..Bundle::PLACES {
        if !fits(classes, n, i, byte_at(bytes, at + i)) {
            return true;
        }
    }
    false
}
