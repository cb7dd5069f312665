// The rules of the bundle's size and its counts.
ghost use Rattle.std.specs.Prelude.{◌≡◌};
ghost use Rattle.rules.specs.Layout.{size_rule, limit_rule};
ghost use Rattle.layout.specs.Tables.{Tables};

use layout::bundle::Bundle;

// Number 1: the length of the bundle.
#[tactic(auto, unfolding(rules::specs::Layout::size_rule))]
pub fn size_holds(bytes: &[u8]) -> bool
    ensures { result ≡ size_rule bytes.now }
{
    24 <= bytes.len() && bytes.len() <= 65535
}

// Number 3: whether no count passes its limit, and there is a class.
#[tactic(auto, unfolding(rules::specs::Layout::limit_rule))]
pub fn within_limits(bytes: &[u8], b: Bundle) -> bool
    requires { Tables bytes.now b }
    ensures { result ≡ limit_rule bytes.now }
{
    0 < b.classes
        && b.classes <= Bundle::CLASSES
        && b.functions <= Bundle::FUNCTIONS
        && b.signatures <= Bundle::SIGNATURES
        && b.methods <= Bundle::METHODS
}
