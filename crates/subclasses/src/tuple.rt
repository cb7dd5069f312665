// Tuples of classes, a byte for each.
ghost use Rattle.std.specs.Prelude.{◌≡◌, ◌≤◌, length};
ghost use Rattle.rules.specs.Layout.{places, padded};

use layout::bundle::Bundle;

// Classes as a tuple, its unused places 0.
pub fn padded_tuple(args: &[u8]) -> [u8; Bundle::PLACES]
    requires { length args.now ≤ places }
    ensures { result ≡ padded args.now }
{
    let mut tuple = [0u8; Bundle::PLACES];
    tuple[..args.len()].copy_from_slice(args);
    tuple
}
