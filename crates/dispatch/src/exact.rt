// Whether a method is written for exactly the classes of a send.
ghost use Rattle.std.specs.Prelude.{◌≡◌, length};
ghost use Rattle.rules.specs.Lookup.{exact};
ghost use Rattle.layout.specs.Arity.{OfArity};
ghost use Rattle.layout.specs.Bundles.{model};

use layout::open::OpenBundle;
use layout::tuple::each_same;

// Whether the specialisers of method m are the argument classes, place by place.
pub fn is_exact(bundle: &OpenBundle<'_>, args: &[u8], m: usize) -> bool
    requires of_arity { OfArity (model bundle.now) (length args.now) m }
    ensures { result ≡ exact (model bundle.now) args.now m }
{
    each_same(args, bundle.specialisers(args.len(), m))
}
