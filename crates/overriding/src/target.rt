// The target of a resend: the method that leads those which a method overrides.
ghost use Rattle.std.specs.Prelude.{◌≡◌, ◌<◌};
ghost use Rattle.rules.specs.Resend.{resend_target};
ghost use Rattle.layout.specs.Bundles.{model};
ghost use Rattle.dispatch.specs.Found.{found_of};

use answers::failure::NotFound;
use dispatch::index::IndexedBundle;

// The target of a resend in method m: the methods that m overrides are those that apply to its own specialisers, but itself.
pub fn resend_target(indexed: &IndexedBundle<'_>, m: usize) -> Result<usize, NotFound>
    requires { m < indexed.now.prepared.bundle.tables.methods }
    ensures { found_of result ≡ resend_target (model indexed.now.prepared.bundle) m }
{
    let bundle = &indexed.prepared.bundle;
    let f = bundle.function(m);
    let n = bundle.arity(f);
    indexed.find(f, bundle.specialisers(n, m), Some(m))
}
