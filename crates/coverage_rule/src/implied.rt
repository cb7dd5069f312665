// Signatures that an earlier one implies: they need no search.
ghost use Rattle.std.specs.Prelude.{◌≡◌, ◌<◌};
ghost use Rattle.rules.specs.Alike.{implies};
ghost use Rattle.layout.specs.Bundles.{model};
ghost use Rattle.coverage_rule.specs.Implied.{implied};

use subclasses::prepared::PreparedBundle;

// Whether signature e implies signature s: it is of the same function, covers what s covers, and has a result class under that of s.
fn implies(prepared: &PreparedBundle<'_>, e: usize, s: usize) -> bool
    requires e_lt_signatures { e < prepared.now.bundle.tables.signatures }
    requires s_lt_signatures { s < prepared.now.bundle.tables.signatures }
    ensures { result ≡ implies (model prepared.now.bundle) e s }
{
    let bundle = &prepared.bundle;
    let f = bundle.sig_function(s);
    if bundle.sig_function(e) != f {
        return false;
    }
    let n = bundle.arity(f);
    let own = bundle.signature_classes(n, s);
    let above = bundle.signature_classes(n, e);
    if !prepared.each_under(own, above) {
        return false;
    }
    let lower = bundle.sig_result(e);
    let upper = bundle.sig_result(s);
    prepared.is_under(lower, upper)
}

// Whether an earlier signature implies signature s.
pub fn implied(prepared: &PreparedBundle<'_>, s: usize) -> bool
    requires { s < prepared.now.bundle.tables.signatures }
    ensures { result ≡ implied (model prepared.now.bundle) s }
{
    for e in 0..s {
        if implies(prepared, e, s) {
            return true;
        }
    }
    false
}
