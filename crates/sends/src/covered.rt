// Whether signatures cover a send.
ghost use Rattle.std.specs.Prelude.{◌≡◌, ◌<◌};
ghost use Rattle.rules.specs.Coverage.{covers, covers_send, is_covered};
ghost use Rattle.layout.specs.Bundles.{model};
ghost use Rattle.subclasses.specs.Places.{Arguments};

use subclasses::prepared::PreparedBundle;

// Whether the signature covers argument classes of its function.
#[tactic(auto, unfolding(rules::specs::Coverage::covers))]
pub fn covers(prepared: &PreparedBundle<'_>, signature: usize, args: &[u8]) -> bool
    requires signature_lt_signatures { signature < prepared.now.bundle.tables.signatures }
    requires arguments { Arguments (model prepared.now.bundle) ((model prepared.now.bundle).sig_function signature) args.now }
    ensures { result ≡ covers (model prepared.now.bundle) signature args.now }
{
    prepared.each_under(
        args,
        prepared.bundle.signature_classes(args.len(), signature),
    )
}

// Whether signature s is one of function f and covers its argument classes.
#[tactic(auto, unfolding(rules::specs::Coverage::covers_send))]
fn covers_send(prepared: &PreparedBundle<'_>, f: usize, args: &[u8], s: usize) -> bool
    requires arguments { Arguments (model prepared.now.bundle) f args.now }
    requires s_lt_signatures { s < prepared.now.bundle.tables.signatures }
    ensures { result ≡ covers_send (model prepared.now.bundle) f args.now s }
{
    prepared.bundle.sig_function(s) == f && covers(prepared, s, args)
}

// Whether some signature of function f covers its argument classes.
pub fn is_covered(prepared: &PreparedBundle<'_>, f: usize, args: &[u8]) -> bool
    requires { Arguments (model prepared.now.bundle) f args.now }
    ensures { result ≡ is_covered (model prepared.now.bundle) f args.now }
{
    for s in 0..prepared.bundle.tables.signatures {
        if covers_send(prepared, f, args, s) {
            return true;
        }
    }
    false
}
