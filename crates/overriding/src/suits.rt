// Whether the arguments of a method suit the target of a resend in it, by their static types.
ghost use Rattle.std.specs.Prelude.{◌≡◌, ◌<◌};
ghost use Rattle.rules.specs.Layout.{places};
ghost use Rattle.rules.specs.Types.{in_type, arg_type, suits};
ghost use Rattle.layout.specs.Arity.{OfArity};
ghost use Rattle.layout.specs.Bundles.{model};

use subclasses::prepared::PreparedBundle;

// Whether class c is in the type of argument `place` of method m: the specialiser or the declared class is under it.
fn in_arg_type(prepared: &PreparedBundle<'_>, m: usize, place: usize, c: usize) -> bool
    requires m_lt_methods { m < prepared.now.bundle.tables.methods }
    requires place_lt_places { place < places }
    requires c_lt_classes { c < prepared.now.bundle.tables.classes }
    ensures { let M = model prepared.now.bundle in result ≡ in_type M (arg_type M m place) c }
{
    let bundle = &prepared.bundle;
    let special_class = bundle.specialiser(m, place);
    let declared_class = bundle.declared(m, place);
    prepared.is_under(special_class, c) || prepared.is_under(declared_class, c)
}

// Whether the n arguments of method m suit the target, which has as many: each class that it declares is in the type of the argument there.
pub fn suits(prepared: &PreparedBundle<'_>, n: usize, m: usize, target: usize) -> bool
    requires of_arity { OfArity (model prepared.now.bundle) n m }
    requires of_arity_2 { OfArity (model prepared.now.bundle) n target }
    ensures { result ≡ suits (model prepared.now.bundle) m target }
{
    for i in 0..n {
        let c = prepared.bundle.declared(target, i);
        if !in_arg_type(prepared, m, i, c) {
            return false;
        }
    }
    true
}
