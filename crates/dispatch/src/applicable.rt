// The methods that apply to a send, but one.
ghost use Rattle.std.specs.Prelude.{◌≡◌, [], true, ◌&&◌, length};
ghost use Rattle.rules.specs.Model.{present};
ghost use Rattle.rules.specs.Lookup.{applies};
ghost use Rattle.layout.specs.Arity.{OfArity};
ghost use Rattle.layout.specs.Bundles.{model};
ghost use Rattle.subclasses.specs.Places.{Arguments};
ghost use Rattle.dispatch.specs.Listed.{other_than, applicable_without};

use crate::index::IndexedBundle;
use arrayvec::ArrayVec;
use layout::bundle::Bundle;
use subclasses::prepared::PreparedBundle;

// Whether method m applies to the arguments, each class being under the specialiser at its place, and is another than `but`. Few apply, so that is asked last.
fn applies(prepared: &PreparedBundle<'_>, args: &[u8], but: Option<usize>, m: usize) -> bool
    requires of_arity { OfArity (model prepared.now.bundle) (length args.now) m }
    requires args_value { present (model prepared.now.bundle) args.now ≡ true }
    ensures { result ≡ (applies (model prepared.now.bundle) args.now m && other_than but m) }
{
    prepared.each_under(args, prepared.bundle.specialisers(args.len(), m)) && Some(m) != but
}

// Puts the methods of function f that apply to the arguments, without `but`, into an empty list, rising. The index leads to those of the function alone. The list is
// lent, since one that is handed out would be copied at each lookup.
pub(crate) fn applicable(
    indexed: &IndexedBundle<'_>,
    f: usize,
    args: &[u8],
    but: Option<usize>,
    list: &mut ArrayVec<u16, { Bundle::METHODS }>,
)
    requires arguments { Arguments (model indexed.now.prepared.bundle) f args.now }
    requires empty { list.old.items ≡ [] }
    ensures { list.new.items ≡ applicable_without (model indexed.now.prepared.bundle) f args.now but }
{
    let mut next = indexed.first[f];
    // A `while`: each method leads to the next one of its function.
    while let Some(m) = next {
        let k = usize::from(m);
        if applies(&indexed.prepared, args, but, k) {
            list.push(m);
        }
        next = indexed.next[k];
    }
}
