// The concrete classes of a bundle.
ghost use Rattle.std.specs.Prelude.{◌≡◌};
ghost use Rattle.rules.specs.Chart.{concretes};
ghost use Rattle.layout.specs.Bundles.{model};

use arrayvec::ArrayVec;
use layout::bundle::Bundle;
use layout::open::OpenBundle;

// The concrete classes, in number order.
pub(crate) fn concrete_classes(bundle: &OpenBundle<'_>) -> ArrayVec<u8, { Bundle::CLASSES }>
    ensures { result.items ≡ concretes (model bundle.now) }
{
    let mut classes = ArrayVec::new();
    for k in 0..bundle.tables.classes {
        if bundle.is_concrete(k) {
            classes.push(k as u8);
        }
    }
    classes
}
