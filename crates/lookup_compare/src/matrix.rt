// What a call leaves in the scratch.
ghost use Rattle.std.specs.Prelude.{◌<◌};

use crate::ancestry::{CLASSES, ROW, all_above};
use crate::made::put;
use crate::record::class_count;

// The classes that the given one is under: none where that is absent.
fn row(bundle: &[u8], class: usize) -> [u8; ROW] {
    if class < class_count(bundle) {
        return all_above(bundle, class);
    }
    [0u8; ROW]
}

fn put_row(bundle: &[u8], scratch: &mut [u8], class: usize)
    requires { class < 128 }
{
    put(scratch, ROW * class, &row(bundle, class));
}

// Writes the matrix that the parents give.
pub(crate) fn put_matrix(bundle: &[u8], scratch: &mut [u8]) {
    for class in 0..CLASSES {
        put_row(bundle, scratch, class);
    }
}
