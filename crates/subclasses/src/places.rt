// Classes compared place by place.
ghost use Rattle.std.specs.Prelude.{◌≡◌};
ghost use Rattle.subclasses.specs.Matrix.{entries_at};
ghost use Rattle.subclasses.specs.Places.{Comparable};

use crate::matrix;
use layout::bytes::byte_at;

// Whether each class of the one tuple is under the class at its place in the other, by the entries of the scratch.
pub fn each_under(scratch: &[u8], classes: &[u8], above: &[u8]) -> bool
    requires { Comparable scratch.now classes.now above.now }
    ensures { result ≡ entries_at scratch.now classes.now above.now }
{
    for i in 0..classes.len() {
        if !matrix::under(scratch, byte_at(classes, i), byte_at(above, i)) {
            return false;
        }
    }
    true
}
