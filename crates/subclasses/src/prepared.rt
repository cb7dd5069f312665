// An open bundle with its subclass matrix in the scratch.
ghost use Rattle.std.specs.Prelude.{◌≡◌, true, ◌<◌, length};
ghost use Rattle.rules.specs.Model.{present};
ghost use Rattle.rules.specs.Subclass.{subclass, ancestry, under};
ghost use Rattle.rules.specs.Coverage.{declared_hold};
ghost use Rattle.layout.specs.Arity.{OfArity};
ghost use Rattle.layout.specs.Bundles.{model};
ghost use Rattle.subclasses.specs.Ancestry.{ancestry_of};
ghost use Rattle.subclasses.specs.Prepared.{Prepared, Prepared-prop};

use crate::matrix::{Ancestry, ancestry_of};
use crate::{matrix, places};
use layout::open::OpenBundle;

#[derive(Clone, Copy)]
pub struct PreparedBundle<'a> {
    pub bundle: OpenBundle<'a>,
    pub scratch: &'a [u8],
    pub ghost prepared: { Prepared bundle.bytes.now bundle.tables scratch.now } by { Prepared-prop bundle.bytes.now bundle.tables scratch.now },
}

impl PreparedBundle<'_> {
    // How class a stands to class c.
    pub fn ancestry(&self, a: usize, c: usize) -> Ancestry
        requires a_lt_classes { a < self.now.bundle.tables.classes }
        requires c_lt_classes { c < self.now.bundle.tables.classes }
        ensures { ancestry_of result ≡ ancestry (model self.now.bundle) a c }
    {
        ancestry_of(self.scratch, a, c)
    }

    // Whether class a is under class c, the same or an heir.
    pub fn is_under(&self, a: usize, c: usize) -> bool
        requires a_lt_classes { a < self.now.bundle.tables.classes }
        requires c_lt_classes { c < self.now.bundle.tables.classes }
        ensures { result ≡ subclass (model self.now.bundle) a c }
    {
        matrix::under(self.scratch, a, c)
    }

    // Whether each class of the one tuple is under the class at its place in the other.
    pub fn each_under(&self, classes: &[u8], above: &[u8]) -> bool
        requires classes_present { present (model self.now.bundle) classes.now ≡ true }
        requires above_present { present (model self.now.bundle) above.now ≡ true }
        requires as_long { length classes.now ≡ length above.now }
        ensures { result ≡ under (model self.now.bundle) classes.now above.now }
    {
        places::each_under(self.scratch, classes, above)
    }

    // Whether each argument class is under the class that method m declares at its place.
    pub fn declared_hold(&self, args: &[u8], m: usize) -> bool
        requires of_arity { OfArity (model self.now.bundle) (length args.now) m }
        requires args_present { present (model self.now.bundle) args.now ≡ true }
        ensures { result ≡ declared_hold (model self.now.bundle) m args.now }
    {
        self.each_under(args, self.bundle.declared_classes(args.len(), m))
    }
}
