// Lookup: the applicable methods of a send, and the one that leads them.
ghost use Rattle.std.specs.Prelude.{◌≡◌};
ghost use Rattle.rules.specs.Lookup.{select, lookup};
ghost use Rattle.layout.specs.Bundles.{model};
ghost use Rattle.subclasses.specs.Places.{Arguments};
ghost use Rattle.dispatch.specs.Listed.{applicable_without};
ghost use Rattle.dispatch.specs.Found.{found_of};

use crate::applicable::applicable;
use crate::index::IndexedBundle;
use crate::select::Candidates;
use answers::failure::NotFound;
use arrayvec::ArrayVec;

impl IndexedBundle<'_> {
    // The leader of the methods of function f that apply to the arguments, without `but`, or why there is none. A lookup leaves none out.
    pub fn find(&self, f: usize, args: &[u8], but: Option<usize>) -> Result<usize, NotFound>
        requires { Arguments (model self.now.prepared.bundle) f args.now }
        ensures { let M = model self.now.prepared.bundle in found_of result ≡ select M (applicable_without M f args.now but) }
    {
        let mut list = ArrayVec::new();
        applicable(self, f, args, but, &mut list);
        let candidates = Candidates {
            prepared: &self.prepared,
            f,
            n: args.len(),
            list: list.as_slice(),
        };
        candidates.select()
    }

    // What a send of function f finds for the argument classes at its places.
    pub fn lookup(&self, f: usize, args: &[u8]) -> Result<usize, NotFound>
        requires { Arguments (model self.now.prepared.bundle) f args.now }
        ensures { found_of result ≡ lookup (model self.now.prepared.bundle) f args.now }
    {
        self.find(f, args, None)
    }
}
