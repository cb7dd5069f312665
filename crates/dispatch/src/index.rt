// The index of a bundle's methods: by it the methods of a function are found, rising, without asking those of the others.
ghost use Rattle.std.specs.Prelude.{◌≡◌};
ghost use Rattle.layout.specs.Bundles.{model};
ghost use Rattle.dispatch.specs.Index.{Indexed, Indexed-prop};

use layout::bundle::Bundle;
use layout::open::OpenBundle;
use subclasses::prepared::PreparedBundle;

// The lowest method of each function, and behind each method the next of the same function. Two bytes are enough for a method.
#[derive(Clone, Copy)]
pub struct MethodIndex {
    pub first: [Option<u16>; Bundle::FUNCTIONS],
    pub next: [Option<u16>; Bundle::METHODS],
}

// The index is made from the highest method down, so that a function's entry is the next of the method that comes.
pub fn index_methods(bundle: &OpenBundle<'_>) -> MethodIndex
    ensures { Indexed (model bundle.now) result.first result.next }
{
    let mut first = [None; Bundle::FUNCTIONS];
    let mut next = [None; Bundle::METHODS];
    for m in (0..bundle.tables.methods).rev() {
        let f = bundle.function(m);
        next[m] = first[f];
        first[f] = Some(m as u16);
    }
    MethodIndex { first, next }
}

// A prepared bundle with the index of its methods.
#[derive(Clone, Copy)]
pub struct IndexedBundle<'a> {
    pub prepared: PreparedBundle<'a>,
    pub first: [Option<u16>; Bundle::FUNCTIONS],
    pub next: [Option<u16>; Bundle::METHODS],
    pub ghost indexed: { Indexed (model prepared.bundle) first next } by { Indexed-prop (model prepared.bundle) first next },
}

impl<'a> IndexedBundle<'a> {
    // Not inlined: the index is handed on by copies, whose room is to be gone from the stack before it is used.
    #[inline(never)]
    pub fn new(prepared: &PreparedBundle<'a>) -> IndexedBundle<'a>
        ensures { result.prepared ≡ prepared.now }
    {
        let MethodIndex { first, next } = index_methods(&prepared.bundle);
        IndexedBundle {
            prepared: *prepared,
            first,
            next,
        }
    }
}
