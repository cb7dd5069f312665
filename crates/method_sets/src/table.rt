// Tables of sets: for each place and class the methods whose class at that place, specialiser or declared, is above it; and the set of a function's methods.
ghost use Rattle.std.specs.Prelude.{◌≡◌, ◌*◌, ◌<◌, ◌≤◌, length};
ghost use Rattle.rules.specs.Layout.{places, max_classes, max_methods};
ghost use Rattle.rules.specs.Scratch.{scratch_bytes};
ghost use Rattle.layout.specs.Bundles.{model};
ghost use Rattle.subclasses.specs.Places.{InMatrix};
ghost use Rattle.method_sets.specs.Classes.{is_declared};
ghost use Rattle.method_sets.specs.Sets.{set_words, table_words, SetAt, WordOf, class_of, method_of, column_above, Ordered, InOrder, Rows, TabledTo, Tabled};

use crate::sets::{TABLE_WORDS, WORD_BITS, WORDS, doubled, row_at, word_end};
use arrayvec::ArrayVec;
use layout::bundle::Bundle;
use layout::bytes::byte_at;
use layout::open::OpenBundle;
use subclasses::matrix::under;
use subclasses::prepared::PreparedBundle;

// Which class of a method at a place is meant.
#[derive(Clone, Copy, PartialEq, Eq, Debug)]
pub enum MethodClass {
    Specialiser,
    Declared,
}

impl MethodClass {
    // That of method m at a place.
    fn of(self, bundle: &OpenBundle<'_>, m: usize, place: usize) -> usize
        requires m_lt_methods { m < bundle.now.tables.methods }
        requires place_lt_places { place < places }
        ensures { (result ≡ class_of (is_declared self) (model bundle.now) m place) × (result < bundle.now.tables.classes) }
    {
        match self {
            MethodClass::Specialiser => bundle.specialiser(m, place),
            MethodClass::Declared => bundle.declared(m, place),
        }
    }

    // Those of all methods at a place, in their order.
    fn column(
        self,
        bundle: &OpenBundle<'_>,
        order: &[usize; Bundle::METHODS],
        place: usize,
    ) -> ArrayVec<u8, { Bundle::METHODS }>
        requires ordered { Ordered (model bundle.now) order.now }
        requires place_lt_places { place < places }
        ensures { InOrder (is_declared self) (model bundle.now) order.now place result.items }
    {
        let mut classes = ArrayVec::new();
        for i in 0..bundle.tables.methods {
            let m = order[i] % Bundle::METHODS;
            classes.push(self.of(bundle, m, place) as u8);
        }
        classes
    }

    // Writes the sets of all places by these classes into a table of zeros. It is lent, since to answer it would copy its 24 kilobytes twice.
    pub fn fill(
        self,
        prepared: &PreparedBundle<'_>,
        order: &[usize; Bundle::METHODS],
        table: &mut [u64; TABLE_WORDS],
    )
        requires ordered { Ordered (model prepared.now.bundle) order.now }
        requires zeros { TabledTo (is_declared self) (model prepared.now.bundle) order.now table.old 0 }
        ensures { Tabled (is_declared self) (model prepared.now.bundle) order.now table.new }
    {
        let bundle = &prepared.bundle;
        for place in 0..Bundle::PLACES {
            let column = self.column(bundle, order, place);
            fill_place(
                prepared.scratch,
                bundle.tables.classes,
                place,
                column.as_slice(),
                table,
            );
        }
    }
}

// The word of the positions from one on at which a column has a class above class k.
fn word_above(scratch: &[u8], k: usize, column: &[u8], start: usize) -> u64
    requires scratch_bytes_in_bounds { scratch_bytes ≤ length scratch.now }
    requires k_lt_max_classes { k < max_classes }
    requires in_matrix { InMatrix column.now }
    requires start_lt_max_methods { start < max_methods }
    ensures { WordOf (column_above scratch.now column.now k) start result }
{
    let mut bits = 0;
    for i in (start..word_end(start, column.len())).rev() {
        bits = doubled(bits, under(scratch, k, byte_at(column, i)));
    }
    bits
}

// Writes the sets of one place, class by class.
fn fill_place(
    scratch: &[u8],
    classes: usize,
    place: usize,
    column: &[u8],
    table: &mut [u64; TABLE_WORDS],
)
    requires scratch_bytes_in_bounds { scratch_bytes ≤ length scratch.now }
    requires classes_le_max_classes { classes ≤ max_classes }
    requires place_lt_places { place < places }
    requires in_matrix { InMatrix column.now }
    requires table_len { length table.old ≡ table_words }
    ensures { Rows scratch.now column.now place (set_words * classes) table.old table.new }
{
    let first = row_at(place, 0);
    for w in 0..WORDS * classes {
        table[first + w] = word_above(scratch, w / WORDS, column, WORD_BITS * (w % WORDS));
    }
}

// The word of the positions from one on at which the order has a method of function f.
fn word_of(bundle: &OpenBundle<'_>, order: &[usize; Bundle::METHODS], f: usize, start: usize) -> u64
    requires ordered { Ordered (model bundle.now) order.now }
    requires start_lt_max_methods { start < max_methods }
    ensures { WordOf (method_of (model bundle.now) order.now f) start result }
{
    let mut bits = 0;
    for i in (start..word_end(start, bundle.tables.methods)).rev() {
        let m = order[i] % Bundle::METHODS;
        bits = doubled(bits, bundle.function(m) == f);
    }
    bits
}

// The set of function f's methods.
pub fn methods_of(
    bundle: &OpenBundle<'_>,
    order: &[usize; Bundle::METHODS],
    f: usize,
) -> [u64; WORDS]
    requires { Ordered (model bundle.now) order.now }
    ensures { SetAt result 0 (method_of (model bundle.now) order.now f) }
{
    let mut set = [0u64; WORDS];
    for w in 0..WORDS {
        set[w] = word_of(bundle, order, f, WORD_BITS * w);
    }
    set
}
