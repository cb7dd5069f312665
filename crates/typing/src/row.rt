// A static type as a row: byte c is 1 when class c is in the type, and else 0.
ghost use Rattle.std.specs.Prelude.{◌≡◌, true, cond, [], ◌∷◌, ◌<◌, ◌≤◌, length};
ghost use Rattle.rules.specs.Layout.{places, max_classes};
ghost use Rattle.rules.specs.Model.{present};
ghost use Rattle.rules.specs.Scratch.{scratch_bytes, entry_at};
ghost use Rattle.layout.specs.Bundles.{model};
ghost use Rattle.typing.specs.Rows.{RowOf, Joined, Rows, class_types};

use arrayvec::ArrayVec;
use layout::bundle::Bundle;
use subclasses::matrix::{Ancestry, ancestry_of};
use subclasses::prepared::PreparedBundle;

// The bytes of a row.
pub const ROW_BYTES: usize = Bundle::CLASSES;

pub(crate) type Row = [u8; ROW_BYTES];

// The types on the stack of a body, the top last. A body has no more than 64 instructions, and each leaves at most one type more than it found.
pub(crate) type Stack = ArrayVec<Row, 64>;

// What the byte of class k becomes when class c's type is joined, by the entry of the scratch.
fn join_byte(scratch: &[u8], c: usize, k: usize, old: u8) -> u8
    requires scratch_bytes_in_bounds { scratch_bytes ≤ length scratch.now }
    requires c_lt_max_classes { c < max_classes }
    requires k_lt_max_classes { k < max_classes }
    ensures { result ≡ cond (entry_at scratch.now c k) 1 old }
{
    match ancestry_of(scratch, c, k) {
        Ancestry::Same => 1,
        Ancestry::Heir => 1,
        Ancestry::Neither => old,
    }
}

// Joins class c's type to that of the row. All 128 entries are asked: those of absent classes are empty, and a test which are present would take longer.
pub(crate) fn join(prepared: &PreparedBundle<'_>, c: usize, row: &mut Row)
    requires { c < prepared.now.bundle.tables.classes }
    ensures { Joined (model prepared.now.bundle) c row.old row.new }
{
    for (k, byte) in row.iter_mut().enumerate() {
        *byte = join_byte(prepared.scratch, c, k, *byte);
    }
}

// The row of class c's type.
pub(crate) fn class_row(prepared: &PreparedBundle<'_>, c: usize) -> Row
    requires { c < prepared.now.bundle.tables.classes }
    ensures { RowOf (model prepared.now.bundle) (c ∷ []) result }
{
    let mut row = [0; ROW_BYTES];
    join(prepared, c, &mut row);
    row
}

// The rows of the classes' types, one after the other.
pub(crate) fn class_rows(
    prepared: &PreparedBundle<'_>,
    args: &[u8],
) -> ArrayVec<Row, { Bundle::PLACES }>
    requires args_value { present (model prepared.now.bundle) args.now ≡ true }
    requires args_le_places { length args.now ≤ places }
    ensures { Rows (model prepared.now.bundle) result.items (class_types args.now) }
{
    let mut rows = ArrayVec::new();
    for class in args {
        rows.push(class_row(prepared, usize::from(*class)));
    }
    rows
}
