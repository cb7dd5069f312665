// What each class inherits from, by Warshall's closure of "is a parent of". Asked only where the classes have no order, so it may take a round for each class.
ghost use Rattle.std.specs.Prelude.{◌≡◌, ◌||◌, ◌&&◌, ℕ, ◌≤◌, ◌<◌, eqb, length};
ghost use Rattle.rules.specs.Bounded.{any};
ghost use Rattle.rules.specs.Layout.{max_classes, parents_of};
ghost use Rattle.inheritance.specs.Rows.{RowsOf, has_class, rows_have};
ghost use Rattle.inheritance.specs.Closure.{joined_at, through};

use crate::class_set::ClassSet;
use layout::bundle::Bundle;
use layout::open::ListedBundle;

const CLASSES: usize = Bundle::CLASSES;

// The parents of class c.
fn parent_set(bundle: &ListedBundle<'_>, c: usize) -> ClassSet
    requires { c < bundle.now.tables.classes }
    ensures { (p : ℕ) → p < max_classes → has_class result p ≡ any (eqb p) (parents_of bundle.now.bytes.now c) }
{
    let mut set = ClassSet::EMPTY;
    for i in 0..bundle.parent_count(c) {
        let p = bundle.parent(c, i);
        set = set.union(ClassSet::only(p));
    }
    set
}

// The parents of every class.
fn parent_rows(bundle: &ListedBundle<'_>) -> [ClassSet; CLASSES]
    ensures { RowsOf (through (parents_of bundle.now.bytes.now) 0) bundle.now.tables.classes result }
{
    let mut rows = [ClassSet::EMPTY; CLASSES];
    for c in 0..bundle.tables.classes {
        rows[c] = parent_set(bundle, c);
    }
    rows
}

// A row, with the classes of row k where it has class k.
fn through_row(row: ClassSet, k: usize, above: ClassSet) -> ClassSet
    requires { k < max_classes }
    ensures { (c : ℕ) → c < max_classes → has_class result c ≡ (has_class row c || (has_class row k && has_class above c)) }
{
    if row.has(k) {
        return row.union(above);
    }
    row
}

// A round: ways through class k are added to the rows of n classes. Row k stays as it is in its own round, so it is read once.
fn through_class(rows: &mut [ClassSet; CLASSES], n: usize, k: usize)
    requires n_le_max_classes { n ≤ max_classes }
    requires k_lt_n { k < n }
    requires rows_len { length rows.old ≡ max_classes }
    ensures { RowsOf (joined_at (rows_have rows.old) k) n rows.new }
{
    let above = rows[k];
    for a in 0..n {
        rows[a] = through_row(rows[a], k, above);
    }
}

// What every class inherits from.
pub(crate) fn closure(bundle: &ListedBundle<'_>) -> [ClassSet; CLASSES]
    ensures { RowsOf (through (parents_of bundle.now.bytes.now) bundle.now.tables.classes) bundle.now.tables.classes result }
{
    let mut rows = parent_rows(bundle);
    for k in 0..bundle.tables.classes {
        through_class(&mut rows, bundle.tables.classes, k);
    }
    rows
}
