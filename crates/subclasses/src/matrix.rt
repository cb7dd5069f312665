// The subclass matrix: bit c mod 8, the lowest first, of byte 16·a + c / 8 of the scratch is 1 when class a is under class c. `fill`
// writes it and `under` asks it; nothing else knows how it is stored.
ghost use Rattle.std.specs.Prelude.{◌≡◌, ◌*◌, ◌<◌, ◌≤◌, length};
ghost use Rattle.rules.specs.Layout.{max_classes};
ghost use Rattle.rules.specs.Scratch.{scratch_bytes, entry_at, matrix_byte};
ghost use Rattle.rules.specs.Calls.{overwrite};
ghost use Rattle.layout.specs.Bundles.{model};
ghost use Rattle.subclasses.specs.Matrix.{Filled, RowOf, RowsTo, word_byte, ancestry_at};
ghost use Rattle.subclasses.specs.Ancestry.{ancestry_of};

use inheritance::class_set::ClassSet;
use layout::bundle::Bundle;
use layout::open::OpenBundle;

const CLASSES: usize = Bundle::CLASSES;

// The bytes of a row, and of the matrix.
const ROW_BYTES: usize = CLASSES / 8;

pub const BYTES: usize = CLASSES * ROW_BYTES;

// Rows are made as sets of classes, and the words of the sets written as bytes once all are made.
const WORD_BYTES: usize = 8;

// Row a: the class itself, and the rows of its parents, which are lower.
fn row_of(bundle: &OpenBundle<'_>, rows: &[ClassSet; CLASSES], a: usize) -> ClassSet
    requires a_lt_classes { a < bundle.now.tables.classes }
    requires rows_to { RowsTo (model bundle.now) a rows.now }
    ensures { RowOf (model bundle.now) a result }
{
    let mut row = ClassSet::only(a);
    for i in 0..bundle.parent_count(a) {
        let p = bundle.parent(a, i);
        row = row.union(rows[p]);
    }
    row
}

// All rows; those of numbers that are no class are empty.
fn rows_of(bundle: &OpenBundle<'_>) -> [ClassSet; CLASSES]
    ensures { RowsTo (model bundle.now) bundle.now.tables.classes result }
{
    let mut rows = [ClassSet::EMPTY; CLASSES];
    for a in 0..bundle.tables.classes {
        rows[a] = row_of(bundle, &rows, a);
    }
    rows
}

// Writes a word as the first eight bytes of a part, the lowest byte first.
fn put_word(word: u64, part: &mut [u8])
    requires { 8 ≤ length part.old }
    ensures { part.new ≡ overwrite 8 (word_byte word) part.old }
{
    part[..WORD_BYTES].copy_from_slice(&word.to_le_bytes());
}

// Writes the matrix into the first bytes of the scratch, which is what a prepared bundle asks. Each class costs two words for each of its parents.
pub fn fill(bundle: &OpenBundle<'_>, scratch: &mut [u8])
    requires { scratch_bytes ≤ length scratch.old }
    ensures written { scratch.new ≡ overwrite scratch_bytes (matrix_byte (model bundle.now)) scratch.old }
    ensures filled { Filled (model bundle.now) scratch.new }
{
    let rows = rows_of(bundle);
    for (a, row) in rows.iter().enumerate() {
        let [low, high] = row.words;
        let at = ROW_BYTES * a;
        put_word(low, &mut scratch[at..]);
        put_word(high, &mut scratch[at + WORD_BYTES..]);
    }
}

// How a class stands to another: the same class; an heir, which is under it and not the same; or neither.
#[derive(Clone, Copy)]
pub enum Ancestry {
    Same,
    Heir,
    Neither,
}

// Whether class a is under class c, the same or an heir, in a scratch that holds the matrix of a model.
pub fn under(scratch: &[u8], a: usize, c: usize) -> bool
    requires scratch_bytes_in_bounds { scratch_bytes ≤ length scratch.now }
    requires a_lt_max_classes { a < max_classes }
    requires c_lt_max_classes { c < max_classes }
    ensures { result ≡ entry_at scratch.now a c }
{
    (scratch[ROW_BYTES * a + c / 8] >> (c % 8)) % 2 == 1
}

// How class a stands to class c. The bit of the two is asked before their numbers are compared: most classes stand apart.
pub fn ancestry_of(scratch: &[u8], a: usize, c: usize) -> Ancestry
    requires scratch_bytes_in_bounds { scratch_bytes ≤ length scratch.now }
    requires a_lt_max_classes { a < max_classes }
    requires c_lt_max_classes { c < max_classes }
    ensures { ancestry_of result ≡ ancestry_at scratch.now a c }
{
    if !under(scratch, a, c) {
        return Ancestry::Neither;
    }
    if a == c {
        return Ancestry::Same;
    }
    Ancestry::Heir
}
