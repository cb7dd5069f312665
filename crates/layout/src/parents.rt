// The parents of a class, once every class keeps its own rule.
ghost use Rattle.std.specs.Prelude.{◌≡◌, ◌<◌, ◌≤◌, length, get_or};
ghost use Rattle.rules.specs.Layout.{max_classes, parents_of};

use crate::bytes::byte_at;
use crate::open::{ListedBundle, Records};

impl ListedBundle<'_> {
    // How many parents class c has.
    pub fn parent_count(&self, c: usize) -> usize
        requires { c < self.now.tables.classes }
        ensures { (result ≡ length (parents_of self.now.bytes.now c)) × (result ≤ max_classes) }
    {
        self.records().parent_count(c)
    }

    // Parent i of class c.
    pub fn parent(&self, c: usize, i: usize) -> usize
        requires c_lt_classes { c < self.now.tables.classes }
        requires i_in_bounds { i < length (parents_of self.now.bytes.now c) }
        ensures { (result ≡ get_or (parents_of self.now.bytes.now c) i 0) × (result < self.now.tables.classes) }
    {
        byte_at(
            self.bytes,
            self.tables.parent_at + self.records().list_offset(c) + i,
        )
    }

    // The same bundle, of which it is only said that its records can be read.
    pub fn records(&self) -> Records<'_>
        ensures { (result.bytes ≡ self.now.bytes) × (result.tables ≡ self.now.tables) }
    {
        Records {
            bytes: self.bytes,
            tables: self.tables,
        }
    }
}
