// The opened bundle: its directory, its tables, a reader for each field of a record, and the classes of a record's tuple as a part of the bundle.
#![tactic(auto)]

pub mod bundle;
pub mod bytes;
pub mod directory;
pub mod field;
pub mod instruction;
pub mod open;
pub mod parents;
pub mod record;
pub mod tuple;
