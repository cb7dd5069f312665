// A bundle with its tables, and what is known of them: a value of each type here has shown it, and carries it.
ghost use Rattle.layout.specs.Tables.{Placed};
ghost use Rattle.layout.specs.Listed.{Listed, Listed-prop};
ghost use Rattle.layout.specs.Opened.{Opened, Opened-prop};

use crate::bundle::Bundle;

// The tables are those of the bundle's directory, and every record lies within the bundle.
#[derive(Clone, Copy)]
pub struct Records<'a> {
    pub bytes: &'a [u8],
    pub tables: Bundle,
    pub ghost placed: { Placed bytes.now tables },
}

// Every class keeps its own rule: the lists of parents can be read, and may still have cycles.
#[derive(Clone, Copy)]
pub struct ListedBundle<'a> {
    pub bytes: &'a [u8],
    pub tables: Bundle,
    pub ghost listed: { Listed bytes.now tables } by { Listed-prop bytes.now tables },
}

// The bundle keeps the rules 1 to 9.
#[derive(Clone, Copy)]
pub struct OpenBundle<'a> {
    pub bytes: &'a [u8],
    pub tables: Bundle,
    pub ghost opened: { Opened bytes.now tables } by { Opened-prop bytes.now tables },
}
