// The methods of each bucket as a chain, from the highest down.
ghost use Rattle.std.specs.Prelude.{◌≡◌};
ghost use Rattle.twin_rule.specs.Chain.{Chained, Chained-prop};

use crate::bucket::{BUCKETS, bucket};
use layout::bundle::Bundle;
use layout::open::Records;

// An entry for each bucket, and behind them one for each method.
pub const SIZE: usize = BUCKETS + Bundle::METHODS;

// Records whose methods are chained: for each bucket one past its highest method, and for each method one past the next lower one of its bucket;
// 0 stands for none. An entry has two bytes, of which an Option would need four: all of them are cleared for the smallest bundle too.
#[derive(Clone, Copy)]
pub struct ChainedRecords<'a> {
    pub records: Records<'a>,
    pub chains: [u16; SIZE],
    pub ghost chained: { Chained records.bytes.now chains } by { Chained-prop records.bytes.now chains },
}

impl<'a> ChainedRecords<'a> {
    pub fn new(records: &Records<'a>) -> ChainedRecords<'a>
        ensures { result.records ≡ records.now }
    {
        let mut chains = [0u16; SIZE];
        for m in 0..records.tables.methods {
            let at = bucket(records, m);
            chains[BUCKETS + m] = chains[at];
            chains[at] = (m + 1) as u16;
        }
        ChainedRecords {
            records: *records,
            chains,
        }
    }
}
