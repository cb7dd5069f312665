// Number 8: methods of a function with the same specialisers.
ghost use Rattle.std.specs.Prelude.{◌≡◌, not, ◌<◌, length};
ghost use Rattle.rules.specs.Layout.{places, specialiser_tuple_of, twins, twin_rule};

use crate::bucket::BUCKETS;
use crate::chain::ChainedRecords;
use layout::bundle::Bundle;
use layout::bytes::part;
use layout::open::Records;
use layout::tuple::each_same;

// What method m has at the places of its specialisers.
#[tactic(auto, unfolding(rules::specs::Layout::specialiser_tuple_of))]
fn specialisers<'a>(records: &Records<'a>, m: usize) -> &'a [u8]
    requires { m < records.now.tables.methods }
    ensures { (result.now ≡ specialiser_tuple_of records.now.bytes.now m) × (length result.now ≡ places) }
{
    part(
        records.bytes,
        records.specialiser_tuple_at(m),
        Bundle::PLACES,
    )
}

// Whether methods m and n are of one function and have equal specialisers.
#[tactic(auto, unfolding(rules::specs::Layout::twins))]
fn are_twins(records: &Records<'_>, m: usize, n: usize) -> bool
    requires m_lt_methods { m < records.now.tables.methods }
    requires n_lt_methods { n < records.now.tables.methods }
    ensures { result ≡ twins records.now.bytes.now m n }
{
    records.function(m) == records.function(n)
        && each_same(specialisers(records, m), specialisers(records, n))
}

impl ChainedRecords<'_> {
    // Whether an earlier method is a twin of method m: one of those before it in the chain of its bucket.
    pub fn has_twin(&self, m: usize) -> bool
        requires { m < self.now.records.tables.methods }
        ensures { result ≡ not (twin_rule self.now.records.bytes.now m) }
    {
        // A `while let`: the walk follows the entries of the chain, and not a range.
        let mut next = usize::from(self.chains[BUCKETS + m]).checked_sub(1);
        while let Some(n) = next {
            if are_twins(&self.records, m, n) {
                return true;
            }
            next = usize::from(self.chains[BUCKETS + n]).checked_sub(1);
        }
        false
    }
}
