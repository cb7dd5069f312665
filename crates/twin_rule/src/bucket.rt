// A bucket for each method. Twins have the same function and specialisers, so they are in one bucket.
ghost use Rattle.std.specs.Prelude.{◌≡◌, ◌<◌};
ghost use Rattle.twin_rule.specs.Chain.{buckets, bucket_of};

use layout::bytes::word_at;
use layout::open::Records;

// How many buckets there are. A prime: classes that differ by a power of two then spread over the buckets too.
pub(crate) const BUCKETS: usize = 521;

// The bucket of method m: the first four bytes of its record, which are its function and three specialisers, as one number, and of that the remainder.
#[tactic(auto, unfolding(crate::specs::Chain::bucket_of))]
pub(crate) fn bucket(records: &Records<'_>, m: usize) -> usize
    requires { m < records.now.tables.methods }
    ensures { (result ≡ bucket_of records.now.bytes.now m) × (result < buckets) }
{
    let at = records.method_record(m);
    (word_at(records.bytes, at) + 65536 * word_at(records.bytes, at + 2)) % BUCKETS
}
