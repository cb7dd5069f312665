// What a search goes by.
ghost use Rattle.layout.specs.Bundles.{model};
ghost use Rattle.tuple_search.specs.Search.{GoesBy, GoesBy-prop};

use crate::question::Question;
use dispatch::index::IndexedBundle;
use layout::bundle::Bundle;
use method_sets::sets::TABLE_WORDS;

// A question, an order of the methods, the table of their specialisers, and the table of the classes by which the question tells methods apart beside them.
#[derive(Clone, Copy)]
pub struct Search<'a> {
    pub indexed: &'a IndexedBundle<'a>,
    pub question: Question,
    pub order: &'a [usize; Bundle::METHODS],
    pub admits: &'a [u64; TABLE_WORDS],
    pub holds: &'a [u64; TABLE_WORDS],
    pub ghost goes_by: { GoesBy (model indexed.now.prepared.bundle) question order.now admits.now holds.now } by { GoesBy-prop (model indexed.now.prepared.bundle) question order.now admits.now holds.now },
}
