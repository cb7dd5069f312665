// The search: tuples are built place by place, and each place filled narrows the methods that can apply. What an earlier part of the search has settled is not
// searched again: a class that no method left tells from a tried one is passed over.
ghost use Rattle.std.specs.Prelude.{◌≡◌, ◌-◌, ◌<◌, ◌≤◌, length, take, drop};
ghost use Rattle.rules.specs.Coverage.{candidate_class};
ghost use Rattle.rules.specs.Lookup.{lookup};
ghost use Rattle.layout.specs.Bundles.{model};
ghost use Rattle.subclasses.specs.Places.{Arguments};
ghost use Rattle.dispatch.specs.Found.{found_of};
ghost use Rattle.tuple_search.specs.Leads.{LedBy};
ghost use Rattle.tuple_search.specs.Questions.{function_of, stops_at};
ghost use Rattle.tuple_search.specs.Search.{Filling, Ends, FirstStop};
ghost use Rattle.tuple_search.specs.Searches.{searched};

use crate::alike::tried_alike;
use crate::tables::Search;
use answers::failure::NotFound;
use arrayvec::ArrayVec;
use layout::bundle::Bundle;
use layout::bytes::byte_at;
use method_sets::sets::{WORDS, both, row_at};
use method_sets::table::methods_of;
use subclasses::prepared::PreparedBundle;

// Whether class k is to be tried at a place where the upper class is c: concrete, and under it.
pub fn is_candidate(prepared: &PreparedBundle<'_>, c: usize, k: usize) -> bool
    requires c_lt_classes { c < prepared.now.bundle.tables.classes }
    requires k_lt_classes { k < prepared.now.bundle.tables.classes }
    ensures { result ≡ candidate_class (model prepared.now.bundle) c k }
{
    prepared.bundle.is_concrete(k) && prepared.is_under(k, c)
}

impl Search<'_> {
    // What lookup finds for a tuple with every place filled: a method that leads the set is it, and where there is none, lookup is asked.
    fn find_filled(
        &self,
        chosen: &[u8],
        set: &[u64; WORDS],
        lead: Option<usize>,
    ) -> Result<usize, NotFound>
        requires filling { Filling (searched self.now) self.now.question (length chosen.now) chosen.now self.now.order.now set.now }
        requires led_by { LedBy (searched self.now) self.now.order.now self.now.admits.now set.now (length chosen.now) lead }
        ensures { found_of result ≡ lookup (searched self.now) (function_of (searched self.now) self.now.question) chosen.now }
    {
        match self.lead_of(set, chosen.len(), lead) {
            Some(m) => Ok(m),
            None => {
                let f = self.question.function(&self.indexed.prepared.bundle);
                self.indexed.lookup(f, chosen)
            }
        }
    }

    // Whether the search stops at a tuple with every place filled.
    fn stops_filled(&self, chosen: &[u8], set: &[u64; WORDS], lead: Option<usize>) -> bool
        requires filling { Filling (searched self.now) self.now.question (length chosen.now) chosen.now self.now.order.now set.now }
        requires led_by { LedBy (searched self.now) self.now.order.now self.now.admits.now set.now (length chosen.now) lead }
        ensures { result ≡ stops_at (searched self.now) self.now.question chosen.now }
    {
        let found = self.find_filled(chosen, set, lead);
        self.question
            .stops_at(&self.indexed.prepared, chosen, found)
    }

    // The search with so many places still to fill, the last ones, and the set of the methods that are left: the classes of the first of these places are tried
    // in number order. A class counts as tried once its search found nothing. A method that leads the set leads each part of it that has the method, and is
    // handed down there. Where the search stops, the tuple is left; else the places are as they were.
    fn complete(
        &self,
        upper: &[u8],
        unfilled: usize,
        chosen: &mut [u8],
        set: &[u64; WORDS],
        lead: Option<usize>,
    ) -> bool
        requires arguments { Arguments (searched self.now) (function_of (searched self.now) self.now.question) upper.now }
        requires unfilled_in_bounds { unfilled ≤ length chosen.old }
        requires filling { Filling (searched self.now) self.now.question (length chosen.old - unfilled) chosen.old self.now.order.now set.now }
        requires led_by { LedBy (searched self.now) self.now.order.now self.now.admits.now set.now (length chosen.old) lead }
        ensures chosen_len_unchanged { length chosen.new ≡ length chosen.old }
        ensures ends { Ends (searched self.now) self.now.question (take (length chosen.old - unfilled) chosen.old) (drop (length chosen.old - unfilled) upper.now) chosen.old chosen.new result }
    {
        let is_filled = unfilled == 0;
        if is_filled {
            return self.stops_filled(chosen, set, lead);
        }
        let prepared = &self.indexed.prepared;
        let n = chosen.len();
        let place = n - unfilled;
        let led = self.lead_of(set, n, lead);
        let c = byte_at(upper, place);
        let is_last = unfilled == 1;
        let before = chosen[place];
        let mut tried = ArrayVec::<u8, { Bundle::CLASSES }>::new();
        for class in 0..prepared.bundle.tables.classes {
            if !is_candidate(prepared, c, class) {
                continue;
            }
            if tried_alike(self, set, place, is_last, tried.as_slice(), class) {
                continue;
            }
            let byte = class as u8;
            chosen[place] = byte;
            let left = both(set, self.admits, row_at(place, class));
            let next = self.lead_with(place, class, led);
            if self.complete(upper, unfilled - 1, chosen, &left, next) {
                return true;
            }
            tried.push(byte);
        }
        chosen[place] = before;
        false
    }

    // The first of the tuples below the upper classes at which the search stops, at the first places. They are gone through in the order of their class numbers,
    // the leftmost place turning slowest.
    pub fn first_stop(&self, upper: &[u8]) -> Option<[u8; Bundle::PLACES]>
        requires { Arguments (searched self.now) (function_of (searched self.now) self.now.question) upper.now }
        ensures { FirstStop (searched self.now) self.now.question upper.now result }
    {
        let bundle = &self.indexed.prepared.bundle;
        let f = self.question.function(bundle);
        let set = methods_of(bundle, self.order, f);
        let n = upper.len();
        let mut chosen = [0; Bundle::PLACES];
        if self.complete(upper, n, &mut chosen[..n], &set, None) {
            return Some(chosen);
        }
        None
    }
}
