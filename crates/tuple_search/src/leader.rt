// The method that leads a set: one of its methods, at least as specific as every one of them.
ghost use Rattle.std.specs.Prelude.{◌≡◌, true, ◌<◌, ◌≤◌, IfSome};
ghost use Rattle.rules.specs.Layout.{places};
ghost use Rattle.method_sets.specs.Sets.{AboveAll};
ghost use Rattle.tuple_search.specs.Leads.{LedBy, HandedDown};
ghost use Rattle.tuple_search.specs.Searches.{searched};

use crate::tables::Search;
use layout::bundle::Bundle;
use method_sets::sets::{WORDS, first_position, row_at, within};

impl Search<'_> {
    // Whether method m is at least as specific as every method of the set: at each place the methods above its specialiser there are all of them.
    fn above_all(&self, set: &[u64; WORDS], n: usize, m: usize) -> bool
        requires n_le_places { n ≤ places }
        requires m_lt_methods { m < self.now.indexed.now.prepared.bundle.tables.methods }
        ensures { result ≡ true → AboveAll (searched self.now) self.now.admits.now set.now n m }
    {
        let bundle = &self.indexed.prepared.bundle;
        for place in 0..n {
            let c = bundle.specialiser(m, place);
            if !within(set, self.admits, row_at(place, c)) {
                return false;
            }
        }
        true
    }

    // The lead of the set, whose methods have n places: the one handed down, or else the first of the set if it leads.
    pub(crate) fn lead_of(&self, set: &[u64; WORDS], n: usize, lead: Option<usize>) -> Option<usize>
        requires n_le_places { n ≤ places }
        requires led_by { LedBy (searched self.now) self.now.order.now self.now.admits.now set.now n lead }
        ensures { LedBy (searched self.now) self.now.order.now self.now.admits.now set.now n result }
    {
        if lead.is_some() {
            return lead;
        }
        let at = first_position(set)?;
        if self.indexed.prepared.bundle.tables.methods <= at {
            return None;
        }
        let m = self.order[at] % Bundle::METHODS;
        if !self.above_all(set, n, m) {
            return None;
        }
        Some(m)
    }

    // The lead of the methods of a set that apply to a class at a place: the set's own where it applies too, and else none.
    pub(crate) fn lead_with(&self, place: usize, class: usize, lead: Option<usize>) -> Option<usize>
        requires place_lt_places { place < places }
        requires class_lt_classes { class < self.now.indexed.now.prepared.bundle.tables.classes }
        requires lead_present { IfSome lead (λ m. m < self.now.indexed.now.prepared.bundle.tables.methods) }
        ensures { HandedDown (searched self.now) class place lead result }
    {
        let prepared = &self.indexed.prepared;
        let m = lead?;
        if prepared.is_under(class, prepared.bundle.specialiser(m, place)) {
            return lead;
        }
        None
    }
}
