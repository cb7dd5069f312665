// Classes that no method left tells apart at a place of a tuple: one of them is enough to try.
ghost use Rattle.std.specs.Prelude.{◌≡◌, true, ◌<◌, length};
ghost use Rattle.rules.specs.Layout.{places, max_classes};
ghost use Rattle.rules.specs.Model.{present};
ghost use Rattle.method_sets.specs.Sets.{AlikeIn, SomeAlike};
ghost use Rattle.tuple_search.specs.Searches.{searched};

use crate::tables::Search;
use method_sets::sets::{WORDS, row_at, same_within};

// Whether no method of the set tells classes a and k apart at the place, by the classes of either table.
fn alike(search: &Search<'_>, set: &[u64; WORDS], place: usize, a: usize, k: usize) -> bool
    requires place_lt_places { place < places }
    requires a_lt_max_classes { a < max_classes }
    requires k_lt_max_classes { k < max_classes }
    ensures { result ≡ true → AlikeIn search.now.admits.now search.now.holds.now set.now place a k }
{
    let one = row_at(place, a);
    let other = row_at(place, k);
    same_within(set, search.admits, one, other) && same_within(set, search.holds, one, other)
}

// Whether one of the tried classes is found alike to class k, the latest being compared first. At a tuple's last place a comparison costs as much as to try the
// class, so the latest alone is compared there: it is promised that a class found alike is, and not that each alike one is found.
pub(crate) fn tried_alike(
    search: &Search<'_>,
    set: &[u64; WORDS],
    place: usize,
    is_last: bool,
    tried: &[u8],
    k: usize,
) -> bool
    requires place_lt_places { place < places }
    requires tried_present { present (searched search.now) tried.now ≡ true }
    requires k_lt_max_classes { k < max_classes }
    ensures { result ≡ true → SomeAlike search.now.admits.now search.now.holds.now set.now place tried.now (length tried.now) k }
{
    for i in (0..tried.len()).rev() {
        if alike(search, set, place, usize::from(tried[i]), k) {
            return true;
        }
        if is_last {
            return false;
        }
    }
    false
}
