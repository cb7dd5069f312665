// A first tuple of concrete classes below given ones: the lowest at each place.
ghost use Rattle.std.specs.Prelude.{◌≡◌, true, false, ◌<◌, ◌≤◌, length, take, MatchOption};
ghost use Rattle.rules.specs.Bounded.{every};
ghost use Rattle.rules.specs.Layout.{places};
ghost use Rattle.rules.specs.Model.{present};
ghost use Rattle.rules.specs.Coverage.{Below};
ghost use Rattle.rules.specs.Rough.{has_concrete};
ghost use Rattle.layout.specs.Bundles.{model};
ghost use Rattle.upper_classes.specs.Lowest.{lowest_under};

use layout::bundle::Bundle;
use subclasses::prepared::PreparedBundle;
use tuple_search::search::is_candidate;

// The lowest concrete class under class c.
fn lowest_under(prepared: &PreparedBundle<'_>, c: usize) -> Option<usize>
    requires { c < prepared.now.bundle.tables.classes }
    ensures { result ≡ lowest_under (model prepared.now.bundle) c }
{
    for k in 0..prepared.bundle.tables.classes {
        if is_candidate(prepared, c, k) {
            return Some(k);
        }
    }
    None
}

// The lowest concrete class under each of the classes, at the first places, where each has one.
pub(crate) fn least_below(
    prepared: &PreparedBundle<'_>,
    upper: &[u8],
) -> Option<[u8; Bundle::PLACES]>
    requires upper_value { present (model prepared.now.bundle) upper.now ≡ true }
    requires upper_len { length upper.now ≤ places }
    ensures { let M = model prepared.now.bundle in MatchOption result (every (has_concrete M) upper.now ≡ false) (λ least. (length least ≡ places) × Below M upper.now (take (length upper.now) least)) }
{
    let mut least = [0; Bundle::PLACES];
    for (place, class) in upper.iter().enumerate() {
        let k = lowest_under(prepared, usize::from(*class))?;
        least[place] = k as u8;
    }
    Some(least)
}
