// Lists of parents, and bodies, stand one behind the other and fill their section (M 2.4, 2.7).
ghost use Rattle.std.specs.Prelude.{◌≡◌, not, ◌<◌};
ghost use Rattle.rules.specs.Layout.{in_sequence};

// Whether record k of n has its list or body out of place: it begins where those before it end, lies within the section, and the last ends it.
#[tactic(auto, unfolding(rules::specs::Layout::in_sequence))]
pub(crate) fn misplaced(
    start: usize,
    size: usize,
    before: usize,
    end: usize,
    n: usize,
    k: usize,
) -> bool
    requires start_bound { start < 65536 }
    requires size_bound { size < 65536 }
    requires k_lt_n { k < n }
    ensures { result ≡ not (in_sequence start size before n end k) }
{
    start != before || end < start + size || n <= k + 1 && start + size != end
}
