// Counts in a lent array.
ghost use Rattle.std.specs.Prelude.{◌≡◌};
ghost use Rattle.test_support.specs.Support.{raised};

// Raises a count by one. No run comes near the end of these counts, and a count that is not there is left out.
pub fn add_one(counts: &mut [u64], k: usize)
    ensures { counts.new ≡ raised k counts.old }
{
    if k < counts.len() {
        counts[k] = counts[k].wrapping_add(1);
    }
}
