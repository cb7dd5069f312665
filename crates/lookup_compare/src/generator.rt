// Numbers that look drawn by chance and are the same in every run.
ghost use Rattle.std.specs.Prelude.{◌<◌};

// A number below the limit. The state goes through the numbers of 32 bits, and its upper half is used, since the lower bits soon repeat.
pub(crate) fn draw(state: &mut u64, limit: usize) -> usize
    requires { 0 < limit }
    ensures { result < limit }
{
    let next = (*state % 4294967296 * 1664525 + 1013904223) % 4294967296;
    *state = next;
    (next / 65536) as usize % limit
}

// Whether a chance of one in so many comes up.
pub(crate) fn comes_up(state: &mut u64, chance: usize) -> bool
    requires { 0 < chance }
{
    draw(state, chance) == 0
}
