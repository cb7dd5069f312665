// Sets of methods as words of bits. A method's bit is its position in an order of the bundle's methods; a table holds a set for each place and class.
ghost use Rattle.std.specs.Prelude.{◌≡◌, ◌&&◌, ◌+◌, ◌*◌, ◌<◌, ◌≤◌, ◌^◌, length};
ghost use Rattle.rules.specs.Layout.{places, max_classes, max_methods};
ghost use Rattle.rules.specs.Bits.{bit, in_set};
ghost use Rattle.method_sets.specs.Sets.{set_words, table_words, row_at, SetAt, Decides, SamePositions, Within, SameWithin, FirstIn};

use layout::bundle::Bundle;

pub(crate) const WORD_BITS: usize = 64;

// The words of a set.
pub const WORDS: usize = Bundle::METHODS / WORD_BITS;

// The words of the sets of one place, and of a table.
const PLACE_WORDS: usize = Bundle::CLASSES * WORDS;

pub const TABLE_WORDS: usize = Bundle::PLACES * PLACE_WORDS;

// Where a table has the set of a place and a class.
pub fn row_at(place: usize, k: usize) -> usize
    requires place_lt_places { place < places }
    requires k_lt_max_classes { k < max_classes }
    ensures { (result ≡ row_at place k) × (result + set_words ≤ table_words) }
{
    PLACE_WORDS * place + WORDS * k
}

// A word with one bit more below its own.
pub(crate) fn doubled(bits: u64, low: bool) -> u64
    requires { bits < 2 ^ 63 }
    ensures { result ≡ bits * 2 + bit low }
{
    bits * 2 + u64::from(low)
}

// Where the positions of a word end that begin at one and are below n.
pub(crate) fn word_end(start: usize, n: usize) -> usize
    requires { start < max_methods }
    ensures { (start ≤ result) × (result ≤ start + 64) × (start < result → result ≤ n) × (result < start + 64 → n ≤ result) }
{
    n.clamp(start, start + WORD_BITS)
}

// The positions of a set that are also in the set of a table that begins at a word.
pub fn both(set: &[u64; WORDS], table: &[u64; TABLE_WORDS], at: usize) -> [u64; WORDS]
    requires { at + set_words ≤ table_words }
    ensures { SetAt result 0 (λ i. in_set set.now 0 i && in_set table.now at i) }
{
    let mut part = [0u64; WORDS];
    for w in 0..WORDS {
        part[w] = set[w] & table[at + w];
    }
    part
}

// Whether two sets have the same positions of a third, each from a word of its list on.
fn same_positions(set: &[u64], xs: &[u64], a: usize, ys: &[u64], b: usize) -> bool
    requires set_words_in_bounds { set_words ≤ length set.now }
    requires set_words_in_bounds_2 { (a + set_words ≤ length xs.now) × (a + set_words ≤ table_words) }
    requires set_words_in_bounds_3 { (b + set_words ≤ length ys.now) × (b + set_words ≤ table_words) }
    ensures { Decides result (SamePositions set.now xs.now a ys.now b) }
{
    for w in 0..WORDS {
        if set[w] & xs[a + w] != set[w] & ys[b + w] {
            return false;
        }
    }
    true
}

// Whether the set of a table that begins at a word has every position of a set.
pub fn within(set: &[u64; WORDS], table: &[u64; TABLE_WORDS], at: usize) -> bool
    requires { at + set_words ≤ table_words }
    ensures { Decides result (Within set.now table.now at) }
{
    same_positions(set, table, at, set, 0)
}

// Whether two sets of a table have the same positions of a set.
pub fn same_within(set: &[u64; WORDS], table: &[u64; TABLE_WORDS], a: usize, b: usize) -> bool
    requires set_words_bound { a + set_words ≤ table_words }
    requires set_words_bound_2 { b + set_words ≤ table_words }
    ensures { Decides result (SameWithin set.now table.now a b) }
{
    same_positions(set, table, a, table, b)
}

// The first position of a set, if it has one.
pub fn first_position(set: &[u64; WORDS]) -> Option<usize>
    ensures { FirstIn set.now result }
{
    for w in 0..WORDS {
        let bit = set[w].trailing_zeros() as usize;
        if bit < WORD_BITS {
            return Some(WORD_BITS * w + bit);
        }
    }
    None
}
