// Sets of classes as words of bits: bit c mod 64, the lowest first, of word c / 64 is 1 when the set has class c.
ghost use Rattle.std.specs.Prelude.{◌≡◌, ◌||◌, ℕ, ◌<◌, eqb};
ghost use Rattle.rules.specs.Layout.{max_classes};
ghost use Rattle.inheritance.specs.Rows.{has_class};

use layout::bundle::Bundle;

const WORD_BITS: usize = 64;

// The words of a set.
const WORDS: usize = Bundle::CLASSES / WORD_BITS;

#[derive(Clone, Copy)]
pub struct ClassSet {
    pub words: [u64; WORDS],
}

impl ClassSet {
    // The set of no class.
    pub const EMPTY: ClassSet = ClassSet { words: [0; WORDS] };

    // The set that has class a alone.
    pub fn only(a: usize) -> ClassSet
        requires { a < max_classes }
        ensures { (c : ℕ) → c < max_classes → has_class result c ≡ eqb a c }
    {
        let mut words = [0; WORDS];
        words[a / WORD_BITS] = 1 << (a % WORD_BITS);
        ClassSet { words }
    }

    // The classes of either set.
    pub fn union(self, other: ClassSet) -> ClassSet
        ensures { (c : ℕ) → c < max_classes → has_class result c ≡ (has_class self c || has_class other c) }
    {
        let [a, b] = self.words;
        let [x, y] = other.words;
        ClassSet {
            words: [a | x, b | y],
        }
    }

    // Whether the set has class c.
    pub fn has(self, c: usize) -> bool
        requires { c < max_classes }
        ensures { result ≡ has_class self c }
    {
        (self.words[c / WORD_BITS] >> (c % WORD_BITS)) % 2 == 1
    }
}
