// How a byte, a two-byte number and a part of a bundle are read.
ghost use Rattle.std.specs.Prelude.{◌≡◌, ◌+◌, ◌<◌, ◌≤◌, length, get_or};
ghost use Rattle.rules.specs.Bytes.{byte, word, part};

// The byte at a place.
#[tactic(auto, unfolding(rules::specs::Bytes::byte))]
pub fn byte_at(bytes: &[u8], at: usize) -> usize
    requires { at < length bytes.now }
    ensures { (result ≡ byte bytes.now at) × (result < 256) }
{
    usize::from(bytes[at])
}

// The two-byte number at a place, its low byte first.
#[tactic(auto, unfolding(rules::specs::Bytes::word))]
pub fn word_at(bytes: &[u8], at: usize) -> usize
    requires { at + 1 < length bytes.now }
    ensures { (result ≡ word bytes.now at) × (result < 65536) }
{
    byte_at(bytes, at) + 256 * byte_at(bytes, at + 1)
}

// The class at a place, 0 past the end.
#[tactic(auto, unfolding(rules::specs::Bytes::byte))]
pub fn class_at(classes: &[u8], place: usize) -> usize
    ensures { (result ≡ get_or classes.now place 0) × (result < 256) }
{
    if classes.len() <= place {
        return 0;
    }
    byte_at(classes, place)
}

// The n bytes from a place on. Two parts may be equal, so the contract gives the part's place beside its contents.
#[tactic(auto, unfolding(rules::specs::Bytes::part))]
pub fn part<'a>(bytes: &'a [u8], at: usize, n: usize) -> &'a [u8]
    requires { at + n ≤ length bytes.now }
    ensures ref_ptr_value { result.ref_ptr ≡ (bytes.entry.ref_ptr.0, at + bytes.entry.ref_ptr.1) }
    ensures result_value { result.now ≡ part bytes.now at n }
{
    let end = at + n;
    &bytes[at..end]
}
