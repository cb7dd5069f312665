// The directory of a bundle (M 2.2): for each section, where it begins and how long it is.
ghost use Rattle.std.specs.Prelude.{◌≡◌, ◌<◌, ◌≤◌, length};
ghost use Rattle.rules.specs.Layout.{offset, extent};

use crate::bytes::word_at;

// The sections, in their order.
pub const CLASS_SECTION: usize = 0;

pub const PARENT_SECTION: usize = 1;

pub const FUNCTION_SECTION: usize = 2;

pub const SIGNATURE_SECTION: usize = 3;

pub const METHOD_SECTION: usize = 4;

pub const CODE_SECTION: usize = 5;

// Where section k begins.
#[tactic(auto, unfolding(rules::specs::Layout::offset))]
pub fn section_at(bytes: &[u8], k: usize) -> usize
    requires in_bounds { 24 ≤ length bytes.now }
    requires k_bound { k < 6 }
    ensures { (result ≡ offset bytes.now k) × (result < 65536) }
{
    word_at(bytes, 4 * k)
}

// How many bytes section k has.
#[tactic(auto, unfolding(rules::specs::Layout::extent))]
pub fn section_len(bytes: &[u8], k: usize) -> usize
    requires in_bounds { 24 ≤ length bytes.now }
    requires k_bound { k < 6 }
    ensures { (result ≡ extent bytes.now k) × (result < 65536) }
{
    word_at(bytes, 4 * k + 2)
}
