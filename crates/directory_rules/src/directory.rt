// The rules of the directory.
ghost use Rattle.std.specs.Prelude.{◌≡◌, ◌&&◌, ◌≤◌, length};
ghost use Rattle.rules.specs.Bounded.{upto, every};
ghost use Rattle.rules.specs.Layout.{code_section, chain_rule, whole_rule};
ghost use Rattle.directory_rules.specs.Directory.{next_rule};

use layout::bundle::Bundle;
use layout::directory::{
    CLASS_SECTION, CODE_SECTION, METHOD_SECTION, SIGNATURE_SECTION, section_at, section_len,
};

// Whether each section begins where the one before it ends.
#[tactic(auto, unfolding(rules::specs::Layout::section_end))]
fn joined(bytes: &[u8]) -> bool
    requires { 24 ≤ length bytes.now }
    ensures { result ≡ every (next_rule bytes.now) (upto code_section) }
{
    for k in 0..CODE_SECTION {
        if section_at(bytes, k + 1) != section_at(bytes, k) + section_len(bytes, k) {
            return false;
        }
    }
    true
}

// Whether the sections follow each other from byte 24 to the bundle's end.
#[tactic(auto, unfolding(rules::specs::Layout::chain_rule, rules::specs::Layout::section_end))]
fn chained(bytes: &[u8]) -> bool
    requires { 24 ≤ length bytes.now }
    ensures { result ≡ chain_rule bytes.now }
{
    section_at(bytes, CLASS_SECTION) == 24
        && joined(bytes)
        && section_at(bytes, CODE_SECTION) + section_len(bytes, CODE_SECTION) == bytes.len()
}

// Whether classes, signatures, methods and instructions are whole records, and there is no code without methods.
#[tactic(auto, unfolding(rules::specs::Layout::whole_rule))]
fn whole(bytes: &[u8]) -> bool
    requires { 24 ≤ length bytes.now }
    ensures { result ≡ whole_rule bytes.now }
{
    let methods = section_len(bytes, METHOD_SECTION);
    let code = section_len(bytes, CODE_SECTION);
    section_len(bytes, CLASS_SECTION) % Bundle::CLASS_BYTES == 0
        && section_len(bytes, SIGNATURE_SECTION) % Bundle::SIGNATURE_BYTES == 0
        && methods % Bundle::METHOD_BYTES == 0
        && code % 2 == 0
        && (0 < methods || code == 0)
}

// Number 2: whether the directory's sections follow each other and hold whole records.
pub fn directory_holds(bytes: &[u8]) -> bool
    requires { 24 ≤ length bytes.now }
    ensures { result ≡ (chain_rule bytes.now && whole_rule bytes.now) }
{
    chained(bytes) && whole(bytes)
}
