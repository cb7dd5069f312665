// What ancestry and lookup need of the records, read straight from the bytes.
ghost use Rattle.std.specs.Prelude.{◌<◌, ◌≤◌};

use test_support::buffer::byte;

// The two-byte number at a place. No place of a bundle comes near the limit.
fn word(bundle: &[u8], at: usize) -> usize
    requires { at < 1048576 }
    ensures { result < 65536 }
{
    byte(bundle, at) + 256 * byte(bundle, at + 1)
}

fn section_at(bundle: &[u8], k: usize) -> usize
    requires { k < 6 }
    ensures { result < 65536 }
{
    word(bundle, 4 * k)
}

fn section_len(bundle: &[u8], k: usize) -> usize
    requires { k < 6 }
    ensures { result < 65536 }
{
    word(bundle, 4 * k + 2)
}

pub(crate) fn class_count(bundle: &[u8]) -> usize {
    section_len(bundle, 0) / 6
}

pub(crate) fn function_count(bundle: &[u8]) -> usize
    ensures { result < 65536 }
{
    section_len(bundle, 2)
}

// The most methods that a bundle may have.
pub(crate) const METHODS: usize = 512;

pub(crate) fn method_count(bundle: &[u8]) -> usize
    ensures { result ≤ 512 }
{
    let count = section_len(bundle, 4) / 12;
    if count > METHODS {
        return METHODS;
    }
    count
}

pub(crate) fn parent_count(bundle: &[u8], class: usize) -> usize
    requires { class < 65536 }
    ensures { result < 65536 }
{
    word(bundle, section_at(bundle, 0) + 6 * class + 4)
}

// The i-th parent of a class.
pub(crate) fn parent(bundle: &[u8], class: usize, i: usize) -> usize
    requires class_bound { class < 65536 }
    requires i_bound { i < 65536 }
    ensures { result < 256 }
{
    let first = word(bundle, section_at(bundle, 0) + 6 * class + 2);
    byte(bundle, section_at(bundle, 1) + first + i)
}

pub(crate) fn arity(bundle: &[u8], function: usize) -> usize
    requires { function < 65536 }
{
    byte(bundle, section_at(bundle, 2) + function)
}

// Byte `at` of a method record.
fn method_byte(bundle: &[u8], method: usize, at: usize) -> usize
    requires method_bound { method < 65536 }
    requires at_bound { at < 12 }
    ensures { result < 256 }
{
    byte(bundle, section_at(bundle, 4) + 12 * method + at)
}

pub(crate) fn function_of(bundle: &[u8], method: usize) -> usize
    requires { method < 65536 }
{
    method_byte(bundle, method, 0)
}

// A class for each of the three places.
#[derive(Clone, Copy)]
pub(crate) struct Places {
    pub(crate) p0: usize,
    pub(crate) p1: usize,
    pub(crate) p2: usize,
}

pub(crate) fn specialisers(bundle: &[u8], method: usize) -> Places
    requires { method < 65536 }
{
    Places {
        p0: method_byte(bundle, method, 1),
        p1: method_byte(bundle, method, 2),
        p2: method_byte(bundle, method, 3),
    }
}
