// Ancestry by following the parents of a class, and theirs.
ghost use Rattle.std.specs.Prelude.{◌<◌};

use crate::record::{parent, parent_count};

// The most classes that a bundle may have, and the bytes of a set of them: a bit for each class, the lowest first.
pub(crate) const CLASSES: usize = 128;

pub(crate) const ROW: usize = 16;

fn has(set: &[u8; ROW], class: usize) -> bool
    requires { class < 128 }
{
    (set[class / 8] >> (class % 8)) & 1 == 1
}

fn add(set: &mut [u8; ROW], class: usize)
    requires { class < 128 }
{
    set[class / 8] = set[class / 8] | (1 << (class % 8));
}

fn add_parents(bundle: &[u8], class: usize, set: &mut [u8; ROW])
    requires { class < 128 }
{
    let count = parent_count(bundle, class);
    for i in 0..count {
        let above = parent(bundle, class, i);
        if above < CLASSES {
            add(set, above);
        }
    }
}

// The classes that the given one is under. The number of a parent is lower than its class's, so that a class of the set is added before its own parents are.
pub(crate) fn all_above(bundle: &[u8], class: usize) -> [u8; ROW] {
    let mut set = [0u8; ROW];
    if class >= CLASSES {
        return set;
    }
    add(&mut set, class);
    for under in (0..class + 1).rev() {
        if has(&set, under) {
            add_parents(bundle, under, &mut set);
        }
    }
    set
}

pub(crate) fn is_under(bundle: &[u8], class: usize, other: usize) -> bool {
    if other >= CLASSES {
        return false;
    }
    has(&all_above(bundle, class), other)
}

// How a class stands to another, by the numbers of a reply.
pub(crate) const NEITHER: usize = 0;

pub(crate) const SAME: usize = 1;

pub(crate) const HEIR: usize = 2;

pub(crate) fn standing(bundle: &[u8], class: usize, other: usize) -> usize {
    if class == other {
        return SAME;
    }
    if is_under(bundle, class, other) {
        return HEIR;
    }
    NEITHER
}
