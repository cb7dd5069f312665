// The rule of a class record: its kind, and a list of lower parents that rises.
ghost use Rattle.std.specs.Prelude.{◌≡◌, not, ◌+◌, ◌<◌, ◌≤◌, length};
ghost use Rattle.rules.specs.Bounded.{sum};
ghost use Rattle.rules.specs.Bytes.{part};
ghost use Rattle.rules.specs.Layout.{list_length, class_rule};
ghost use Rattle.record_rules.specs.Tests.{from, parent_rule, parents_rule};

use crate::sequence::misplaced;
use layout::bytes::byte_at;
use layout::open::Records;

// Whether parent i is not below class c, or not above the parent before it.
#[tactic(auto, unfolding(crate::specs::Tests::parent_rule))]
fn parent_breaks(bytes: &[u8], at: usize, c: usize, i: usize) -> bool
    requires { at + i < length bytes.now }
    ensures { result ≡ not (parent_rule (from bytes.now at) c i) }
{
    let p = byte_at(bytes, at + i);
    c <= p || i != 0 && p <= byte_at(bytes, at + (i - 1))
}

// Whether one of the parents from byte `at` on breaks the rule.
fn parents_break(bytes: &[u8], at: usize, size: usize, c: usize) -> bool
    requires { at + size ≤ length bytes.now }
    ensures { result ≡ not (parents_rule c (part bytes.now at size)) }
{
    for i in 0..size {
        if parent_breaks(bytes, at, c, i) {
            return true;
        }
    }
    false
}

// Whether class c breaks its rule, where the lists before its own end at `before`.
#[tactic(auto, unfolding(rules::specs::Layout::class_rule, rules::specs::Layout::parents_of))]
pub fn class_breaks(records: &Records<'_>, c: usize, before: usize) -> bool
    requires c_lt_classes { c < records.now.tables.classes }
    requires before_value { before ≡ sum (list_length records.now.bytes.now) c }
    ensures { result ≡ not (class_rule records.now.bytes.now c) }
{
    let tables = &records.tables;
    let start = records.list_offset(c);
    let size = records.parent_count(c);
    1 < records.kind(c)
        || records.filler(c) != 0
        || misplaced(start, size, before, tables.parent_len, tables.classes, c)
        || parents_break(records.bytes, tables.parent_at + start, size, c)
        || (c == 0) != (size == 0)
}
