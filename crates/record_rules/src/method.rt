// The rule of a method record.
ghost use Rattle.std.specs.Prelude.{◌≡◌, not, ◌<◌};
ghost use Rattle.rules.specs.Bounded.{sum};
ghost use Rattle.rules.specs.Layout.{body_length, method_rule};
ghost use Rattle.record_rules.specs.Tests.{body_rule};

use crate::sequence::misplaced;
use crate::tuple::tuple_breaks;
use layout::open::Records;

// Whether the body of method m is out of place, where the bodies before it end at `before`, or is not of 2 to 128 bytes, an even number.
fn body_breaks(records: &Records<'_>, m: usize, before: usize) -> bool
    requires m_lt_methods { m < records.now.tables.methods }
    requires before_value { before ≡ sum (body_length records.now.bytes.now) m }
    ensures { result ≡ not (body_rule records.now.bytes.now m) }
{
    let tables = &records.tables;
    let start = records.body_offset(m);
    let size = records.body_length(m);
    misplaced(start, size, before, tables.code_len, tables.methods, m)
        || size < 2
        || 128 < size
        || size % 2 != 0
}

// Whether method m breaks its rule, where the bodies before its own end at `before`.
#[tactic(auto, unfolding(rules::specs::Layout::method_rule, rules::specs::Layout::specialiser_tuple_of, rules::specs::Layout::declared_tuple_of))]
pub fn method_breaks(records: &Records<'_>, m: usize, before: usize) -> bool
    requires m_lt_methods { m < records.now.tables.methods }
    requires before_value { before ≡ sum (body_length records.now.bytes.now) m }
    ensures { result ≡ not (method_rule records.now.bytes.now m) }
{
    let f = records.function(m);
    if records.tables.functions <= f {
        return true;
    }
    let n = records.arity(f);
    let classes = records.tables.classes;
    tuple_breaks(records.bytes, records.specialiser_tuple_at(m), n, classes)
        || tuple_breaks(records.bytes, records.declared_tuple_at(m), n, classes)
        || classes <= records.result(m)
        || body_breaks(records, m, before)
}
