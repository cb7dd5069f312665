// The rule of a body's instructions.
ghost use Rattle.std.specs.Prelude.{◌≡◌, not, true, ◌+◌, ◌*◌, ◌<◌, ◌≤◌, length};
ghost use Rattle.rules.specs.Bytes.{part};
ghost use Rattle.rules.specs.Layout.{every_pair, method_rule, code_rule};
ghost use Rattle.record_rules.specs.Tests.{from, pair_rule, Limits, by_limits};

use layout::bytes::byte_at;
use layout::open::Records;

// What an operand stays below: an entry for each of the four operations, and one for all others, which have no lawful operand.
const OTHERS: usize = 4;

// Whether the operation is unknown, or its operand is no argument place, no class or no function, or not the 0 of a resend. An unknown one is told by itself: to
// read the entry of all others for it would make each instruction of a large bundle wait for the choice of an entry.
fn instruction_breaks(limits: &[usize], operation: usize, operand: usize) -> bool
    requires { Limits limits.now }
    ensures { result ≡ not (by_limits limits.now operation operand) }
{
    OTHERS <= operation || limits[operation] <= operand
}

// Whether instruction i of the code from byte `at` on breaks the rule.
fn pair_breaks(bytes: &[u8], limits: &[usize], at: usize, i: usize) -> bool
    requires limits { Limits limits.now }
    requires i_in_bounds { at + 2 * i + 1 < length bytes.now }
    ensures { result ≡ not (pair_rule (from bytes.now at) (by_limits limits.now) i) }
{
    let operation = byte_at(bytes, at + 2 * i);
    let operand = byte_at(bytes, at + (2 * i + 1));
    instruction_breaks(limits, operation, operand)
}

// Whether one of `count` instructions from byte `at` on breaks the rule.
fn pairs_break(bytes: &[u8], limits: &[usize], at: usize, count: usize) -> bool
    requires limits { Limits limits.now }
    requires count_in_bounds { at + 2 * count ≤ length bytes.now }
    ensures { result ≡ not (every_pair (by_limits limits.now) (part bytes.now at (2 * count))) }
{
    for i in 0..count {
        if pair_breaks(bytes, limits, at, i) {
            return true;
        }
    }
    false
}

// Whether an instruction of method m, which keeps its own rule, breaks the rule.
pub fn code_breaks(records: &Records<'_>, m: usize) -> bool
    requires m_lt_methods { m < records.now.tables.methods }
    requires m_value { method_rule records.now.bytes.now m ≡ true }
    ensures { result ≡ not (code_rule records.now.bytes.now m) }
{
    let tables = &records.tables;
    let n = records.arity(records.function(m));
    let start = records.body_offset(m);
    let size = records.body_length(m);
    let limits = [n, tables.classes, tables.functions, 1, 0];
    pairs_break(records.bytes, &limits, tables.code_at + start, size / 2)
}
