// One line of the chart, in a lent buffer.
ghost use Rattle.std.specs.Prelude.{◌≡◌, ◌++◌, ◌+◌, ◌≤◌, length, take, drop};
ghost use Rattle.rules.specs.Chart.{cell, columns, line_bytes, chart_line, chart_in, line_on};
ghost use Rattle.layout.specs.Bundles.{model};
ghost use Rattle.chart_line.specs.declared.line.ChartError.TheVariants.{Refused};
ghost use Rattle.chart_line.specs.Charted.{Charted, chart_said, length_said};

use crate::cell::{cell, heading};
use crate::concrete::concrete_classes;
use answers::refusal::Refusal;
use dispatch::index::IndexedBundle;
use subclasses::prepared::PreparedBundle;

// 18 or an earlier number; 21; 22; or 23.
#[derive(Clone, Copy)]
pub enum ChartError {
    Refused(Refusal),
    NotBinary,
    NoLine,
    Short,
}

impl From<Refusal> for ChartError {
    ghost from_gives = { λ refusal e. e ≡ Refused refusal };

    fn from(refusal: Refusal) -> ChartError {
        ChartError::Refused(refusal)
    }
}

// Writes a piece of the line.
fn put(line: &mut [u8], at: usize, piece: &[u8])
    requires { at + length piece.now ≤ length line.old }
    ensures { line.new ≡ take at line.old ++ piece.now ++ drop (at + length piece.now) line.old }
{
    let end = at + piece.len();
    line[at..end].copy_from_slice(piece);
}

// Writes the columns of line k, behind its heading.
fn put_columns(indexed: &IndexedBundle<'_>, f: usize, classes: &[u8], k: usize, line: &mut [u8])
    requires charted { Charted (model indexed.now.prepared.bundle) f classes.now k }
    requires bundle_in_bounds { line_bytes (model indexed.now.prepared.bundle) ≤ length line.old }
    ensures { let text = columns (cell (model indexed.now.prepared.bundle) f k) classes.now in line.new ≡ take 4 line.old ++ text ++ drop (4 + length text) line.old }
{
    for i in 0..classes.len() {
        let at = 4 + 5 * i;
        put(line, at, b" ");
        put(line, at + 1, &cell(indexed, f, classes, k, i));
    }
}

// Writes line k of the chart of function f.
fn put_line(prepared: &PreparedBundle<'_>, f: usize, classes: &[u8], k: usize, line: &mut [u8])
    requires charted { Charted (model prepared.now.bundle) f classes.now k }
    requires bundle_in_bounds { line_bytes (model prepared.now.bundle) ≤ length line.old }
    ensures { let text = chart_line (model prepared.now.bundle) f k in line.new ≡ text ++ drop (length text) line.old }
{
    let indexed = IndexedBundle::new(prepared);
    put(line, 0, &heading(classes, k));
    put_columns(&indexed, f, classes, k, line);
    put(line, 4 + 5 * classes.len(), b"\n");
}

// Line k of the chart of function f, at the start of the lent buffer: how many bytes it has.
pub fn chart_in(
    prepared: &PreparedBundle<'_>,
    f: usize,
    k: usize,
    line: &mut [u8],
) -> Result<usize, ChartError>
    ensures result_value { chart_said result ≡ length_said (chart_in (length line.old) f k (model prepared.now.bundle)) }
    ensures line_after { line.new ≡ line_on (chart_in (length line.old) f k (model prepared.now.bundle)) line.old }
{
    let bundle = &prepared.bundle;
    if bundle.tables.functions <= f {
        return Err(ChartError::Refused(Refusal::Absent));
    }
    if bundle.arity(f) != 2 {
        return Err(ChartError::NotBinary);
    }
    let all = concrete_classes(bundle);
    let classes = all.as_slice();
    let n = classes.len();
    if n < k {
        return Err(ChartError::NoLine);
    }
    let bytes = 5 + 5 * n;
    if line.len() < bytes {
        return Err(ChartError::Short);
    }
    put_line(prepared, f, classes, k, line);
    Ok(bytes)
}
