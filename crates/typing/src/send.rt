// The type of a send whose arguments' types stand in rows, row i that of argument i.
ghost use Rattle.std.specs.Prelude.{◌≡◌, ◌<◌, ◌≤◌, length};
ghost use Rattle.rules.specs.Types.{send_type};
ghost use Rattle.rules.specs.Calls.{row_bytes, licensed, row_on};
ghost use Rattle.layout.specs.Bundles.{model};
ghost use Rattle.subclasses.specs.Places.{Arguments};
ghost use Rattle.typing.specs.Rows.{class_types};
ghost use Rattle.typing.specs.Sends.{inhabited, Licensed, Sent};

use crate::row::{ROW_BYTES, Row, class_rows, join};
use layout::open::OpenBundle;
use subclasses::prepared::PreparedBundle;

// Whether signature s is of function f and licenses the send.
fn licenses(bundle: &OpenBundle<'_>, rows: &[Row], f: usize, s: usize) -> bool
    requires f_lt_functions { f < bundle.now.tables.functions }
    requires s_lt_signatures { s < bundle.now.tables.signatures }
    requires rows_length { length rows.now ≡ (model bundle.now).arity f }
    ensures { Licensed (model bundle.now) rows.now f s result }
{
    if bundle.sig_function(s) != f {
        return false;
    }
    for (i, row) in rows.iter().enumerate() {
        let c = bundle.sig_arg(s, i);
        if row[c] == 0 {
            return false;
        }
    }
    true
}

// The send's row, the union over all signatures that license it, if there is one.
pub(crate) fn send_row(prepared: &PreparedBundle<'_>, rows: &[Row], f: usize) -> Option<Row>
    requires f_lt_functions { f < prepared.now.bundle.tables.functions }
    requires rows_length { length rows.now ≡ (model prepared.now.bundle).arity f }
    ensures { Sent (model prepared.now.bundle) rows.now f result }
{
    let bundle = &prepared.bundle;
    let mut sent = None;
    for s in 0..bundle.tables.signatures {
        if licenses(bundle, rows, f, s) {
            let row = sent.get_or_insert([0; ROW_BYTES]);
            join(prepared, bundle.sig_result(s), row);
        }
    }
    sent
}

// Writes the row of the type of a send of f with arguments of these classes, and says that it did: not where no signature licenses it.
pub fn send_type(prepared: &PreparedBundle<'_>, f: usize, args: &[u8], row: &mut [u8]) -> bool
    requires arguments { Arguments (model prepared.now.bundle) f args.now }
    requires row_bytes_in_bounds { row_bytes ≤ length row.old }
    ensures value { result ≡ inhabited (send_type (model prepared.now.bundle) f (class_types args.now)) }
    ensures row_after { let M = model prepared.now.bundle in row.new ≡ row_on (licensed (send_type M f (class_types args.now))) M row.old }
{
    let rows = class_rows(prepared, args);
    match send_row(prepared, rows.as_slice(), f) {
        Some(sent) => {
            row[..ROW_BYTES].copy_from_slice(&sent);
            true
        }
        None => false,
    }
}
