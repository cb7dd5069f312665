// Opening: the rules in the order of their numbers.
ghost use Rattle.std.specs.Prelude.{◌≡◌, ◌<◌, IfOk};
ghost use Rattle.answers.specs.declared.opening.Rule.TheVariants.{Code};
ghost use Rattle.answers.specs.Opening.{said, TablesOf, Opens};
ghost use Rattle.bundle_rules.specs.Tables.{tables_of};
ghost use Rattle.bundle_rules.specs.Rules.{order, opening_by};

use crate::lowest::lowest_broken;
use answers::opening::{LayoutFinding, Rule};
use directory_rules::directory::directory_holds;
use directory_rules::limits::{size_holds, within_limits};
use layout::bundle::Bundle;
use layout::open::{OpenBundle, Records};
use twin_rule::chain::ChainedRecords;

// The rules on records, in the order in which they are tried.
const ORDER: [Rule; 6] = [
    Rule::Class,
    Rule::Function,
    Rule::Signature,
    Rule::Method,
    Rule::Twin,
    Rule::Code,
];

// Numbers 4 to 9: each rule is decided for all its records before the next.
fn records_opening(records: &Records<'_>) -> Result<Bundle, LayoutFinding>
    ensures { (said result ≡ opening_by order records.now.bytes.now) × TablesOf records.now.bytes.now result }
{
    let chained = ChainedRecords::new(records);
    for rule in ORDER {
        if let Some(k) = lowest_broken(&chained, rule) {
            return Err(LayoutFinding::Record(rule, k));
        }
    }
    Ok(records.tables)
}

// The opened bundle, or the first of the rules 1 to 9 that the bytes break. The chains of twins are gone from the stack before the bundle is used.
#[inline(never)]
pub fn open(bytes: &[u8]) -> Result<OpenBundle<'_>, LayoutFinding>
    ensures opens { Opens bytes.now (tables_of result) }
    ensures same_bytes { IfOk result (λ b. b.bytes ≡ bytes.entry) }
{
    if !size_holds(bytes) {
        return Err(LayoutFinding::Length);
    }
    if !directory_holds(bytes) {
        return Err(LayoutFinding::Directory);
    }
    let tables = Bundle::of_directory(bytes);
    if !within_limits(bytes, tables) {
        return Err(LayoutFinding::Counts);
    }
    let tables = records_opening(&Records { bytes, tables })?;
    Ok(OpenBundle { bytes, tables })
}
