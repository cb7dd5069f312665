// The search for the lowest record that breaks a rule. It goes through the records once, and carries from each to the next where the lists or bodies so far end.
ghost use Rattle.std.specs.Prelude.{◌≡◌, not, ◌+◌, ◌*◌, ◌<◌, ◌≤◌};
ghost use Rattle.rules.specs.Bounded.{sum};
ghost use Rattle.bundle_rules.specs.Rules.{lowest_of, lowest_broken, rule_of, count_of, size_of, Presumed};

use answers::opening::Rule;
use layout::open::Records;
use record_rules::class::class_breaks;
use record_rules::code::code_breaks;
use record_rules::function::function_breaks;
use record_rules::method::method_breaks;
use record_rules::signature::signature_breaks;
use twin_rule::chain::ChainedRecords;

// How many records the rule is for.
fn record_count(records: &Records<'_>, rule: Rule) -> usize
    ensures { result ≡ count_of rule records.now.bytes.now }
{
    match rule {
        Rule::Class => records.tables.classes,
        Rule::Function => records.tables.functions,
        Rule::Signature => records.tables.signatures,
        Rule::Method | Rule::Twin | Rule::Code => records.tables.methods,
    }
}

// Whether record k breaks the rule, where the lists or bodies before its own end at `end`.
fn record_breaks(chained: &ChainedRecords<'_>, rule: Rule, k: usize, end: usize) -> bool
    requires presumed { Presumed rule chained.now.records.bytes.now }
    requires k_bound { k < count_of rule chained.now.records.bytes.now }
    requires end_value { end ≡ sum (size_of rule chained.now.records.bytes.now) k }
    ensures { result ≡ not (rule_of rule chained.now.records.bytes.now k) }
{
    let records = &chained.records;
    match rule {
        Rule::Class => class_breaks(records, k, end),
        Rule::Function => function_breaks(records, k),
        Rule::Signature => signature_breaks(records, k),
        Rule::Method => method_breaks(records, k, end),
        Rule::Twin => chained.has_twin(k),
        Rule::Code => code_breaks(records, k),
    }
}

// How many bytes the list or body of record k has, where the rule is about one.
fn list_or_body_length(records: &Records<'_>, rule: Rule, k: usize) -> usize
    requires { k < count_of rule records.now.bytes.now }
    ensures { (result ≡ size_of rule records.now.bytes.now k) × (result < 65536) }
{
    match rule {
        Rule::Class => records.parent_count(k),
        Rule::Method => records.body_length(k),
        Rule::Function | Rule::Signature | Rule::Twin | Rule::Code => 0,
    }
}

// The running end past record k, from the one at it: where the lists or bodies of the first k + 1 records end.
#[tactic(auto, using(rules::proofs::Running::sum_next))]
fn advanced(records: &Records<'_>, rule: Rule, k: usize, end: usize) -> usize
    requires k_bound { k < count_of rule records.now.bytes.now }
    requires end_value { (end ≡ sum (size_of rule records.now.bytes.now) k) × (end ≤ 65535 * k) }
    ensures { (result ≡ sum (size_of rule records.now.bytes.now) (k + 1)) × (result ≤ 65535 * (k + 1)) }
{
    end + list_or_body_length(records, rule, k)
}

// The lowest record that breaks the rule.
pub(crate) fn lowest_broken(chained: &ChainedRecords<'_>, rule: Rule) -> Option<usize>
    requires { Presumed rule chained.now.records.bytes.now }
    ensures { lowest_of result ≡ lowest_broken rule chained.now.records.bytes.now }
{
    let records = &chained.records;
    let mut end = 0;
    for k in 0..record_count(records, rule) {
        if record_breaks(chained, rule, k, end) {
            return Some(k);
        }
        end = advanced(records, rule, k, end);
    }
    None
}
