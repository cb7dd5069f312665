// The search for a broken signature. One that an earlier signature implies is passed over: it is broken only where that one is.
ghost use Rattle.std.specs.Prelude.{◌≡◌, ◌<◌};
ghost use Rattle.std.proofs.Math.Option.{some};
ghost use Rattle.rules.specs.Coverage.{broken_tuple, broken_signature, tuple_verdict};
ghost use Rattle.layout.specs.Bundles.{model};
ghost use Rattle.answers.specs.Findings.{verdict_said};
ghost use Rattle.tuple_search.specs.Searches.{searched};
ghost use Rattle.coverage.specs.Signatures.{signature_verdict};

use answers::finding::{CoverageFinding, Finding};
use answers::send::Send;
use coverage_rule::implied::implied;
use coverage_rule::judge::judge_found;
use dispatch::index::IndexedBundle;
use method_sets::order::order_methods;
use method_sets::sets::TABLE_WORDS;
use method_sets::table::MethodClass;
use subclasses::prepared::PreparedBundle;
use tuple_search::question::Question;
use tuple_search::tables::Search;

// The verdict on signature s, whose first broken tuple the arguments are.
fn broken_by(indexed: &IndexedBundle<'_>, s: usize, args: &[u8]) -> Result<(), Finding>
    requires s_lt_signatures { s < indexed.now.prepared.bundle.tables.signatures }
    requires first_broken { broken_tuple (model indexed.now.prepared.bundle) s ≡ some args.now }
    ensures { let M = model indexed.now.prepared.bundle in verdict_said result ≡ tuple_verdict M s (broken_tuple M s) }
{
    let prepared = &indexed.prepared;
    let f = prepared.bundle.sig_function(s);
    let found = indexed.lookup(f, args);
    match judge_found(prepared, s, args, found) {
        Ok(_) => Ok(()),
        Err(failure) => {
            let found = CoverageFinding {
                signature: s,
                send: Send::of(f, args),
                failure,
            };
            Err(Finding::Coverage(found))
        }
    }
}

// The verdict on signature s: a search of all its tuples.
fn broken_tuple(search: &Search<'_>, s: usize) -> Result<(), Finding>
    requires s_lt_signatures { s < search.now.indexed.now.prepared.bundle.tables.signatures }
    requires question_value { search.now.question ≡ Question.Rule s }
    ensures { let M = searched search.now in verdict_said result ≡ tuple_verdict M s (broken_tuple M s) }
{
    let bundle = &search.indexed.prepared.bundle;
    let f = bundle.sig_function(s);
    let n = bundle.arity(f);
    let upper = bundle.signature_classes(n, s);
    match search.first_stop(upper) {
        None => Ok(()),
        Some(chosen) => broken_by(search.indexed, s, &chosen[..n]),
    }
}

// The verdict on the signatures, with the index made: a search in number order, to the first that is broken, with the tables made once. Its frame is large: it is
// not there while the index is made, nor while bodies are checked.
#[inline(never)]
fn broken_of(indexed: &IndexedBundle<'_>) -> Result<(), Finding>
    ensures { let M = model indexed.now.prepared.bundle in verdict_said result ≡ signature_verdict M (broken_signature M) }
{
    let prepared = &indexed.prepared;
    let bundle = &prepared.bundle;
    let order = order_methods(bundle);
    let mut admits = [0; TABLE_WORDS];
    MethodClass::Specialiser.fill(prepared, &order, &mut admits);
    let mut holds = [0; TABLE_WORDS];
    MethodClass::Declared.fill(prepared, &order, &mut holds);
    for s in 0..bundle.tables.signatures {
        if !implied(prepared, s) {
            let search = Search {
                indexed: &*indexed,
                question: Question::Rule(s),
                order: &order,
                admits: &admits,
                holds: &holds,
            };
            broken_tuple(&search, s)?;
        }
    }
    Ok(())
}

// The verdict on the signatures.
#[inline(never)]
pub fn broken_signature(prepared: &PreparedBundle<'_>) -> Result<(), Finding>
    ensures { let M = model prepared.now.bundle in verdict_said result ≡ signature_verdict M (broken_signature M) }
{
    broken_of(&IndexedBundle::new(prepared))
}
