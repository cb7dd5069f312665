// The coverage rule for one tuple of a signature.
ghost use Rattle.std.specs.Prelude.{◌≡◌, true, ◌<◌, length};
ghost use Rattle.rules.specs.Model.{present};
ghost use Rattle.rules.specs.Lookup.{found, lookup};
ghost use Rattle.rules.specs.Coverage.{judge_found, judge};
ghost use Rattle.layout.specs.Arity.{OfArity};
ghost use Rattle.layout.specs.Bundles.{model};
ghost use Rattle.subclasses.specs.Places.{Arguments};
ghost use Rattle.dispatch.specs.Found.{found_of};
ghost use Rattle.coverage_rule.specs.Judgements.{judgement_of};

use answers::failure::{Failure, NotFound};
use dispatch::index::IndexedBundle;
use subclasses::prepared::PreparedBundle;

// The rule for a tuple for which lookup finds method m, by which it holds: its declared classes are asked before its result class.
fn judge_method(
    prepared: &PreparedBundle<'_>,
    s: usize,
    args: &[u8],
    m: usize,
) -> Result<usize, Failure>
    requires s_lt_signatures { s < prepared.now.bundle.tables.signatures }
    requires args_value { present (model prepared.now.bundle) args.now ≡ true }
    requires of_arity { OfArity (model prepared.now.bundle) (length args.now) m }
    ensures { judgement_of result ≡ judge_found (model prepared.now.bundle) s args.now (found m) }
{
    let bundle = &prepared.bundle;
    if !prepared.declared_hold(args, m) {
        return Err(Failure::Declared(m));
    }
    if !prepared.is_under(bundle.result(m), bundle.sig_result(s)) {
        return Err(Failure::Result(m));
    }
    Ok(m)
}

// The rule for the arguments of signature s and what lookup finds for them.
pub fn judge_found(
    prepared: &PreparedBundle<'_>,
    s: usize,
    args: &[u8],
    found: Result<usize, NotFound>,
) -> Result<usize, Failure>
    requires s_lt_signatures { s < prepared.now.bundle.tables.signatures }
    requires arguments { let M = model prepared.now.bundle in Arguments M (M.sig_function s) args.now }
    requires found_value { let M = model prepared.now.bundle in found_of found ≡ lookup M (M.sig_function s) args.now }
    ensures { judgement_of result ≡ judge (model prepared.now.bundle) s args.now }
{
    match found {
        Ok(m) => judge_method(prepared, s, args, m),
        Err(failed) => Err(Failure::Lookup(failed)),
    }
}

// The coverage rule for a tuple of signature s; the reasons to fail are tried in the order of their numbers.
pub fn judge(prepared: &PreparedBundle<'_>, s: usize, args: &[u8]) -> Result<usize, Failure>
    requires s_lt_signatures { s < prepared.now.bundle.tables.signatures }
    requires arguments { let M = model prepared.now.bundle in Arguments M (M.sig_function s) args.now }
    ensures { judgement_of result ≡ judge (model prepared.now.bundle) s args.now }
{
    let f = prepared.bundle.sig_function(s);
    let indexed = IndexedBundle::new(prepared);
    let found = indexed.lookup(f, args);
    judge_found(prepared, s, args, found)
}
