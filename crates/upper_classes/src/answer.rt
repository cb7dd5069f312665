// What a send of a function finds where an upper class is known for each argument.
ghost use Rattle.std.specs.Prelude.{◌≡◌};
ghost use Rattle.rules.specs.Bounded.{any};
ghost use Rattle.rules.specs.Coverage.{tuples, Below};
ghost use Rattle.rules.specs.Rough.{rough, rough_of, rough_in};
ghost use Rattle.layout.specs.Bundles.{model};
ghost use Rattle.subclasses.specs.Places.{Arguments};
ghost use Rattle.answers.specs.Send.{tuple_of};
ghost use Rattle.tuple_search.specs.Questions.{function_of, stops_at};
ghost use Rattle.tuple_search.specs.Searches.{searched};
ghost use Rattle.upper_classes.specs.declared.answer.RoughError.TheVariants.{Refused};
ghost use Rattle.upper_classes.specs.Answered.{found_below, rough_said, SomeFinds};

use crate::least::least_below;
use answers::refusal::Refusal;
use answers::send::Send;
use dispatch::index::IndexedBundle;
use method_sets::order::order_methods;
use method_sets::sets::TABLE_WORDS;
use method_sets::table::MethodClass;
use sends::send::classes_of;
use subclasses::prepared::PreparedBundle;
use tuple_search::question::Question;
use tuple_search::tables::Search;

// The one method that every tuple below finds; some tuple finds none or two; or each finds one, and not all the same.
#[derive(Clone, Copy)]
pub enum Rough {
    One(usize),
    MayFail,
    Several,
}

// 24, no concrete class is under one of the upper classes; or a refusal.
#[derive(Clone, Copy)]
pub enum RoughError {
    NoConcrete,
    Refused(Refusal),
}

impl From<Refusal> for RoughError {
    ghost from_gives = { λ refusal e. e ≡ Refused refusal };

    fn from(refusal: Refusal) -> RoughError {
        RoughError::Refused(refusal)
    }
}

// Whether the answer to a question about what is found is no for some tuple below the upper classes.
fn some_stops(search: &Search<'_>, upper: &[u8]) -> bool
    requires { Arguments (searched search.now) (function_of (searched search.now) search.now.question) upper.now }
    ensures { result ≡ any (stops_at (searched search.now) search.now.question) (tuples (searched search.now) upper.now) }
{
    search.first_stop(upper).is_some()
}

// The answer where some tuple below finds method m: whether each finds it, and where one does not, whether each finds some method. The declared classes of
// methods play no part in what is found, so the table of specialisers is lent in place of theirs. The indexed bundle is lent again, for as long as the tables.
fn given_method(indexed: &IndexedBundle<'_>, f: usize, upper: &[u8], m: usize) -> Rough
    requires arguments { Arguments (model indexed.now.prepared.bundle) f upper.now }
    requires some_finds { SomeFinds (model indexed.now.prepared.bundle) f upper.now m }
    ensures { found_below result ≡ rough (model indexed.now.prepared.bundle) f upper.now }
{
    let prepared = &indexed.prepared;
    let order = order_methods(&prepared.bundle);
    let mut admits = [0; TABLE_WORDS];
    MethodClass::Specialiser.fill(prepared, &order, &mut admits);
    let only = Search {
        indexed: &*indexed,
        question: Question::FindsOnly(f, m),
        order: &order,
        admits: &admits,
        holds: &admits,
    };
    if !some_stops(&only, upper) {
        return Rough::One(m);
    }
    let one = Search {
        indexed: &*indexed,
        question: Question::Finds(f),
        order: &order,
        admits: &admits,
        holds: &admits,
    };
    if some_stops(&one, upper) {
        Rough::MayFail
    } else {
        Rough::Several
    }
}

// The answer for upper classes with a tuple below them.
fn given_tuple(prepared: &PreparedBundle<'_>, f: usize, upper: &[u8], least: &[u8]) -> Rough
    requires arguments { Arguments (model prepared.now.bundle) f upper.now }
    requires below { Below (model prepared.now.bundle) upper.now least.now }
    ensures { found_below result ≡ rough (model prepared.now.bundle) f upper.now }
{
    let indexed = IndexedBundle::new(prepared);
    match indexed.lookup(f, least) {
        Ok(m) => given_method(&indexed, f, upper, m),
        Err(_) => Rough::MayFail,
    }
}

// The answer for upper classes of function f: 24, or what the tuples below them find.
fn given_upper(prepared: &PreparedBundle<'_>, f: usize, upper: &[u8]) -> Result<Rough, RoughError>
    requires { Arguments (model prepared.now.bundle) f upper.now }
    ensures { rough_said result ≡ rough_of (model prepared.now.bundle) f upper.now }
{
    match least_below(prepared, upper) {
        None => Err(RoughError::NoConcrete),
        Some(least) => Ok(given_tuple(prepared, f, upper, &least[..upper.len()])),
    }
}

// What a send finds whose tuple holds an upper class for each argument, abstract ones too.
pub fn rough_in(prepared: &PreparedBundle<'_>, send: Send) -> Result<Rough, RoughError>
    ensures { rough_said result ≡ rough_in send.function (tuple_of send) (model prepared.now.bundle) }
{
    match classes_of(&prepared.bundle, send) {
        None => Err(RoughError::Refused(Refusal::Absent)),
        Some(args) => given_upper(prepared, send.function, args.as_slice()),
    }
}
