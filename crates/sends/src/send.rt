// A send as a caller passes it: any function number, and any number for each place.
ghost use Rattle.std.specs.Prelude.{◌≡◌, true, ◌<◌, ◌≤◌, take, is_some, IfSome};
ghost use Rattle.rules.specs.Bounded.{every};
ghost use Rattle.rules.specs.Layout.{max_classes, places, tuple_rule};
ghost use Rattle.rules.specs.Model.{present};
ghost use Rattle.rules.specs.Coverage.{concrete_class};
ghost use Rattle.rules.specs.Calls.{send_rule, run_rule};
ghost use Rattle.layout.specs.Bundles.{model};
ghost use Rattle.answers.specs.Send.{classes_of, tuple_of};
ghost use Rattle.sends.specs.Send.{Passes};

use answers::send::{Send, Tuple};
use layout::bundle::Bundle;
use layout::open::OpenBundle;
use record_rules::tuple::fits;

// Whether the numbers are classes at the first n places, and 0 at the others.
fn is_tuple(classes: usize, n: usize, places: &[usize]) -> bool
    ensures { result ≡ tuple_rule classes n places.now }
{
    for (i, place) in places.iter().enumerate() {
        if !fits(classes, n, i, *place) {
            return false;
        }
    }
    true
}

// Whether the function and the classes at its places are there, and unused places hold 0.
fn is_send(bundle: &OpenBundle<'_>, send: Send) -> bool
    ensures { result ≡ send_rule (model bundle.now) send.function (tuple_of send) }
{
    let tuple = send.tuple;
    let places = [tuple.a0, tuple.a1, tuple.a2];
    send.function < bundle.tables.functions
        && is_tuple(bundle.tables.classes, bundle.arity(send.function), &places)
}

// A tuple as bytes: classes have numbers below 128.
fn class_bytes(tuple: Tuple) -> [u8; Bundle::PLACES]
    requires a0_lt_max_classes { tuple.a0 < max_classes }
    requires a1_lt_max_classes { tuple.a1 < max_classes }
    requires a2_lt_max_classes { tuple.a2 < max_classes }
    ensures { result ≡ classes_of tuple }
{
    [tuple.a0 as u8, tuple.a1 as u8, tuple.a2 as u8]
}

// The classes at the places of a send, of which the first `count` are used.
#[derive(Clone, Copy)]
pub struct Passed {
    pub count: usize,
    pub classes: [u8; Bundle::PLACES],
    pub ghost within: { count ≤ places },
}

impl Passed {
    // The classes that are used.
    pub fn as_slice(&self) -> &[u8]
        ensures { result.now ≡ take self.now.count self.now.classes }
    {
        &self.classes[..self.count]
    }
}

// The classes that a send passes, if it keeps its rule.
pub fn classes_of(bundle: &OpenBundle<'_>, send: Send) -> Option<Passed>
    ensures is_send_value { is_some result ≡ send_rule (model bundle.now) send.function (tuple_of send) }
    ensures passes { IfSome result (λ p. Passes (model bundle.now) send.function (tuple_of send) p.count p.classes) }
{
    if !is_send(bundle, send) {
        return None;
    }
    let count = bundle.arity(send.function);
    let classes = class_bytes(send.tuple);
    Some(Passed { count, classes })
}

// Whether all of these classes are concrete.
pub fn all_concrete(bundle: &OpenBundle<'_>, args: &[u8]) -> bool
    requires { present (model bundle.now) args.now ≡ true }
    ensures { result ≡ every (concrete_class (model bundle.now)) args.now }
{
    for class in args {
        if !bundle.is_concrete(usize::from(*class)) {
            return false;
        }
    }
    true
}

// The classes that a send passes, for a call that refuses abstract ones too.
#[tactic(auto, unfolding(rules::specs::Calls::run_rule))]
pub fn concrete_classes_of(bundle: &OpenBundle<'_>, send: Send) -> Option<Passed>
    ensures is_send_value { is_some result ≡ run_rule (model bundle.now) send.function (tuple_of send) }
    ensures passes { IfSome result (λ p. Passes (model bundle.now) send.function (tuple_of send) p.count p.classes) }
{
    let args = classes_of(bundle, send)?;
    all_concrete(bundle, args.as_slice()).then_some(args)
}
