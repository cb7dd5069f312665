// What a send fails by: no method is found, number 10 or 11, or one that does not suit, number 12 or 13.
ghost use Rattle.std.specs.Prelude.{◌≡◌, get_or};
ghost use Rattle.answers.specs.Numbers.{code_of};
ghost use Rattle.answers.specs.Failures.{not_found_number, resend_number, not_found_methods, failure_number, failure_methods};

use crate::number::Number;

// What a lookup fails by: no method applies, or none of those that do leads, with the two rivals to name.
#[derive(Clone, Copy)]
pub enum NotFound {
    Missing,
    Ambiguous(usize, usize),
}

impl NotFound {
    pub fn number(self) -> Number
        ensures { code_of result ≡ not_found_number self }
    {
        match self {
            NotFound::Missing => Number::NoMethod,
            NotFound::Ambiguous(_, _) => Number::Ambiguous,
        }
    }

    // The same of a resend, which looks among the methods that its own overrides.
    pub fn resend_number(self) -> Number
        ensures { code_of result ≡ resend_number self }
    {
        match self {
            NotFound::Missing => Number::NoOverridden,
            NotFound::Ambiguous(_, _) => Number::AmbiguousResend,
        }
    }

    // The rivals, 0 where there are none.
    pub fn first(self) -> usize
        ensures { result ≡ get_or (not_found_methods self) 0 0 }
    {
        match self {
            NotFound::Missing => 0,
            NotFound::Ambiguous(m, _) => m,
        }
    }

    pub fn second(self) -> usize
        ensures { result ≡ get_or (not_found_methods self) 1 0 }
    {
        match self {
            NotFound::Missing => 0,
            NotFound::Ambiguous(_, n) => n,
        }
    }
}

// What the coverage rule, or a send of a run, fails by: lookup's failure; or the method found has a declared class that does not hold its argument, or a result
// class that is not under the signature's.
#[derive(Clone, Copy)]
pub enum Failure {
    Lookup(NotFound),
    Declared(usize),
    Result(usize),
}

impl Failure {
    pub fn number(self) -> Number
        ensures { code_of result ≡ failure_number self }
    {
        match self {
            Failure::Lookup(failed) => failed.number(),
            Failure::Declared(_) => Number::NarrowDeclared,
            Failure::Result(_) => Number::WideResult,
        }
    }

    // The methods that are named, 0 where there are fewer.
    pub fn first(self) -> usize
        ensures { result ≡ get_or (failure_methods self) 0 0 }
    {
        match self {
            Failure::Lookup(failed) => failed.first(),
            Failure::Declared(m) => m,
            Failure::Result(m) => m,
        }
    }

    pub fn second(self) -> usize
        ensures { result ≡ get_or (failure_methods self) 1 0 }
    {
        match self {
            Failure::Lookup(failed) => failed.second(),
            Failure::Declared(_) => 0,
            Failure::Result(_) => 0,
        }
    }
}
