// What opening finds: numbers 1 to 9.
ghost use Rattle.std.specs.Prelude.{◌≡◌, get_or};
ghost use Rattle.answers.specs.Numbers.{code_of};
ghost use Rattle.answers.specs.Opening.{rule_number, layout_number, layout_values};

use crate::number::Number;

// The rules on records, in the order of their numbers 4 to 9.
#[derive(Clone, Copy)]
pub enum Rule {
    Class,
    Function,
    Signature,
    Method,
    Twin,
    Code,
}

impl Rule {
    pub fn number(self) -> Number
        ensures { code_of result ≡ rule_number self }
    {
        match self {
            Rule::Class => Number::BadClass,
            Rule::Function => Number::BadFunction,
            Rule::Signature => Number::BadSignature,
            Rule::Method => Number::BadMethod,
            Rule::Twin => Number::TwinMethod,
            Rule::Code => Number::BadCode,
        }
    }
}

// Numbers 1 to 3; from 4 on the rule, with the record that breaks it.
#[derive(Clone, Copy)]
pub enum LayoutFinding {
    Length,
    Directory,
    Counts,
    Record(Rule, usize),
}

impl LayoutFinding {
    pub fn number(self) -> Number
        ensures { code_of result ≡ layout_number self }
    {
        match self {
            LayoutFinding::Length => Number::BadLength,
            LayoutFinding::Directory => Number::BadDirectory,
            LayoutFinding::Counts => Number::BadCounts,
            LayoutFinding::Record(rule, _) => rule.number(),
        }
    }

    // The record that is named, 0 where none is.
    pub fn record(self) -> usize
        ensures { result ≡ get_or (layout_values self) 0 0 }
    {
        match self {
            LayoutFinding::Length => 0,
            LayoutFinding::Directory => 0,
            LayoutFinding::Counts => 0,
            LayoutFinding::Record(_, k) => k,
        }
    }
}
