// What is counted.
use crate::ancestry::{HEIR, SAME};
use crate::question::Question;
use reply::Reply;
use std::io;
use test_support::counts::add_one;

// The kinds of answers. Each is counted, so that a comparison in which one is missing shows.
#[derive(Clone, Copy)]
enum Kind {
    Exact,
    Inexact,
    Missing,
    Ambiguous,
    Same,
    Heir,
    Neither,
}

const KINDS: usize = 7;

// The kind of an answer. A refusal has none.
fn kind_of(question: Question, got: Reply) -> Option<Kind> {
    match (got.number, question) {
        (10, _) => Some(Kind::Missing),
        (11, _) => Some(Kind::Ambiguous),
        (0, Question::Lookup(_)) => {
            if got.values[1] == 1 {
                Some(Kind::Exact)
            } else {
                Some(Kind::Inexact)
            }
        }
        (0, Question::Ancestry(_, _)) => match got.values[0] {
            SAME => Some(Kind::Same),
            HEIR => Some(Kind::Heir),
            _ => Some(Kind::Neither),
        },
        _ => None,
    }
}

// Calls, those that differ, bundles, those that do not open, and how often each kind of answer came. No run comes near the end of these counts.
#[derive(Clone, Copy)]
pub(crate) struct Counts {
    pub(crate) calls: u64,
    pub(crate) differing: u64,
    pub(crate) bundles: u64,
    unopened: u64,
    kinds: [u64; KINDS],
}

impl Counts {
    pub(crate) fn new() -> Counts {
        Counts {
            calls: 0,
            differing: 0,
            bundles: 0,
            unopened: 0,
            kinds: [0; KINDS],
        }
    }

    pub(crate) fn count_call(&mut self, question: Question, got: Reply, is_same: bool) {
        self.calls = self.calls.wrapping_add(1);
        if !is_same {
            self.differing = self.differing.wrapping_add(1);
        }
        if let Some(kind) = kind_of(question, got) {
            add_one(&mut self.kinds, kind as usize);
        }
    }

    pub(crate) fn count_bundle(&mut self, opens: bool) {
        self.bundles = self.bundles.wrapping_add(1);
        if !opens {
            self.unopened = self.unopened.wrapping_add(1);
        }
    }

    pub(crate) fn print(&self, rt: &impl Print) -> io::Result<()> {
        print!(rt; "lookup compared {}", self.calls)?;
        print!(rt; " differing {}", self.differing)?;
        print!(rt; " bundles {}", self.bundles)?;
        print!(rt; " unopened {}\n", self.unopened)?;
        print!(rt; "exact {}", self.kinds[Kind::Exact as usize])?;
        print!(rt; " inexact {}", self.kinds[Kind::Inexact as usize])?;
        print!(rt; " missing {}", self.kinds[Kind::Missing as usize])?;
        print!(rt; " ambiguous {}", self.kinds[Kind::Ambiguous as usize])?;
        print!(rt; " same {}", self.kinds[Kind::Same as usize])?;
        print!(rt; " heir {}", self.kinds[Kind::Heir as usize])?;
        print!(rt; " neither {}\n", self.kinds[Kind::Neither as usize])
    }
}
