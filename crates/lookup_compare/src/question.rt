// A question that both implementations answer.
use crate::ancestry::standing;
use crate::record::Places;
use curiumtoad::Send;
use curiumtoad::ancestry::ancestry;
use curiumtoad::lookup::lookup;
use reply::Reply;
use std::io;
use test_support::print::print_values;

// Lookup of a send, or how a class stands to another. All of them are there, and unused places hold 0.
#[derive(Clone, Copy)]
pub(crate) enum Question {
    Lookup(Send),
    Ancestry(usize, usize),
}

impl Question {
    pub(crate) fn answer(self, bundle: &[u8], scratch: &mut [u8]) -> Reply {
        match self {
            Question::Lookup(send) => Reply::from(lookup(bundle, scratch, send)),
            Question::Ancestry(a, c) => Reply::from(ancestry(bundle, scratch, a, c)),
        }
    }

    pub(crate) fn second_answer(self, bundle: &[u8]) -> Reply {
        match self {
            Question::Lookup(send) => {
                let tuple = send.tuple;
                let args = Places {
                    p0: tuple.a0,
                    p1: tuple.a1,
                    p2: tuple.a2,
                };
                crate::lookup::lookup(bundle, send.function, args)
            }
            Question::Ancestry(a, c) => Reply::given(standing(bundle, a, c), 0),
        }
    }

    pub(crate) fn print(self, rt: &impl Print) -> io::Result<()> {
        match self {
            Question::Lookup(send) => {
                let tuple = send.tuple;
                print!(rt; " lookup {}", send.function)?;
                print_values(rt, &[tuple.a0, tuple.a1, tuple.a2])
            }
            Question::Ancestry(a, c) => {
                print!(rt; " ancestry")?;
                print_values(rt, &[a, c, 0])
            }
        }
    }
}
