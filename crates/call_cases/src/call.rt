// The calls, as the blocks of the input give them. The codes of the entry points are those of docs/CASES.md.
use crate::block::NUMBERS;
use crate::readings::{instruction_reply, reading_reply, view_reply};
use crate::replies::{UNKNOWN, alone};
use curiumtoad::ancestry::ancestry;
use curiumtoad::chart::chart;
use curiumtoad::check::check;
use curiumtoad::lookup::lookup;
use curiumtoad::opening::open;
use curiumtoad::rough::rough;
use curiumtoad::run::run;
use curiumtoad::run_accepted::run_accepted;
use curiumtoad::send_type::send_type;
use curiumtoad::witness::witness;
use curiumtoad::{Send, Tuple};
use reply::Reply;
use text::listing::{listing, listing_reply};

// The code of an entry point, how much is lent, and what is asked: an entry point takes as many of the numbers as it asks for.
#[derive(Clone, Copy)]
pub(crate) struct Call {
    pub(crate) entry: usize,
    pub(crate) scratch_len: usize,
    n0: usize,
    n1: usize,
    n2: usize,
    n3: usize,
    count: u32,
    pub(crate) row_len: usize,
}

impl Call {
    pub(crate) fn of_numbers(numbers: [usize; NUMBERS]) -> Call {
        Call {
            entry: numbers[0],
            scratch_len: numbers[1],
            n0: numbers[2],
            n1: numbers[3],
            n2: numbers[4],
            n3: numbers[5],
            count: (numbers[6] % 4294967296) as u32,
            row_len: numbers[7],
        }
    }

    // The entry points that take no scratch.
    fn plain_reply(self, bundle: &[u8], row: &mut [u8]) -> Reply {
        let entry = self.entry;
        match entry {
            0 => Reply::from(open(bundle)),
            1 => view_reply(bundle, row, self.n0),
            2 => instruction_reply(bundle, self.n0, self.n1),
            3 => reading_reply(bundle, self.n0),
            11 => listing_reply(listing(bundle, row)),
            _ => alone(UNKNOWN),
        }
    }

    pub(crate) fn reply(self, bundle: &[u8], scratch: &mut [u8], row: &mut [u8]) -> Reply {
        let entry = self.entry;
        let n0 = self.n0;
        let n1 = self.n1;
        let count = self.count;
        let tuple = Tuple {
            a0: n1,
            a1: self.n2,
            a2: self.n3,
        };
        let send = Send {
            function: n0,
            tuple,
        };
        match entry {
            4 => Reply::from(ancestry(bundle, scratch, n0, n1)),
            5 => Reply::from(lookup(bundle, scratch, send)),
            6 => Reply::from(send_type(bundle, scratch, row, send)),
            7 => Reply::from(check(bundle, scratch)),
            8 => Reply::from(witness(bundle, scratch, n0, tuple)),
            9 => Reply::from(run(bundle, scratch, send, count)),
            10 => Reply::from(run_accepted(bundle, scratch, send, count)),
            12 => Reply::from(chart(bundle, scratch, row, n0, n1)),
            13 => Reply::from(rough(bundle, scratch, send)),
            _ => self.plain_reply(bundle, row),
        }
    }
}
