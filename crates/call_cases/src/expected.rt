// What a call has to answer and to leave.
use crate::block::{NUMBERS, read_first};
use reply::Reply;
use std::io;
use std::io::Read;
use test_support::buffer::fill;

// The reply, whether the matrix is in the scratch, and what is written to the row: bytes of the input, then zeros up to a place.
#[derive(Clone, Copy)]
pub(crate) struct Expected {
    pub(crate) reply: Reply,
    pub(crate) fills: bool,
    written: usize,
    zeros_to: usize,
}

impl Expected {
    pub(crate) fn of_numbers(numbers: [usize; NUMBERS]) -> Expected {
        let reply = Reply {
            number: (numbers[0] % 256) as u8,
            values: [
                numbers[2], numbers[3], numbers[4], numbers[5], numbers[6], numbers[7], numbers[8],
                numbers[9],
            ],
        };
        Expected {
            reply,
            fills: numbers[1] == 1,
            written: numbers[10],
            zeros_to: numbers[11],
        }
    }

    // Makes a row the expected one, and answers whether the input had all of it.
    pub(crate) fn read_row<R: Read>(self, reader: &mut R, row: &mut [u8]) -> io::Result<bool> {
        fill(row, self.zeros_to);
        read_first(reader, row, self.written)
    }
}
