// Makes the calls on standard input and compares each answer, and every byte of the scratch and of the row after it, with the expected ones.
//
// docs/CASES.md has the format of the input. A call whose answer or bytes are not the expected ones gets a line with its number in the whole input,
// counted from 0, and what came. The last lines count the calls of each entry point. A call that the input does not hold whole is not counted, so that
// these lines show that calls are missing.
#![tactic(auto)]

mod block;
mod call;
mod expected;
mod lent;
mod readings;
mod replies;
mod tally;

use block::{read_block, read_first};
use call::Call;
use expected::Expected;
use lent::{ROW, complement, read_matrix, unwritten_row};
use replies::{UNLENT, alone};
use reply::Reply;
use std::io;
use std::io::Read;
use tally::{TALLIES, count, print_differs, print_tallies};
use test_support::buffer::{SCRATCH, fill};
use test_support::replies::{is_same, print_reply};

// What came of a call: its reply, and whether row and scratch are as they have to be.
#[derive(Clone, Copy)]
struct Observed {
    reply: Reply,
    is_row: bool,
    is_scratch: bool,
}

impl Observed {
    fn is_expected(self, expected: Reply) -> bool {
        self.is_row && self.is_scratch && is_same(self.reply, expected)
    }

    fn print(self, rt: &impl Print) -> io::Result<()> {
        print_reply(rt, self.reply)?;
        if !self.is_row {
            print!(rt; " row")?;
        }
        if !self.is_scratch {
            print!(rt; " scratch")?;
        }
        println!(rt;)
    }
}

// The reply of a call that is lent the first part of the scratch and of the row.
fn replied(call: Call, bundle: &[u8], scratch: &mut [u8], row: &mut [u8]) -> Reply {
    let scratch_len = call.scratch_len;
    let row_len = call.row_len;
    if scratch_len > scratch.len() {
        return alone(UNLENT);
    }
    if row_len > row.len() {
        return alone(UNLENT);
    }
    call.reply(bundle, &mut scratch[0..scratch_len], &mut row[0..row_len])
}

// Makes a call on an unwritten scratch and row, and compares them afterwards with what it has to leave.
fn observe(
    call: Call,
    bundle: &[u8],
    scratch: &mut [u8],
    left_scratch: &[u8],
    left_row: &[u8],
) -> Observed {
    let mut row = unwritten_row();
    let reply = replied(call, bundle, scratch, &mut row);
    Observed {
        reply,
        is_row: row.as_slice() == left_row,
        is_scratch: *scratch == *left_scratch,
    }
}

// Counts a call, and prints it where it differs.
fn judge(
    rt: &impl Print,
    observed: Observed,
    reply: Reply,
    entry: usize,
    tallies: &mut [u64; TALLIES],
) -> io::Result<()> {
    let is_same = observed.is_expected(reply);
    if !is_same {
        print_differs(rt, tallies, entry)?;
        observed.print(rt)?;
    }
    count(tallies, entry, is_same);
    Ok(())
}

// Makes the next call, and answers whether the input had it whole.
fn run_call<R: Read>(
    rt: &impl Print,
    reader: &mut R,
    bundle: &[u8],
    unwritten: &[u8; SCRATCH],
    matrix: &[u8; SCRATCH],
    scratch: &mut [u8; SCRATCH],
    tallies: &mut [u64; TALLIES],
) -> io::Result<bool> {
    let Some(asked) = read_block(reader)? else {
        return Ok(false);
    };
    let Some(answered) = read_block(reader)? else {
        return Ok(false);
    };
    let call = Call::of_numbers(asked);
    let expected = Expected::of_numbers(answered);
    let mut left_row = [0u8; ROW];
    if !expected.read_row(reader, &mut left_row)? {
        return Ok(false);
    }
    scratch.copy_from_slice(unwritten);
    let observed = if expected.fills {
        observe(call, bundle, scratch, matrix, &left_row)
    } else {
        observe(call, bundle, scratch, unwritten, &left_row)
    };
    judge(rt, observed, expected.reply, call.entry, tallies)?;
    Ok(true)
}

// Makes so many calls on a bundle, or fewer where the input ends.
fn run_calls<R: Read>(
    rt: &impl Print,
    reader: &mut R,
    bundle: &[u8],
    unwritten: &[u8; SCRATCH],
    matrix: &[u8; SCRATCH],
    scratch: &mut [u8; SCRATCH],
    tallies: &mut [u64; TALLIES],
    calls: usize,
) -> io::Result<()> {
    for _ in 0..calls {
        if !run_call(rt, reader, bundle, unwritten, matrix, scratch, tallies)? {
            break;
        }
    }
    Ok(())
}

// Makes the calls on the next bundle, and answers whether the input had it whole.
fn run_bundle<R: Read>(
    rt: &impl Print,
    reader: &mut R,
    space: &mut [u8],
    unwritten: &mut [u8; SCRATCH],
    matrix: &mut [u8; SCRATCH],
    scratch: &mut [u8; SCRATCH],
    tallies: &mut [u64; TALLIES],
) -> io::Result<bool> {
    let Some(numbers) = read_block(reader)? else {
        return Ok(false);
    };
    let len = numbers[0];
    if len > space.len() {
        return Ok(false);
    }
    if !read_first(reader, space, len)? {
        return Ok(false);
    }
    if !read_matrix(reader, matrix, numbers[1])? {
        return Ok(false);
    }
    complement(unwritten, matrix);
    let bundle = &space[..len];
    run_calls(
        rt, reader, bundle, unwritten, matrix, scratch, tallies, numbers[2],
    )?;
    Ok(true)
}

// A proved loop has to end, and nothing says that the input does. So the loop counts its turns, up to a number that no run uses up.
fn run_all<R: Read>(
    rt: &impl Print,
    reader: &mut R,
    space: &mut [u8],
    unwritten: &mut [u8; SCRATCH],
    matrix: &mut [u8; SCRATCH],
    scratch: &mut [u8; SCRATCH],
    tallies: &mut [u64; TALLIES],
) -> io::Result<()> {
    for _ in 0..u64::MAX {
        if !run_bundle(rt, reader, space, unwritten, matrix, scratch, tallies)? {
            break;
        }
    }
    Ok(())
}

fn main(rt: HostRuntime) -> io::Result<()> {
    let mut reader = rt.reader();
    let mut space = [0u8; 65536];
    let mut unwritten = [0u8; SCRATCH];
    let mut matrix = [0u8; SCRATCH];
    let mut scratch = [0u8; SCRATCH];
    let mut tallies = [0u64; TALLIES];
    fill(&mut unwritten, 0);
    run_all(
        &rt,
        &mut reader,
        &mut space,
        &mut unwritten,
        &mut matrix,
        &mut scratch,
        &mut tallies,
    )?;
    print_tallies(&rt, &tallies)
}
