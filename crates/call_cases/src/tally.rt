// How many calls there were of each entry point, and how many of them differed.
ghost use Rattle.std.specs.Prelude.{◌<◌};

use std::io;
use test_support::counts::add_one;

// The entry points, in the order of their codes.
const ENTRIES: usize = 14;

// The calls of each entry point, the differing ones of each, and all calls.
pub(crate) const TALLIES: usize = 29;

const ALL: usize = 28;

fn entry_name(entry: usize) -> &'static str {
    match entry {
        0 => "opening",
        1 => "view",
        2 => "instruction",
        3 => "reading",
        4 => "ancestry",
        5 => "lookup",
        6 => "send type",
        7 => "check",
        8 => "witness",
        9 => "run",
        10 => "accepted run",
        11 => "listing",
        12 => "chart",
        13 => "rough",
        _ => "unknown",
    }
}

// The start of the line for a call that differs, which is the next to be counted.
pub(crate) fn print_differs(
    rt: &impl Print,
    tallies: &[u64; TALLIES],
    entry: usize,
) -> io::Result<()> {
    print!(rt; "differs {} {} got", tallies[ALL], entry_name(entry))
}

pub(crate) fn count(tallies: &mut [u64; TALLIES], entry: usize, is_same: bool) {
    add_one(tallies, ALL);
    if entry >= ENTRIES {
        return;
    }
    add_one(tallies, entry);
    if !is_same {
        add_one(tallies, ENTRIES + entry);
    }
}

fn print_tally(rt: &impl Print, tallies: &[u64; TALLIES], entry: usize) -> io::Result<()>
    requires { entry < 14 }
{
    println!(rt;
        "{} cases {} differing {}",
        entry_name(entry),
        tallies[entry],
        tallies[ENTRIES + entry]
    )
}

pub(crate) fn print_tallies(rt: &impl Print, tallies: &[u64; TALLIES]) -> io::Result<()> {
    for entry in 0..ENTRIES {
        print_tally(rt, tallies, entry)?;
    }
    Ok(())
}
