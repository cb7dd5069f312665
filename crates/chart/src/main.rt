// Prints the chart of a function of two arguments: the bundle is on standard input, the function's number is the first argument. One line is held at a time.
#![tactic(auto)]

use curiumtoad::chart::{ChartError, chart};
use input::read_bundle;
use layout::bundle::Bundle;
use std::env::Env;
use std::io;
use text::refusal::chart_refusal;

// A word of decimal digits as a number. Above every function's number it need not grow, since each is refused alike.
fn number_of(word: &[u8]) -> Option<usize> {
    if word.is_empty() {
        return None;
    }
    let mut number = 0;
    for digit in word {
        if !digit.is_ascii_digit() {
            return None;
        }
        if number <= Bundle::FUNCTIONS {
            number = 10 * number + usize::from(*digit - b'0');
        }
    }
    Some(number)
}

// Prints a line of the chart, or why there is none, and says whether to go on: behind the last line the chart is at its end.
fn print_line(rt: &impl Print, bundle: &[u8], function: usize, line: usize) -> io::Result<bool> {
    let mut scratch = [0u8; 65536];
    let mut text = [0u8; 4096];
    let answer = chart(bundle, &mut scratch, &mut text, function, line);
    if let Ok(n) = answer {
        rt.write_all(&text[..n])?;
        return Ok(true);
    }
    if let Err(ChartError::NoLine) = answer {
        return Ok(false);
    }
    if let Ok(n) = chart_refusal(&mut text, answer) {
        rt.write_all(&text[..n])?;
    }
    Ok(false)
}

// Prints the lines of the chart: one for each class, and the first.
fn print_chart(rt: &impl Print, bundle: &[u8], function: usize) -> io::Result<()> {
    for line in 0..=Bundle::CLASSES {
        if !print_line(rt, bundle, function, line)? {
            break;
        }
    }
    Ok(())
}

// A word that is too long is no number, and neither is one that is missing.
fn main(rt: HostRuntime) -> io::Result<()> {
    let mut space = [0u8; 65536];
    let len = read_bundle(&mut rt.reader(), &mut space)?;
    let mut word = [0u8; 4096];
    let argument = match rt.arg(1, &mut word) {
        Ok(n) => number_of(&word[..n]),
        Err(_) => None,
    };
    match argument {
        Some(function) => print_chart(&rt, &space[..len], function),
        None => rt.eprintln("usage: chart FUNCTION < BUNDLE"),
    }
}
