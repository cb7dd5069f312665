// The line of a refused call, as the listing prints refusals.
ghost use Rattle.std.specs.Prelude.{◌≤◌, length, Err};
ghost use Rattle.rules.specs.Model.{Model};
ghost use Rattle.answers.specs.Refusals.{refusal_said};
ghost use Rattle.chart_line.specs.Charted.{chart_said};
ghost use Rattle.lines.specs.Text.{refusal_line};
ghost use Rattle.lines.specs.Appended.{Appended};
ghost use Rattle.text.specs.Listed.{Written};

use crate::listing::ShortBuffer;
use answers::number::Number;
use answers::refusal::Refusal;
use chart_line::line::ChartError;
use lines::line::{layout_line, number_line};

// Writes the line of a refusal that comes before a call's own rules.
fn early_line(text: &mut [u8], refusal: Refusal) -> usize
    requires { 76 ≤ length text.old }
    ensures { (M : Model) → Appended 76 text.old 0 (refusal_line {A = Unit {0}} M (refusal_said refusal)) text.new result }
{
    match refusal {
        Refusal::Layout(found) => layout_line(text, 0, found),
        Refusal::Scratch => number_line(text, 0, Number::ShortScratch as usize),
        Refusal::Row => number_line(text, 0, Number::ShortBuffer as usize),
        Refusal::Absent => number_line(text, 0, Number::Absent as usize),
    }
}

// Writes the line of a chart call's error.
fn error_line(text: &mut [u8], error: ChartError) -> usize
    requires { 76 ≤ length text.old }
    ensures { (M : Model) → Appended 76 text.old 0 (refusal_line M (chart_said (Err error))) text.new result }
{
    match error {
        ChartError::Refused(refusal) => early_line(text, refusal),
        ChartError::NotBinary => number_line(text, 0, Number::NotBinary as usize),
        ChartError::NoLine => number_line(text, 0, Number::NoLine as usize),
        ChartError::Short => number_line(text, 0, Number::ShortLine as usize),
    }
}

// Writes the line of a chart call that is refused, and nothing where it is not.
fn compose_line(text: &mut [u8], answer: Result<usize, ChartError>) -> usize
    requires { 76 ≤ length text.old }
    ensures { (M : Model) → Appended 76 text.old 0 (refusal_line M (chart_said answer)) text.new result }
{
    match answer {
        Ok(_) => 0,
        Err(error) => error_line(text, error),
    }
}

// Room for the longest line of a refusal.
const ROOM: usize = 76;

// Writes the line of a chart call that is refused to the start of the buffer, and nothing where it is not. 76 bytes are enough for any.
pub fn chart_refusal(
    text: &mut [u8],
    answer: Result<usize, ChartError>,
) -> Result<usize, ShortBuffer>
    ensures { (M : Model) → Written (refusal_line M (chart_said answer)) text.old text.new result }
{
    let mut own = [0; ROOM];
    let n = compose_line(&mut own, answer);
    if text.len() < n {
        return Err(ShortBuffer);
    }
    text[..n].copy_from_slice(&own[..n]);
    Ok(n)
}
