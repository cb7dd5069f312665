// The lines of the listing.
ghost use Rattle.std.specs.Prelude.{[], ◌∷◌, ◌++◌, ◌+◌, ◌<◌, ◌≤◌, length, take};
ghost use Rattle.rules.specs.Model.{Model};
ghost use Rattle.layout.specs.Bundles.{model};
ghost use Rattle.answers.specs.Numbers.{code_of};
ghost use Rattle.answers.specs.Send.{tuple_of};
ghost use Rattle.rules.specs.Layout.{places};
ghost use Rattle.answers.specs.Opening.{layout_values};
ghost use Rattle.answers.specs.Failures.{not_found_methods, failure_methods};
ghost use Rattle.answers.specs.Findings.{coverage_said, verdict_said};
ghost use Rattle.rules.specs.Ascii.{ascii};
ghost use Rattle.lines.specs.Text.{field, counts_line, classes, methods, finding, refused_line, verdict_line};
ghost use Rattle.lines.specs.Appended.{send_room, methods_room, finding_room, Appended};
ghost use Rattle.lines.specs.Findings.{NamedBy, Named, layout_line, refused_with};

use crate::append::{put_classes, put_field, put_word};
use answers::failure::{Failure, NotFound};
use answers::finding::{BodyFinding, CoverageFinding, Finding};
use answers::number::Number;
use answers::opening::LayoutFinding;
use answers::send::Send;
use layout::bundle::Bundle;
use layout::open::OpenBundle;

// Writes the line of counts.
pub fn counts_line(text: &mut [u8], b: Bundle) -> usize
    requires { 140 ≤ length text.old }
    ensures { Appended 140 text.old 0 (counts_line (b.classes ∷ b.functions ∷ b.signatures ∷ b.methods ∷ [])) text.new result }
{
    let p = put_field(text, 0, b"classes ", b.classes);
    let q = put_field(text, p, b" functions ", b.functions);
    let r = put_field(text, q, b" signatures ", b.signatures);
    let end = put_field(text, r, b" methods ", b.methods);
    put_word(text, end, b"\n")
}

// Writes the number of a refusal.
fn put_number(text: &mut [u8], at: usize, number: Number) -> usize
    requires { at + 32 ≤ length text.old }
    ensures { Appended 32 text.old at (field "refused " (code_of number)) text.new result }
{
    put_field(text, at, b"refused ", usize::from(number.code()))
}

// Writes the record that a layout refusal names, where it names one.
fn put_record(text: &mut [u8], at: usize, found: LayoutFinding) -> usize
    requires { at + 32 ≤ length text.old }
    ensures { (M : Model) → Appended 32 text.old at (finding M (layout_values found)) text.new result }
{
    match found {
        LayoutFinding::Record(_, k) => put_field(text, at, b" record ", k),
        LayoutFinding::Length | LayoutFinding::Directory | LayoutFinding::Counts => at,
    }
}

// Writes the line of a layout refusal.
pub fn layout_line(text: &mut [u8], at: usize, found: LayoutFinding) -> usize
    requires { at + 76 ≤ length text.old }
    ensures { (M : Model) → Appended 76 text.old at (layout_line M found) text.new result }
{
    let p = put_number(text, at, found.number());
    let end = put_record(text, p, found);
    put_word(text, end, b"\n")
}

// Writes the line of a refusal that names nothing.
pub fn number_line(text: &mut [u8], at: usize, number: usize) -> usize
    requires { at + 44 ≤ length text.old }
    ensures { (M : Model) → Appended 44 text.old at (refused_line M number []) text.new result }
{
    let end = put_field(text, at, b"refused ", number);
    put_word(text, end, b"\n")
}

// Writes the start of a coverage line: the number, the signature, the function with its n argument classes.
fn put_send(
    text: &mut [u8],
    at: usize,
    number: Number,
    signature: usize,
    n: usize,
    send: Send,
) -> usize
    requires n_le_places { n ≤ places }
    requires send_room_in_bounds { at + send_room ≤ length text.old }
    ensures { Appended send_room text.old at (field "refused " (code_of number) ++ field " signature " signature ++ field " send " send.function ++ classes (take n (tuple_of send))) text.new result }
{
    let tuple = send.tuple;
    let args = [tuple.a0, tuple.a1, tuple.a2];
    let p = put_number(text, at, number);
    let q = put_field(text, p, b" signature ", signature);
    let end = put_field(text, q, b" send ", send.function);
    put_classes(text, end, &args[..n])
}

// Writes the end of a coverage line that names one method.
fn put_method(text: &mut [u8], at: usize, m: usize) -> usize
    requires { at + 44 ≤ length text.old }
    ensures { Appended 44 text.old at (field " method " m ++ ascii "\n") text.new result }
{
    let end = put_field(text, at, b" method ", m);
    put_word(text, end, b"\n")
}

// Writes the end of a coverage line that names two methods.
fn put_methods(text: &mut [u8], at: usize, m: usize, o: usize) -> usize
    requires { at + methods_room ≤ length text.old }
    ensures { Appended methods_room text.old at (field " methods " m ++ field " " o ++ ascii "\n") text.new result }
{
    let p = put_field(text, at, b" methods ", m);
    let end = put_field(text, p, b" ", o);
    put_word(text, end, b"\n")
}

// Writes the end of a coverage line where lookup fails.
fn put_not_found(text: &mut [u8], at: usize, failed: NotFound) -> usize
    requires { at + methods_room ≤ length text.old }
    ensures { Appended methods_room text.old at (methods (not_found_methods failed) ++ ascii "\n") text.new result }
{
    match failed {
        NotFound::Missing => put_word(text, at, b"\n"),
        NotFound::Ambiguous(m, o) => put_methods(text, at, m, o),
    }
}

// Writes the end of a coverage line: the methods that the failure names.
fn put_failure(text: &mut [u8], at: usize, failure: Failure) -> usize
    requires { at + methods_room ≤ length text.old }
    ensures { Appended methods_room text.old at (methods (failure_methods failure) ++ ascii "\n") text.new result }
{
    match failure {
        Failure::Lookup(failed) => put_not_found(text, at, failed),
        Failure::Declared(m) => put_method(text, at, m),
        Failure::Result(m) => put_method(text, at, m),
    }
}

// Writes the line of a coverage finding of the bundle.
fn coverage_line(
    bundle: &OpenBundle<'_>,
    text: &mut [u8],
    at: usize,
    found: CoverageFinding,
) -> usize
    requires function_lt_functions { found.send.function < bundle.now.tables.functions }
    requires finding_room_in_bounds { at + finding_room ≤ length text.old }
    ensures { Appended finding_room text.old at (verdict_line (model bundle.now) (coverage_said found)) text.new result }
{
    let send = found.send;
    let failure = found.failure;
    let number = failure.number();
    let n = bundle.arity(send.function);
    let end = put_send(text, at, number, found.signature, n, send);
    put_failure(text, end, failure)
}

// Writes the line of a body finding.
fn body_line(text: &mut [u8], at: usize, found: BodyFinding) -> usize
    requires { at + 108 ≤ length text.old }
    ensures { (M : Model) → Appended 108 text.old at (refused_line M (code_of found.number) (found.method ∷ found.instruction ∷ [])) text.new result }
{
    let p = put_number(text, at, found.number);
    let q = put_field(text, p, b" method ", found.method);
    let end = put_field(text, q, b" at ", found.instruction);
    put_word(text, end, b"\n")
}

// Writes the line of a finding of the check.
fn finding_line(bundle: &OpenBundle<'_>, text: &mut [u8], at: usize, found: Finding) -> usize
    requires named_by { NamedBy bundle.now.tables.functions found }
    requires finding_room_in_bounds { at + finding_room ≤ length text.old }
    ensures { Appended finding_room text.old at (verdict_line (model bundle.now) (verdict_said (refused_with found))) text.new result }
{
    match found {
        Finding::Layout(layout) => layout_line(text, at, layout),
        // The listing has scratch enough of its own, and so never prints this.
        Finding::Scratch => number_line(text, at, usize::from(Number::ShortScratch.code())),
        Finding::Coverage(coverage) => coverage_line(bundle, text, at, coverage),
        Finding::Body(body) => body_line(text, at, body),
    }
}

// Writes the line of the check's verdict.
pub fn verdict_line(
    bundle: &OpenBundle<'_>,
    text: &mut [u8],
    at: usize,
    verdict: Result<(), Finding>,
) -> usize
    requires named { Named bundle.now.tables.functions verdict }
    requires finding_room_in_bounds { at + finding_room ≤ length text.old }
    ensures { Appended finding_room text.old at (verdict_line (model bundle.now) (verdict_said verdict)) text.new result }
{
    match verdict {
        Ok(()) => put_word(text, at, b"accepted\n"),
        Err(found) => finding_line(bundle, text, at, found),
    }
}
