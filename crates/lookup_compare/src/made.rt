// Made bundles: valid, with much multiple inheritance, and methods that often overlap.
ghost use Rattle.std.specs.Prelude.{◌<◌, ◌≤◌};

use crate::generator::{comes_up, draw};
use test_support::buffer::byte;

// The place so many bytes after another. No bundle comes near the end of the numbers.
fn after(at: usize, more: usize) -> usize {
    at.wrapping_add(more)
}

fn between(start: usize, end: usize) -> usize {
    end.wrapping_sub(start)
}

// Writes bytes from a place on, and answers the place after them. Where there is no room nothing is written, so the bundle does not open, and that shows.
pub(crate) fn put(space: &mut [u8], at: usize, bytes: &[u8]) -> usize {
    if at > space.len() {
        return at;
    }
    if bytes.len() > space.len() - at {
        return at;
    }
    let end = at + bytes.len();
    space[at..end].copy_from_slice(bytes);
    end
}

// The bytes of a number, the lower first.
fn low(x: usize) -> u8 {
    (x % 256) as u8
}

fn high(x: usize) -> u8 {
    low(x / 256)
}

fn put_byte(space: &mut [u8], at: usize, value: usize) -> usize {
    put(space, at, &[low(value)])
}

// How large a bundle is, and how dense its inheritance: beside one sure parent each lower class is a parent by a chance of one in so many.
#[derive(Clone, Copy)]
pub(crate) struct Plan {
    pub(crate) classes: usize,
    pub(crate) functions: usize,
    pub(crate) methods: usize,
    pub(crate) chance: usize,
}

// Writes the parents of a class in rising order, and answers where they end. Class 0 has none.
fn put_parents(space: &mut [u8], state: &mut u64, at: usize, class: usize, chance: usize) -> usize
    requires { 0 < chance }
{
    if class == 0 {
        return at;
    }
    let sure = draw(state, class);
    let mut end = at;
    for above in 0..class {
        let is_drawn = comes_up(state, chance);
        if above == sure || is_drawn {
            end = put_byte(space, end, above);
        }
    }
    end
}

fn put_class(space: &mut [u8], at: usize, kind: usize, offset: usize, len: usize) -> usize {
    let record = [low(kind), 0, low(offset), high(offset), low(len), high(len)];
    put(space, at, &record)
}

// Writes the classes, and their parents into the section after them, and answers where that ends.
fn put_classes(space: &mut [u8], state: &mut u64, parent_at: usize, plan: Plan) -> usize
    requires { 0 < plan.chance }
{
    let classes = plan.classes;
    let mut record_at = 24;
    let mut end = parent_at;
    for class in 0..classes {
        let start = end;
        end = put_parents(space, state, start, class, plan.chance);
        let offset = between(parent_at, start);
        let len = between(start, end);
        record_at = put_class(space, record_at, draw(state, 2), offset, len);
    }
    end
}

// The bytes of a method's record.
const METHOD: usize = 12;

// What tells methods apart.
#[derive(Clone, Copy)]
struct Head {
    function: usize,
    s0: usize,
    s1: usize,
    s2: usize,
}

// A class at a used place, 0 at another. Low classes are drawn more often, since more classes are under them.
fn draw_specialiser(state: &mut u64, is_used: bool, classes: usize) -> usize
    requires { 0 < classes }
{
    if !is_used {
        return 0;
    }
    let limit = 1 + draw(state, classes);
    draw(state, limit)
}

fn draw_head(space: &[u8], state: &mut u64, function_at: usize, plan: Plan) -> Head
    requires functions_nonzero { 0 < plan.functions }
    requires classes_nonzero { 0 < plan.classes }
{
    let function = draw(state, plan.functions);
    let arity = byte(space, after(function_at, function));
    Head {
        function,
        s0: draw_specialiser(state, arity > 0, plan.classes),
        s1: draw_specialiser(state, arity > 1, plan.classes),
        s2: draw_specialiser(state, arity > 2, plan.classes),
    }
}

impl Head {
    fn is_at(self, space: &[u8], at: usize) -> bool {
        self.function == byte(space, at)
            && self.s0 == byte(space, after(at, 1))
            && self.s1 == byte(space, after(at, 2))
            && self.s2 == byte(space, after(at, 3))
    }

    // Whether one of so many methods has it.
    fn is_among(self, space: &[u8], method_at: usize, methods: usize) -> bool {
        let mut at = method_at;
        for _ in 0..methods {
            if self.is_at(space, at) {
                return true;
            }
            at = after(at, METHOD);
        }
        false
    }

    // The method's record: declared classes and result class 0, and a body of one instruction.
    fn record(self, body_offset: usize) -> [u8; METHOD] {
        [
            low(self.function),
            low(self.s0),
            low(self.s1),
            low(self.s2),
            0,
            0,
            0,
            0,
            low(body_offset),
            high(body_offset),
            2,
            0,
        ]
    }
}

// Draws a method, for which the sections of functions and of methods are given, and writes it. A twin of an earlier one is left out.
fn put_method(
    space: &mut [u8],
    state: &mut u64,
    function_at: usize,
    method_at: usize,
    at: usize,
    plan: Plan,
) -> usize
    requires functions_nonzero { 0 < plan.functions }
    requires classes_nonzero { 0 < plan.classes }
{
    let before = between(method_at, at) / METHOD;
    let head = draw_head(space, state, function_at, plan);
    if head.is_among(space, method_at, before) {
        return at;
    }
    put(space, at, &head.record(after(before, before)))
}

// What is written one after the other.
#[derive(Clone, Copy)]
enum Record {
    Function,
    // Of function 0, with class 0 at every place.
    Signature,
    // With where the functions begin.
    Method(usize),
    // NEW 0.
    Body,
}

// Writes so many records, and answers where they end.
fn put_records(
    space: &mut [u8],
    state: &mut u64,
    kind: Record,
    start: usize,
    count: usize,
    plan: Plan,
) -> usize
    requires functions_nonzero { 0 < plan.functions }
    requires classes_nonzero { 0 < plan.classes }
{
    let mut end = start;
    for _ in 0..count {
        end = put_record(space, state, kind, start, end, plan);
    }
    end
}

fn put_record(
    space: &mut [u8],
    state: &mut u64,
    kind: Record,
    start: usize,
    at: usize,
    plan: Plan,
) -> usize
    requires functions_nonzero { 0 < plan.functions }
    requires classes_nonzero { 0 < plan.classes }
{
    match kind {
        Record::Function => put_byte(space, at, draw(state, 4)),
        Record::Signature => put(space, at, &[0u8; 5]),
        Record::Method(function_at) => put_method(space, state, function_at, start, at, plan),
        Record::Body => put(space, at, &[1u8, 0u8]),
    }
}

// Where the sections begin, and where the last ends.
#[derive(Clone, Copy)]
struct Sections {
    parent_at: usize,
    function_at: usize,
    signature_at: usize,
    method_at: usize,
    code_at: usize,
    end: usize,
}

fn put_sections(space: &mut [u8], state: &mut u64, plan: Plan) -> Sections
    requires functions_nonzero { 0 < plan.functions }
    requires classes_nonzero { 0 < plan.classes }
    requires classes_bound { plan.classes ≤ 128 }
    requires chance_nonzero { 0 < plan.chance }
{
    let parent_at = 24 + 6 * plan.classes;
    let function_at = put_classes(space, state, parent_at, plan);
    let signature_at = put_records(
        space,
        state,
        Record::Function,
        function_at,
        plan.functions,
        plan,
    );
    // Lookup has to step over the signatures.
    let method_at = put_records(space, state, Record::Signature, signature_at, 3, plan);
    let code_at = put_records(
        space,
        state,
        Record::Method(function_at),
        method_at,
        plan.methods,
        plan,
    );
    let bodies = between(method_at, code_at) / METHOD;
    let end = put_records(space, state, Record::Body, code_at, bodies, plan);
    Sections {
        parent_at,
        function_at,
        signature_at,
        method_at,
        code_at,
        end,
    }
}

// Writes a pair of the directory, and answers where the next stands.
fn put_span(space: &mut [u8], at: usize, start: usize, end: usize) -> usize {
    let len = between(start, end);
    put(space, at, &[low(start), high(start), low(len), high(len)])
}

fn put_directory(space: &mut [u8], sections: Sections) {
    let mut at = put_span(space, 0, 24, sections.parent_at);
    at = put_span(space, at, sections.parent_at, sections.function_at);
    at = put_span(space, at, sections.function_at, sections.signature_at);
    at = put_span(space, at, sections.signature_at, sections.method_at);
    at = put_span(space, at, sections.method_at, sections.code_at);
    put_span(space, at, sections.code_at, sections.end);
}

// Writes a bundle to the start of space, and answers its length.
pub(crate) fn make(space: &mut [u8], state: &mut u64, plan: Plan) -> usize
    requires functions_nonzero { 0 < plan.functions }
    requires classes_nonzero { 0 < plan.classes }
    requires classes_bound { plan.classes ≤ 128 }
    requires chance_nonzero { 0 < plan.chance }
{
    let sections = put_sections(space, state, plan);
    put_directory(space, sections);
    sections.end
}
