// Makes bundles and compares the library with the second implementation on them: every function with every tuple of classes, abstract ones too, and
// every pair of classes; in large bundles only the tuples of a stride. The scratch is compared twice in each bundle.
#![tactic(auto)]

mod ancestry;
mod counts;
mod generator;
mod lookup;
mod made;
mod matrix;
mod question;
mod record;

ghost use Rattle.std.specs.Prelude.{◌<◌, ◌≤◌};

use counts::Counts;
use curiumtoad::opening::open;
use curiumtoad::{Send, Tuple};
use generator::draw;
use made::{Plan, make};
use matrix::put_matrix;
use question::Question;
use record::{arity, class_count, function_count};
use reply::Reply;
use std::io;
use test_support::buffer::SCRATCH;
use test_support::replies::{is_same, print_reply};

const BUNDLES: usize = 64;

// The first call that differs: its number, the bundle it is put to, what is asked, both answers, and whether the scratch is not as it has to be.
fn print_first(
    rt: &impl Print,
    counts: &Counts,
    question: Question,
    got: Reply,
    second: Reply,
    is_scratch: bool,
) -> io::Result<()> {
    if counts.differing > 0 {
        return Ok(());
    }
    print!(rt; "differs {} bundle {}", counts.calls, counts.bundles)?;
    question.print(rt)?;
    print!(rt; " got")?;
    print_reply(rt, got)?;
    print!(rt; " second")?;
    print_reply(rt, second)?;
    if !is_scratch {
        print!(rt; " scratch")?;
    }
    println!(rt;)
}

// Counts a call, by its answer and whether the scratch is as it has to be.
fn judge(
    rt: &impl Print,
    bundle: &[u8],
    question: Question,
    got: Reply,
    is_scratch: bool,
    counts: &mut Counts,
) -> io::Result<()> {
    let second = question.second_answer(bundle);
    let is_same = is_scratch && is_same(got, second);
    if !is_same {
        print_first(rt, counts, question, got, second, is_scratch)?;
    }
    counts.count_call(question, got, is_same);
    Ok(())
}

fn compare(
    rt: &impl Print,
    bundle: &[u8],
    scratch: &mut [u8],
    question: Question,
    counts: &mut Counts,
) -> io::Result<()> {
    let got = question.answer(bundle, scratch);
    judge(rt, bundle, question, got, true, counts)
}

// How many tuples a function of so many arguments has where there are 128 classes. Tuples are numbered so in every bundle, which leaves numbers out.
fn tuple_limit(arity: usize) -> usize
    ensures { result ≤ 2097152 }
{
    match arity {
        0 => 1,
        1 => 128,
        2 => 16384,
        _ => 2097152,
    }
}

// 1 where every tuple is taken. Another stride is odd, so that every class comes at every place.
fn stride(classes: usize, arity: usize) -> usize
    ensures result_nonzero { 0 < result }
    ensures upper_bound { result < 2000 }
{
    if arity < 2 || classes <= 16 {
        return 1;
    }
    if arity == 2 {
        if classes <= 48 {
            return 1;
        }
        return 7;
    }
    if classes <= 48 {
        return 61;
    }
    1001
}

// The tuple that a number stands for.
fn tuple_of(number: usize) -> Tuple {
    Tuple {
        a0: number % 128,
        a1: number / 128 % 128,
        a2: number / 16384,
    }
}

fn is_present(tuple: Tuple, classes: usize) -> bool {
    tuple.a0 < classes && tuple.a1 < classes && tuple.a2 < classes
}

// Compares what is asked of each tuple of so many classes, or of those of a stride.
fn compare_tuples<F: Fn(Tuple) -> Question>(
    rt: &impl Print,
    bundle: &[u8],
    scratch: &mut [u8],
    arity: usize,
    ask: F,
    counts: &mut Counts,
) -> io::Result<()>
    requires { F.IsAlwaysCallable ask }
{
    let classes = class_count(bundle);
    let limit = tuple_limit(arity);
    for number in (0..limit).step_by(stride(classes, arity)) {
        let tuple = tuple_of(number);
        if is_present(tuple, classes) {
            compare(rt, bundle, scratch, ask(tuple), counts)?;
        }
    }
    Ok(())
}

fn compare_functions(
    rt: &impl Print,
    bundle: &[u8],
    scratch: &mut [u8],
    counts: &mut Counts,
) -> io::Result<()> {
    for function in 0..function_count(bundle) {
        let ask = |tuple| Question::Lookup(Send { function, tuple });
        compare_tuples(rt, bundle, scratch, arity(bundle, function), ask, counts)?;
    }
    Ok(())
}

// Compares what a call leaves in a scratch that held this byte everywhere.
fn compare_scratch(
    rt: &impl Print,
    bundle: &[u8],
    filler: u8,
    counts: &mut Counts,
) -> io::Result<()> {
    let question = Question::Ancestry(0, 0);
    let mut scratch = [filler; SCRATCH];
    let mut left = [filler; SCRATCH];
    put_matrix(bundle, &mut left);
    let got = question.answer(bundle, &mut scratch);
    judge(rt, bundle, question, got, scratch == left, counts)
}

fn compare_bundle(
    rt: &impl Print,
    bundle: &[u8],
    scratch: &mut [u8],
    counts: &mut Counts,
) -> io::Result<()> {
    if open(bundle).is_err() {
        counts.count_bundle(false);
        return Ok(());
    }
    // A byte that is not written cannot be right both times.
    compare_scratch(rt, bundle, 0, counts)?;
    compare_scratch(rt, bundle, 255, counts)?;
    let pairs = |tuple: Tuple| Question::Ancestry(tuple.a0, tuple.a1);
    compare_tuples(rt, bundle, scratch, 2, pairs, counts)?;
    compare_functions(rt, bundle, scratch, counts)?;
    counts.count_bundle(true);
    Ok(())
}

// Bundles of four sizes take turns, and every eighth is as large as may be.
fn draw_classes(state: &mut u64, number: usize) -> usize
    ensures result_nonzero { 0 < result }
    ensures upper_bound { result ≤ 128 }
{
    if number % 8 == 7 {
        return 128;
    }
    match number % 4 {
        0 => 1 + draw(state, 6),
        1 => 7 + draw(state, 10),
        2 => 17 + draw(state, 32),
        _ => 49 + draw(state, 80),
    }
}

fn draw_plan(state: &mut u64, number: usize) -> Plan
    ensures classes_nonzero { 0 < result.classes }
    ensures classes_bound { result.classes ≤ 128 }
    ensures functions_nonzero { 0 < result.functions }
    ensures chance_nonzero { 0 < result.chance }
{
    let classes = draw_classes(state, number);
    Plan {
        classes,
        functions: 1 + draw(state, 4),
        methods: 1 + draw(state, 60),
        chance: 2 + draw(state, 30),
    }
}

fn compare_all(
    rt: &impl Print,
    space: &mut [u8],
    scratch: &mut [u8],
    counts: &mut Counts,
) -> io::Result<()> {
    let mut state: u64 = 2718281828;
    for number in 0..BUNDLES {
        let plan = draw_plan(&mut state, number);
        let len = make(space, &mut state, plan);
        if len > space.len() {
            counts.count_bundle(false);
        } else {
            compare_bundle(rt, &space[..len], scratch, counts)?;
        }
    }
    Ok(())
}

fn main(rt: HostRuntime) -> io::Result<()> {
    let mut space = [0u8; 65536];
    let mut scratch = [0u8; SCRATCH];
    let mut counts = Counts::new();
    compare_all(&rt, &mut space, &mut scratch, &mut counts)?;
    counts.print(&rt)
}
