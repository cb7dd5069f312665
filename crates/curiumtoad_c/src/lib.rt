// The entry points for C, and for Rust outside the kit. Each function returns the number of its answer (M 11), 0 where nothing is refused, and writes eight values;
// include/curiumtoad.h says which. Whatever is passed, an answer comes back.
#![tactic(auto)]

mod body;

ghost use Rattle.std.specs.Prelude.{◌≡◌, [], ◌∷◌, ◌≤◌, length};
ghost use Rattle.rules.specs.Calls.{opening_call, ancestry_call, lookup_call, send_type_call, check_call, witness_call, body_view_call, run_call, scratch_after, row_after};
ghost use Rattle.rules.specs.Accepted.{accepted_call};
ghost use Rattle.rules.specs.Chart.{chart_call, buffer_after};
ghost use Rattle.rules.specs.Rough.{rough_call};
ghost use Rattle.chart_line.specs.Charted.{length_said};
ghost use Rattle.reply.specs.Replies.{reply, nothing, counts, ancestry_values, match_values, line_length, rough_values, run_reply, accepted_reply};
ghost use Rattle.sound_runs.specs.Accepted.{EndsSoundly};
ghost use Rattle.text.specs.Listed.{listing_call, listing_after};
ghost use Rattle.curiumtoad_c.specs.Exported.{version, Handed, placed};

use crate::body::body_place;
use curiumtoad::ancestry::ancestry;
use curiumtoad::chart::chart;
use curiumtoad::check::check;
use curiumtoad::lookup::lookup;
use curiumtoad::opening::open;
use curiumtoad::rough::rough;
use curiumtoad::run::run;
use curiumtoad::run_accepted::run_accepted;
use curiumtoad::send_type::send_type;
use curiumtoad::witness::witness;
use curiumtoad::{Send, Tuple};
use reply::Reply;
use text::listing::{listing, listing_reply};

// Writes the values, and gives the number.
fn give(values: &mut [usize; 8], reply: Reply) -> u8
    ensures { Handed reply result values.new }
{
    let all = reply.values;
    *values = all;
    reply.number
}

// The version that a caller compares with that of its header.
#[unsafe(no_mangle)]
pub extern "C" fn curiumtoad_version() -> u32
    ensures { result ≡ version }
{
    5
}

// Opening: the four counts.
#[unsafe(no_mangle)]
pub extern "C" fn curiumtoad_open(bundle: &[u8], values: &mut [usize; 8]) -> u8
    ensures { Handed (reply counts (opening_call bundle.now)) result values.new }
{
    give(values, Reply::from(open(bundle)))
}

// The ancestry question: 1 for the same class, 2 for an heir, 0 for neither.
#[unsafe(no_mangle)]
pub extern "C" fn curiumtoad_ancestry(
    bundle: &[u8],
    scratch: &mut [u8],
    a: usize,
    b: usize,
    values: &mut [usize; 8],
) -> u8
    ensures handed { Handed (reply ancestry_values (ancestry_call bundle.now (length scratch.old) a b)) result values.new }
    ensures scratch_after { scratch.new ≡ scratch_after bundle.now scratch.old }
{
    let answer = ancestry(bundle, scratch, a, b);
    give(values, Reply::from(answer))
}

// Lookup: the method found, and 1 where it is exact.
#[unsafe(no_mangle)]
pub extern "C" fn curiumtoad_lookup(
    bundle: &[u8],
    scratch: &mut [u8],
    function: usize,
    a0: usize,
    a1: usize,
    a2: usize,
    values: &mut [usize; 8],
) -> u8
    ensures handed { Handed (reply match_values (lookup_call bundle.now (length scratch.old) function (a0 ∷ a1 ∷ a2 ∷ []))) result values.new }
    ensures scratch_after { scratch.new ≡ scratch_after bundle.now scratch.old }
{
    let tuple = Tuple { a0, a1, a2 };
    let send = Send { function, tuple };
    let answer = lookup(bundle, scratch, send);
    give(values, Reply::from(answer))
}

// The send type: the type is in the row.
#[unsafe(no_mangle)]
pub extern "C" fn curiumtoad_send_type(
    bundle: &[u8],
    scratch: &mut [u8],
    row: &mut [u8],
    function: usize,
    a0: usize,
    a1: usize,
    a2: usize,
    values: &mut [usize; 8],
) -> u8
    ensures handed { Handed (reply nothing (send_type_call bundle.now (length scratch.old) (length row.old) function (a0 ∷ a1 ∷ a2 ∷ []))) result values.new }
    ensures scratch_after { scratch.new ≡ scratch_after bundle.now scratch.old }
    ensures row_after { row.new ≡ row_after bundle.now (length scratch.old) row.old function (a0 ∷ a1 ∷ a2 ∷ []) }
{
    let tuple = Tuple { a0, a1, a2 };
    let send = Send { function, tuple };
    let answer = send_type(bundle, scratch, row, send);
    give(values, Reply::from(answer))
}

// A line of a chart: its length, with the line in the buffer.
#[unsafe(no_mangle)]
pub extern "C" fn curiumtoad_chart(
    bundle: &[u8],
    scratch: &mut [u8],
    text: &mut [u8],
    function: usize,
    line: usize,
    values: &mut [usize; 8],
) -> u8
    ensures handed { Handed (reply line_length (length_said (chart_call bundle.now (length scratch.old) (length text.old) function line))) result values.new }
    ensures scratch_after { scratch.new ≡ scratch_after bundle.now scratch.old }
    ensures text_after { text.new ≡ buffer_after bundle.now (length scratch.old) text.old function line }
{
    let answer = chart(bundle, scratch, text, function, line);
    give(values, Reply::from(answer))
}

// The rough call: what the first value says, and where it is 0 the method.
#[unsafe(no_mangle)]
pub extern "C" fn curiumtoad_rough(
    bundle: &[u8],
    scratch: &mut [u8],
    function: usize,
    a0: usize,
    a1: usize,
    a2: usize,
    values: &mut [usize; 8],
) -> u8
    ensures handed { Handed (reply rough_values (rough_call bundle.now (length scratch.old) function (a0 ∷ a1 ∷ a2 ∷ []))) result values.new }
    ensures scratch_after { scratch.new ≡ scratch_after bundle.now scratch.old }
{
    let tuple = Tuple { a0, a1, a2 };
    let send = Send { function, tuple };
    let answer = rough(bundle, scratch, send);
    give(values, Reply::from(answer))
}

// The witness check: the rule holds, or 10 to 13.
#[unsafe(no_mangle)]
pub extern "C" fn curiumtoad_witness(
    bundle: &[u8],
    scratch: &mut [u8],
    signature: usize,
    a0: usize,
    a1: usize,
    a2: usize,
    values: &mut [usize; 8],
) -> u8
    ensures handed { Handed (reply nothing (witness_call bundle.now (length scratch.old) signature (a0 ∷ a1 ∷ a2 ∷ []))) result values.new }
    ensures scratch_after { scratch.new ≡ scratch_after bundle.now scratch.old }
{
    let tuple = Tuple { a0, a1, a2 };
    let answer = witness(bundle, scratch, signature, tuple);
    give(values, Reply::from(answer))
}

// The body view: where the method's code begins within the bundle, and its length.
#[unsafe(no_mangle)]
pub extern "C" fn curiumtoad_body(bundle: &[u8], method: usize, values: &mut [usize; 8]) -> u8
    ensures { Handed (reply (placed bundle.now method) (body_view_call bundle.now method)) result values.new }
{
    give(values, body_place(bundle, method))
}

// The check of the whole bundle: accepted, or what is broken.
#[unsafe(no_mangle)]
pub extern "C" fn curiumtoad_check(bundle: &[u8], scratch: &mut [u8], values: &mut [usize; 8]) -> u8
    ensures handed { Handed (reply nothing (check_call bundle.now (length scratch.old))) result values.new }
    ensures scratch_after { scratch.new ≡ scratch_after bundle.now scratch.old }
{
    let verdict = check(bundle, scratch);
    give(values, Reply::from(verdict))
}

// A run: its ending, and the steps made.
#[unsafe(no_mangle)]
pub extern "C" fn curiumtoad_run(
    bundle: &[u8],
    scratch: &mut [u8],
    function: usize,
    a0: usize,
    a1: usize,
    a2: usize,
    count: u32,
    values: &mut [usize; 8],
) -> u8
    ensures handed { Handed (run_reply (run_call bundle.now (length scratch.old) function (a0 ∷ a1 ∷ a2 ∷ []) count)) result values.new }
    ensures scratch_after { scratch.new ≡ scratch_after bundle.now scratch.old }
{
    let tuple = Tuple { a0, a1, a2 };
    let send = Send { function, tuple };
    let answer = run(bundle, scratch, send, count);
    give(values, Reply::from(answer))
}

// A run of an accepted bundle whose opening send some signature covers.
#[unsafe(no_mangle)]
pub extern "C" fn curiumtoad_run_accepted(
    bundle: &[u8],
    scratch: &mut [u8],
    function: usize,
    a0: usize,
    a1: usize,
    a2: usize,
    count: u32,
    values: &mut [usize; 8],
) -> u8
    ensures handed { Handed (accepted_reply (accepted_call bundle.now (length scratch.old) function (a0 ∷ a1 ∷ a2 ∷ []) count)) result values.new }
    ensures fact { let call = accepted_call bundle.now (length scratch.old) function (a0 ∷ a1 ∷ a2 ∷ []) count in EndsSoundly bundle.now (length scratch.old) function (a0 ∷ a1 ∷ a2 ∷ []) count call }
    ensures scratch_after { scratch.new ≡ scratch_after bundle.now scratch.old }
{
    let tuple = Tuple { a0, a1, a2 };
    let send = Send { function, tuple };
    let answer = run_accepted(bundle, scratch, send, count);
    give(values, Reply::from(answer))
}

// The listing: its length, with the text in the buffer; or 20, and the buffer is as it was. 512 bytes are enough for any.
#[unsafe(no_mangle)]
pub extern "C" fn curiumtoad_listing(bundle: &[u8], text: &mut [u8], values: &mut [usize; 8]) -> u8
    ensures handed { Handed (reply line_length (listing_call bundle.now (length text.old))) result values.new }
    ensures text_after { text.new ≡ listing_after bundle.now text.old }
    ensures value { 512 ≤ length text.old → result ≡ 0 }
{
    let answer = listing(bundle, text);
    give(values, listing_reply(answer))
}
