// Lookup a second time and another way: of the library only the form of a reply is used, there is no matrix, and the most specific method is found by counting. The method
// found is at least as specific as all the applicable ones, and a rival has none but itself that is as specific as it. What stands here and in `ancestry`,
// `matrix` and `record` takes a bundle that opens. Of another it says nothing of use, but it reads no byte that is not there, and it ends.
ghost use Rattle.std.specs.Prelude.{◌<◌};

use crate::ancestry::is_under;
use crate::record::{Places, function_of, method_count, specialisers};
use reply::Reply;

// Whether each class is under the other at its place. All three places are compared: an unused one holds class 0 on both sides.
fn all_under(bundle: &[u8], classes: Places, others: Places) -> bool {
    is_under(bundle, classes.p0, others.p0)
        && is_under(bundle, classes.p1, others.p1)
        && is_under(bundle, classes.p2, others.p2)
}

// Whether each class is the one at its place. Unused places hold 0 on both sides.
fn all_same(classes: Places, others: Places) -> bool {
    classes.p0 == others.p0 && classes.p1 == others.p1 && classes.p2 == others.p2
}

// Marks the methods of the function that apply to the argument classes with 1, and counts them.
fn mark_applicable(bundle: &[u8], function: usize, args: Places, marks: &mut [u8; 512]) -> usize {
    let methods = method_count(bundle);
    let mut count = 0;
    for m in 0..methods {
        if function_of(bundle, m) != function {
            continue;
        }
        if all_under(bundle, args, specialisers(bundle, m)) {
            marks[m] = 1;
            count += 1;
        }
    }
    count
}

// How a method stands among the applicable ones, itself among them: how many it is at least as specific as, and how many are as specific as it.
#[derive(Clone, Copy)]
struct Rank {
    below: usize,
    above: usize,
}

fn rank_of(bundle: &[u8], applicable: &[u8; 512], method: usize) -> Rank
    requires { method < 512 }
{
    let mine = specialisers(bundle, method);
    let methods = method_count(bundle);
    let mut below = 0;
    let mut above = 0;
    for m in 0..methods {
        if applicable[m] == 0 {
            continue;
        }
        let theirs = specialisers(bundle, m);
        below += usize::from(all_under(bundle, mine, theirs));
        above += usize::from(all_under(bundle, theirs, mine));
    }
    Rank { below, above }
}

// The last two rivals so far.
#[derive(Clone, Copy)]
struct Rivals {
    newest: usize,
    next: usize,
}

impl Rivals {
    fn new() -> Rivals {
        Rivals { newest: 0, next: 0 }
    }

    fn with(self, method: usize) -> Rivals {
        Rivals {
            newest: method,
            next: self.newest,
        }
    }
}

// Goes through the applicable methods, of which there are `count`, lowest first: the method found, with its specialisers, or the last rivals.
fn search(bundle: &[u8], applicable: &[u8; 512], count: usize) -> Result<(usize, Places), Rivals> {
    let methods = method_count(bundle);
    let mut rivals = Rivals::new();
    for candidate in 0..methods {
        if applicable[candidate] == 0 {
            continue;
        }
        let standing = rank_of(bundle, applicable, candidate);
        if standing.below == count {
            return Ok((candidate, specialisers(bundle, candidate)));
        }
        if standing.above == 1 {
            rivals = rivals.with(candidate);
        }
    }
    Err(rivals)
}

// A number that names the send, and two methods or none.
fn of_send(number: u8, function: usize, args: Places, m: usize, n: usize) -> Reply {
    Reply {
        number,
        values: [function, args.p0, args.p1, args.p2, m, n, 0, 0],
    }
}

// What a send of a function of the bundle with classes of the bundle, 0 at unused places, finds: 0 with the method and whether it is exact, 10, or 11 with the
// two newest rivals.
pub(crate) fn lookup(bundle: &[u8], function: usize, args: Places) -> Reply {
    let mut applicable = [0u8; 512];
    let count = mark_applicable(bundle, function, args, &mut applicable);
    if count == 0 {
        return of_send(10, function, args, 0, 0);
    }
    match search(bundle, &applicable, count) {
        Ok((m, own)) => Reply::given(m, usize::from(all_same(args, own))),
        Err(rivals) => of_send(11, function, args, rivals.newest, rivals.next),
    }
}
