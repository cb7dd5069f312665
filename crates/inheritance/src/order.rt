// An order of the classes in which each stands after its parents; there is none exactly where inheritance has a cycle. Most bundles have their classes so by number.
// Of another the classes are placed by a walk: from each class to a parent that is not placed yet, and so on; a class is placed once its parents are. The classes on
// the way back are a stack, no longer than there are classes: one more, and a class is on it twice.
ghost use Rattle.std.specs.Prelude.{◌≡◌, false, ℕ, ◌<◌, ◌≤◌, length, get_or, take, MatchOption};
ghost use Rattle.rules.specs.Layout.{max_classes, parents_of};
ghost use Rattle.inheritance.specs.Found.{found};
ghost use Rattle.inheritance.specs.Order.{lower, in_number_order, is_placed, waiting, Acyclic, Placing, Whole, Walked};

use arrayvec::ArrayVec;
use layout::bundle::Bundle;
use layout::bytes::byte_at;
use layout::open::ListedBundle;

const CLASSES: usize = Bundle::CLASSES;

// Classes one after the other.
pub type ClassList = ArrayVec<u8, CLASSES>;

// An order of the classes: the first `count` of the array.
#[derive(Clone, Copy)]
pub struct Order {
    pub classes: [u8; CLASSES],
    pub count: usize,
}

impl Order {
    // The classes of a list, as a value that can be copied.
    fn of(list: &ClassList) -> Order
        ensures classes { take result.count result.classes ≡ list.now.items }
        ensures count { result.count ≡ length list.now.items }
    {
        let count = list.len();
        let mut classes = [0; CLASSES];
        classes[..count].copy_from_slice(list.as_slice());
        Order { classes, count }
    }
}

// Whether all parents of class c have lower numbers. They rise, so the last one tells.
fn parents_lower(bundle: &ListedBundle<'_>, c: usize) -> bool
    requires { c < bundle.now.tables.classes }
    ensures { result ≡ lower (parents_of bundle.now.bytes.now) c }
{
    let n = bundle.parent_count(c);
    if n == 0 {
        return true;
    }
    bundle.parent(c, n - 1) < c
}

// Whether every class has a higher number than its parents.
fn in_number_order(bundle: &ListedBundle<'_>) -> bool
    ensures { result ≡ in_number_order (parents_of bundle.now.bytes.now) bundle.now.tables.classes }
{
    for c in 0..bundle.tables.classes {
        if !parents_lower(bundle, c) {
            return false;
        }
    }
    true
}

// The numbers of n classes, rising.
fn numbers(n: usize) -> ClassList
    requires { n ≤ max_classes }
    ensures { (length result.items ≡ n) × ((i : ℕ) → i < n → get_or result.items i 0 ≡ i) }
{
    let mut order = ArrayVec::new();
    for c in 0..n {
        order.push(c as u8);
    }
    order
}

// The first parent of class c that is not placed.
fn waiting_for(bundle: &ListedBundle<'_>, placed: &[bool; CLASSES], c: usize) -> Option<usize>
    requires { c < bundle.now.tables.classes }
    ensures { found result ≡ waiting (parents_of bundle.now.bytes.now) placed.now c }
{
    for i in 0..bundle.parent_count(c) {
        let p = bundle.parent(c, i);
        if !placed[p] {
            return Some(p);
        }
    }
    None
}

// Places class c, and before it what it waits for; nothing where it meets a cycle.
fn walk(
    bundle: &ListedBundle<'_>,
    c: usize,
    order: &mut ClassList,
    placed: &mut [bool; CLASSES],
) -> Option<()>
    requires c_lt_classes { c < bundle.now.tables.classes }
    requires c_open { is_placed placed.old c ≡ false }
    requires placing { Placing (parents_of bundle.now.bytes.now) bundle.now.tables.classes order.old.items placed.old }
    ensures { Walked (parents_of bundle.now.bytes.now) bundle.now.tables.classes c placed.old result order.new.items placed.new }
{
    let mut stack: ClassList = ArrayVec::new();
    stack.push(c as u8);
    // A `while`: the stack grows and shrinks, so no index counts the turns.
    while !stack.is_empty() {
        let top = byte_at(stack.as_slice(), stack.len() - 1);
        if let Some(p) = waiting_for(bundle, placed, top) {
            if stack.len() == bundle.tables.classes {
                return None;
            }
            stack.push(p as u8);
            continue;
        }
        order.push(top as u8);
        placed[top] = true;
        stack.pop();
    }
    Some(())
}

// The order that walks from each class make.
fn walked_order(bundle: &ListedBundle<'_>) -> Option<ClassList>
    ensures { MatchOption result (Acyclic (parents_of bundle.now.bytes.now) bundle.now.tables.classes → ⊥) (λ order. Whole (parents_of bundle.now.bytes.now) bundle.now.tables.classes order.items) }
{
    let mut order = ArrayVec::new();
    let mut placed = [false; CLASSES];
    for c in 0..bundle.tables.classes {
        if !placed[c] {
            walk(bundle, c, &mut order, &mut placed)?;
        }
    }
    Some(order)
}

// The classes with parents first: by number where that will do. Which of several orders it is, no answer depends on.
pub fn class_order(bundle: &ListedBundle<'_>) -> Option<Order>
    ensures { MatchOption result (Acyclic (parents_of bundle.now.bytes.now) bundle.now.tables.classes → ⊥) (λ order. (order.count ≤ bundle.now.tables.classes) × Whole (parents_of bundle.now.bytes.now) bundle.now.tables.classes (take order.count order.classes)) }
{
    if in_number_order(bundle) {
        return Some(Order::of(&numbers(bundle.tables.classes)));
    }
    let walked = walked_order(bundle)?;
    Some(Order::of(&walked))
}
