// The method that leads a list of applicable ones, or the two rivals to name.
ghost use Rattle.std.specs.Prelude.{◌≡◌, ◌<◌, ◌≤◌, length};
ghost use Rattle.rules.specs.Lookup.{as_specific, leads, unbeaten, select};
ghost use Rattle.layout.specs.Arity.{OfArity};
ghost use Rattle.layout.specs.Bundles.{model};
ghost use Rattle.dispatch.specs.Listed.{Candidates as FromOne, Candidates-prop};
ghost use Rattle.dispatch.specs.Rivals.{rivals_before, LastRival};
ghost use Rattle.dispatch.specs.Found.{found_of};

use answers::failure::NotFound;
use subclasses::prepared::PreparedBundle;

// Whether method m is at least as specific as method o, both of functions with n arguments.
pub fn as_specific(prepared: &PreparedBundle<'_>, n: usize, m: usize, o: usize) -> bool
    requires of_arity { OfArity (model prepared.now.bundle) n m }
    requires of_arity_2 { OfArity (model prepared.now.bundle) n o }
    ensures { result ≡ as_specific (model prepared.now.bundle) m o }
{
    let own = prepared.bundle.specialisers(n, m);
    let other = prepared.bundle.specialisers(n, o);
    prepared.each_under(own, other)
}

// Methods of function f, of n arguments, to choose from.
#[derive(Clone, Copy)]
pub struct Candidates<'a, 'b> {
    pub prepared: &'a PreparedBundle<'b>,
    pub f: usize,
    pub n: usize,
    pub list: &'a [u16],
    pub ghost candidates: { FromOne (model prepared.now.bundle) f n list.now } by { Candidates-prop (model prepared.now.bundle) f n list.now },
}

impl Candidates<'_, '_> {
    // Whether no other method of the list is at least as specific as method m.
    fn unbeaten(&self, m: usize) -> bool
        requires { OfArity (model self.now.prepared.now.bundle) self.now.n m }
        ensures { result ≡ unbeaten (model self.now.prepared.now.bundle) self.now.list.now m }
    {
        for o in self.list {
            let o = usize::from(*o);
            if o != m && as_specific(self.prepared, self.n, o, m) {
                return false;
            }
        }
        true
    }

    // The position of the last rival of the list before `end`; there is one.
    fn last_rival(&self, end: usize) -> usize
        requires end_in_bounds { end ≤ length self.now.list.now }
        requires nonzero { 0 < length (rivals_before (model self.now.prepared.now.bundle) self.now.list.now end) }
        ensures { LastRival (model self.now.prepared.now.bundle) self.now.list.now end result }
    {
        for at in (0..end).rev() {
            if self.unbeaten(usize::from(self.list[at])) {
                return at;
            }
        }
        unreachable!()
    }

    // The position of a method that is at least as specific as the one held before it: where the search for the leader had best begin. Any position of the
    // list would do, since the search comes to every other.
    fn first_candidate(&self) -> usize
        requires { 0 < length self.now.list.now }
        ensures { result < length self.now.list.now }
    {
        let mut held = 0;
        for i in 1..self.list.len() {
            let m = usize::from(self.list[i]);
            let o = usize::from(self.list[held]);
            if as_specific(self.prepared, self.n, m, o) {
                held = i;
            }
        }
        held
    }

    // Whether method m is at least as specific as each other method of the list (M 5.3).
    fn leads(&self, m: usize) -> bool
        requires { OfArity (model self.now.prepared.now.bundle) self.now.n m }
        ensures { result ≡ leads (model self.now.prepared.now.bundle) self.now.list.now m }
    {
        for o in self.list {
            let o = usize::from(*o);
            if o != m && !as_specific(self.prepared, self.n, m, o) {
                return false;
            }
        }
        true
    }

    // The leader of the list (M 5.3), or else its last two rivals (M 5.5). The first candidate is tried before the list from its beginning: a list has no two
    // leaders. The second rival is looked for where the search for the first ended.
    pub fn select(&self) -> Result<usize, NotFound>
        ensures { found_of result ≡ select (model self.now.prepared.now.bundle) self.now.list.now }
    {
        if self.list.is_empty() {
            return Err(NotFound::Missing);
        }
        let candidate = self.first_candidate();
        let m = usize::from(self.list[candidate]);
        if self.leads(m) {
            return Ok(m);
        }
        for m in self.list {
            let m = usize::from(*m);
            if self.leads(m) {
                return Ok(m);
            }
        }
        let last = self.last_rival(self.list.len());
        let newest = usize::from(self.list[last]);
        let before = self.last_rival(last);
        let next = usize::from(self.list[before]);
        Err(NotFound::Ambiguous(newest, next))
    }
}
