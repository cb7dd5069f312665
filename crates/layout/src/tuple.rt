// Tuples of classes, a byte for each: those at the used places of a record of an opened bundle, as a part of it, and whether two are the same.
ghost use Rattle.std.specs.Prelude.{◌≡◌, ◌+◌, ◌<◌, eqb, length};
ghost use Rattle.rules.specs.Bounded.{matching};
ghost use Rattle.rules.specs.Layout.{sig_tuple_at, specialiser_tuple_at, declared_tuple_at};
ghost use Rattle.layout.specs.Arity.{OfArity};
ghost use Rattle.layout.specs.Bundles.{model};

use crate::bytes::part;
use crate::open::OpenBundle;

impl<'a> OpenBundle<'a> {
    // The specialisers of method m, of a function with n arguments.
    pub fn specialisers(&self, n: usize, m: usize) -> &'a [u8]
        requires { OfArity (model self.now) n m }
        ensures ref_ptr_value { result.ref_ptr ≡ (self.now.bytes.ref_ptr.0, specialiser_tuple_at self.now.bytes.now m + self.now.bytes.ref_ptr.1) }
        ensures result_value { result.now ≡ (model self.now).specialisers m }
    {
        part(self.bytes, self.records().specialiser_tuple_at(m), n)
    }

    // The declared classes of method m, of a function with n arguments.
    pub fn declared_classes(&self, n: usize, m: usize) -> &'a [u8]
        requires { OfArity (model self.now) n m }
        ensures ref_ptr_value { result.ref_ptr ≡ (self.now.bytes.ref_ptr.0, declared_tuple_at self.now.bytes.now m + self.now.bytes.ref_ptr.1) }
        ensures result_value { result.now ≡ (model self.now).declared m }
    {
        part(self.bytes, self.records().declared_tuple_at(m), n)
    }

    // The argument classes of signature s, of a function with n arguments.
    pub fn signature_classes(&self, n: usize, s: usize) -> &'a [u8]
        requires s_lt_signatures { s < self.now.tables.signatures }
        requires n_value { n ≡ (model self.now).arity ((model self.now).sig_function s) }
        ensures ref_ptr_value { result.ref_ptr ≡ (self.now.bytes.ref_ptr.0, sig_tuple_at self.now.bytes.now s + self.now.bytes.ref_ptr.1) }
        ensures result_value { result.now ≡ (model self.now).sig_args s }
    {
        part(self.bytes, self.records().sig_tuple_at(s), n)
    }
}

// Whether each class of the one tuple is the same as the class at its place in the other.
pub fn each_same(classes: &[u8], others: &[u8]) -> bool
    requires { length classes.now ≡ length others.now }
    ensures { result ≡ matching eqb classes.now others.now }
{
    classes == others
}
