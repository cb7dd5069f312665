// The numbers that a record holds, at the place where its section has it.
ghost use Rattle.std.specs.Prelude.{◌≡◌, ◌+◌, ◌<◌, ◌≤◌, length};
ghost use Rattle.rules.specs.Bytes.{byte};
ghost use Rattle.rules.specs.Layout.{places, class_at, class_bytes, kind_of, list_offset, list_length, arity_of, signature_at, signature_bytes, sig_tuple_at, sig_function_of, sig_result_of, method_at, method_bytes, specialiser_tuple_at, declared_tuple_at, function_of, result_of, body_offset, body_length};

use crate::bundle::Bundle;
use crate::bytes::{byte_at, word_at};
use crate::open::Records;

impl Records<'_> {
    // Where the record of class c begins.
    #[tactic(auto, unfolding(rules::specs::Layout::class_at))]
    pub fn class_record(&self, c: usize) -> usize
        requires { c < self.now.tables.classes }
        ensures { (result ≡ class_at self.now.bytes.now c) × (result + class_bytes ≤ length self.now.bytes.now) }
    {
        self.tables.class_at + Bundle::CLASS_BYTES * c
    }

    // Where the record of signature s begins.
    #[tactic(auto, unfolding(rules::specs::Layout::signature_at))]
    pub fn signature_record(&self, s: usize) -> usize
        requires { s < self.now.tables.signatures }
        ensures { (result ≡ signature_at self.now.bytes.now s) × (result + signature_bytes ≤ length self.now.bytes.now) }
    {
        self.tables.signature_at + Bundle::SIGNATURE_BYTES * s
    }

    // Where the record of method m begins.
    #[tactic(auto, unfolding(rules::specs::Layout::method_at))]
    pub fn method_record(&self, m: usize) -> usize
        requires { m < self.now.tables.methods }
        ensures { (result ≡ method_at self.now.bytes.now m) × (result + method_bytes ≤ length self.now.bytes.now) }
    {
        self.tables.method_at + Bundle::METHOD_BYTES * m
    }

    // Where the places of signature s begin.
    pub fn sig_tuple_at(&self, s: usize) -> usize
        requires { s < self.now.tables.signatures }
        ensures { (result ≡ sig_tuple_at self.now.bytes.now s) × (result + places ≤ length self.now.bytes.now) }
    {
        self.signature_record(s) + Bundle::SIGNATURE_PLACES
    }

    // Where the specialisers of method m begin.
    pub fn specialiser_tuple_at(&self, m: usize) -> usize
        requires { m < self.now.tables.methods }
        ensures { (result ≡ specialiser_tuple_at self.now.bytes.now m) × (result + places ≤ length self.now.bytes.now) }
    {
        self.method_record(m) + Bundle::METHOD_SPECIALISERS
    }

    // Where the declared classes of method m begin.
    pub fn declared_tuple_at(&self, m: usize) -> usize
        requires { m < self.now.tables.methods }
        ensures { (result ≡ declared_tuple_at self.now.bytes.now m) × (result + places ≤ length self.now.bytes.now) }
    {
        self.method_record(m) + Bundle::METHOD_DECLARED
    }

    // The kind of class c.
    #[tactic(auto, unfolding(rules::specs::Layout::kind_of))]
    pub fn kind(&self, c: usize) -> usize
        requires { c < self.now.tables.classes }
        ensures { result ≡ kind_of self.now.bytes.now c }
    {
        byte_at(self.bytes, self.class_record(c))
    }

    // Where the parent list of class c begins in the parents section.
    #[tactic(auto, unfolding(rules::specs::Layout::list_offset))]
    pub fn list_offset(&self, c: usize) -> usize
        requires { c < self.now.tables.classes }
        ensures { (result ≡ list_offset self.now.bytes.now c) × (result < 65536) }
    {
        word_at(self.bytes, self.class_record(c) + 2)
    }

    // How many parents class c has.
    #[tactic(auto, unfolding(rules::specs::Layout::list_length))]
    pub fn parent_count(&self, c: usize) -> usize
        requires { c < self.now.tables.classes }
        ensures { (result ≡ list_length self.now.bytes.now c) × (result < 65536) }
    {
        word_at(self.bytes, self.class_record(c) + 4)
    }

    // How many arguments function f has.
    #[tactic(auto, unfolding(rules::specs::Layout::arity_of))]
    pub fn arity(&self, f: usize) -> usize
        requires { f < self.now.tables.functions }
        ensures { result ≡ arity_of self.now.bytes.now f }
    {
        byte_at(self.bytes, self.tables.function_at + f)
    }

    // The function of signature s.
    #[tactic(auto, unfolding(rules::specs::Layout::sig_function_of))]
    pub fn sig_function(&self, s: usize) -> usize
        requires { s < self.now.tables.signatures }
        ensures { result ≡ sig_function_of self.now.bytes.now s }
    {
        byte_at(self.bytes, self.signature_record(s))
    }

    // The result class of signature s.
    #[tactic(auto, unfolding(rules::specs::Layout::sig_result_of))]
    pub fn sig_result(&self, s: usize) -> usize
        requires { s < self.now.tables.signatures }
        ensures { result ≡ sig_result_of self.now.bytes.now s }
    {
        byte_at(
            self.bytes,
            self.signature_record(s) + Bundle::SIGNATURE_RESULT,
        )
    }

    // The function of method m.
    #[tactic(auto, unfolding(rules::specs::Layout::function_of))]
    pub fn function(&self, m: usize) -> usize
        requires { m < self.now.tables.methods }
        ensures { result ≡ function_of self.now.bytes.now m }
    {
        byte_at(self.bytes, self.method_record(m))
    }

    // The result class of method m.
    #[tactic(auto, unfolding(rules::specs::Layout::result_of))]
    pub fn result(&self, m: usize) -> usize
        requires { m < self.now.tables.methods }
        ensures { result ≡ result_of self.now.bytes.now m }
    {
        byte_at(self.bytes, self.method_record(m) + Bundle::METHOD_RESULT)
    }

    // Where the body of method m begins in the code section.
    #[tactic(auto, unfolding(rules::specs::Layout::body_offset))]
    pub fn body_offset(&self, m: usize) -> usize
        requires { m < self.now.tables.methods }
        ensures { (result ≡ body_offset self.now.bytes.now m) × (result < 65536) }
    {
        word_at(self.bytes, self.method_record(m) + Bundle::METHOD_BODY)
    }

    // How many bytes the body of method m has.
    #[tactic(auto, unfolding(rules::specs::Layout::body_length))]
    pub fn body_length(&self, m: usize) -> usize
        requires { m < self.now.tables.methods }
        ensures { (result ≡ body_length self.now.bytes.now m) × (result < 65536) }
    {
        word_at(
            self.bytes,
            self.method_record(m) + Bundle::METHOD_BODY_LENGTH,
        )
    }

    // The byte after the kind of class c.
    pub fn filler(&self, c: usize) -> usize
        requires { c < self.now.tables.classes }
        ensures { result ≡ byte self.now.bytes.now (class_at self.now.bytes.now c + 1) }
    {
        byte_at(self.bytes, self.class_record(c) + 1)
    }
}
