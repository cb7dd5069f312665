// A reader for each field of a record of an opened bundle: what it gives is the field of the bundle's model.
ghost use Rattle.std.specs.Prelude.{◌≡◌, true, ◌<◌, ◌≤◌, length, get_or};
ghost use Rattle.rules.specs.Layout.{max_classes, places};
ghost use Rattle.rules.specs.Model.{arg, operand_rule};
ghost use Rattle.layout.specs.Instruction.{instr};
ghost use Rattle.layout.specs.Bodies.{BodySpan};
ghost use Rattle.layout.specs.Bundles.{model};

use crate::bytes::byte_at;
use crate::instruction::{Instruction, decoded};
use crate::open::{OpenBundle, Records};

// A part of the bundle: where it begins, and how many bytes it has.
#[derive(Clone, Copy)]
pub struct Span {
    pub at: usize,
    pub len: usize,
}

impl OpenBundle<'_> {
    // The same bundle, of which it is only said that its records can be read.
    pub fn records(&self) -> Records<'_>
        ensures { (result.bytes ≡ self.now.bytes) × (result.tables ≡ self.now.tables) }
    {
        Records {
            bytes: self.bytes,
            tables: self.tables,
        }
    }

    // Whether class c has instances of its own.
    pub fn is_concrete(&self, c: usize) -> bool
        requires { c < self.now.tables.classes }
        ensures { result ≡ (model self.now).concrete c }
    {
        self.records().kind(c) == 1
    }

    // How many parents class c has.
    pub fn parent_count(&self, c: usize) -> usize
        requires { c < self.now.tables.classes }
        ensures { (result ≡ length ((model self.now).parents c)) × (result ≤ max_classes) }
    {
        self.records().parent_count(c)
    }

    // Parent i of class c.
    pub fn parent(&self, c: usize, i: usize) -> usize
        requires c_lt_classes { c < self.now.tables.classes }
        requires i_in_bounds { i < length ((model self.now).parents c) }
        ensures { (result ≡ get_or ((model self.now).parents c) i 0) × (result < c) }
    {
        byte_at(
            self.bytes,
            self.tables.parent_at + self.records().list_offset(c) + i,
        )
    }

    // How many arguments function f has.
    pub fn arity(&self, f: usize) -> usize
        requires { f < self.now.tables.functions }
        ensures { (result ≡ (model self.now).arity f) × (result ≤ places) }
    {
        self.records().arity(f)
    }

    // The function of signature s.
    pub fn sig_function(&self, s: usize) -> usize
        requires { s < self.now.tables.signatures }
        ensures { (result ≡ (model self.now).sig_function s) × (result < self.now.tables.functions) }
    {
        self.records().sig_function(s)
    }

    // The argument class of signature s at a place, 0 where the place is unused.
    pub fn sig_arg(&self, s: usize, place: usize) -> usize
        requires s_lt_signatures { s < self.now.tables.signatures }
        requires place_lt_places { place < places }
        ensures { (result ≡ get_or ((model self.now).sig_args s) place 0) × (result < self.now.tables.classes) }
    {
        byte_at(self.bytes, self.records().sig_tuple_at(s) + place)
    }

    // The result class of signature s.
    pub fn sig_result(&self, s: usize) -> usize
        requires { s < self.now.tables.signatures }
        ensures { (result ≡ (model self.now).sig_result s) × (result < self.now.tables.classes) }
    {
        self.records().sig_result(s)
    }

    // The function of method m.
    pub fn function(&self, m: usize) -> usize
        requires { m < self.now.tables.methods }
        ensures { (result ≡ (model self.now).function m) × (result < self.now.tables.functions) }
    {
        self.records().function(m)
    }

    // The specialiser of method m at a place, 0 where the place is unused.
    pub fn specialiser(&self, m: usize, place: usize) -> usize
        requires m_lt_methods { m < self.now.tables.methods }
        requires place_lt_places { place < places }
        ensures { (result ≡ get_or ((model self.now).specialisers m) place 0) × (result < self.now.tables.classes) }
    {
        byte_at(self.bytes, self.records().specialiser_tuple_at(m) + place)
    }

    // The declared class of method m at a place, 0 where the place is unused.
    pub fn declared(&self, m: usize, place: usize) -> usize
        requires m_lt_methods { m < self.now.tables.methods }
        requires place_lt_places { place < places }
        ensures { (result ≡ get_or ((model self.now).declared m) place 0) × (result < self.now.tables.classes) }
    {
        byte_at(self.bytes, self.records().declared_tuple_at(m) + place)
    }

    // The result class of method m.
    pub fn result(&self, m: usize) -> usize
        requires { m < self.now.tables.methods }
        ensures { (result ≡ (model self.now).result m) × (result < self.now.tables.classes) }
    {
        self.records().result(m)
    }

    // How many instructions the body of method m has.
    pub fn size(&self, m: usize) -> usize
        requires { m < self.now.tables.methods }
        ensures { (result ≡ length ((model self.now).body m)) × (1 ≤ result) × (result ≤ 64) }
    {
        self.records().body_length(m) / 2
    }

    // Where the body of method m lies.
    pub fn body_span(&self, m: usize) -> Span
        requires { m < self.now.tables.methods }
        ensures { BodySpan self.now.bytes.now m result }
    {
        let at = self.tables.code_at + self.records().body_offset(m);
        let len = self.records().body_length(m);
        Span { at, len }
    }

    // Instruction i of method m.
    pub fn instruction(&self, m: usize, i: usize) -> Instruction
        requires m_lt_methods { m < self.now.tables.methods }
        requires i_in_bounds { i < length ((model self.now).body m) }
        ensures result_value { instr result ≡ get_or ((model self.now).body m) i (arg 0) }
        ensures result_value_2 { let M = model self.now in operand_rule M (M.arity (M.function m)) (instr result) ≡ true }
    {
        let at = self.tables.code_at + self.records().body_offset(m) + 2 * i;
        decoded(byte_at(self.bytes, at), byte_at(self.bytes, at + 1))
    }
}
