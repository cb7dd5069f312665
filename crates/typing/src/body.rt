// The check of a body: its instructions one after the other, over a stack of types.
ghost use Rattle.std.specs.Prelude.{◌≡◌, true, ◌<◌, length};
ghost use Rattle.rules.specs.Layout.{places};
ghost use Rattle.rules.specs.Model.{operand_rule};
ghost use Rattle.rules.specs.Types.{arg_type, type_body};
ghost use Rattle.layout.specs.Instruction.{instr};
ghost use Rattle.layout.specs.Bundles.{model};
ghost use Rattle.typing.specs.Rows.{RowOf};
ghost use Rattle.typing.specs.Bodies.{typing_of, Applied, AppliedSend, Ended};

use crate::resend::apply_resend;
use crate::row::{Row, Stack, class_row, join};
use crate::send::send_row;
use answers::number::Number;
use dispatch::index::IndexedBundle;
use layout::instruction::Instruction;
use layout::open::OpenBundle;
use subclasses::prepared::PreparedBundle;

// Why a body does not type: a number of the rules, and the instruction where it breaks; the end counts as one more.
#[derive(Clone, Copy)]
pub struct BodyError {
    pub number: Number,
    pub instruction: usize,
}

// The row of argument `place` of method m: its specialiser's type and its declared class's together.
fn arg_row(prepared: &PreparedBundle<'_>, m: usize, place: usize) -> Row
    requires m_lt_methods { m < prepared.now.bundle.tables.methods }
    requires place_lt_places { place < places }
    ensures { let M = model prepared.now.bundle in RowOf M (arg_type M m place) result }
{
    let bundle = &prepared.bundle;
    let mut row = class_row(prepared, bundle.specialiser(m, place));
    join(prepared, bundle.declared(m, place), &mut row);
    row
}

// A send of f takes its arguments' types off the stack, last argument on top, and puts its own there.
fn apply_send(prepared: &PreparedBundle<'_>, f: usize, stack: &mut Stack) -> Result<(), Number>
    requires f_lt_functions { f < prepared.now.bundle.tables.functions }
    requires room { length stack.old.items < 64 }
    ensures { AppliedSend (model prepared.now.bundle) f stack.old.items stack.new.items result }
{
    let n = prepared.bundle.arity(f);
    let below = stack.len().checked_sub(n).ok_or(Number::BadStack)?;
    let row = send_row(prepared, &stack.as_slice()[below..], f).ok_or(Number::NoLicence)?;
    stack.truncate(below);
    stack.push(row);
    Ok(())
}

// One instruction of method m: what it does to the stack, or the number by which the body breaks there.
fn apply(
    indexed: &IndexedBundle<'_>,
    m: usize,
    i: Instruction,
    stack: &mut Stack,
) -> Result<(), Number>
    requires m_lt_methods { m < indexed.now.prepared.bundle.tables.methods }
    requires i_value { let M = model indexed.now.prepared.bundle in operand_rule M (M.arity (M.function m)) (instr i) ≡ true }
    requires room { length stack.old.items < 64 }
    ensures { Applied (model indexed.now.prepared.bundle) m (instr i) stack.old.items stack.new.items result }
{
    let prepared = &indexed.prepared;
    match i {
        Instruction::Arg(place) => {
            stack.push(arg_row(prepared, m, place));
            Ok(())
        }
        Instruction::New(c) => {
            if prepared.bundle.is_concrete(c) {
                stack.push(class_row(prepared, c));
                Ok(())
            } else {
                Err(Number::AbstractNew)
            }
        }
        Instruction::Send(f) => apply_send(prepared, f, stack),
        Instruction::Resend => apply_resend(indexed, m, stack),
    }
}

// The end of the body of method m: one type is left, and it contains the method's result class.
fn end(bundle: &OpenBundle<'_>, m: usize, stack: &Stack) -> Result<(), Number>
    requires { m < bundle.now.tables.methods }
    ensures { Ended (model bundle.now) m stack.now.items result }
{
    let [row] = stack.as_slice() else {
        return Err(Number::BadStack);
    };
    let c = bundle.result(m);
    if row[c] == 0 {
        return Err(Number::LooseResult);
    }
    Ok(())
}

// The check of method m's body, by a pass over its instructions.
pub(crate) fn type_body(indexed: &IndexedBundle<'_>, m: usize) -> Result<(), BodyError>
    requires { m < indexed.now.prepared.bundle.tables.methods }
    ensures { typing_of result ≡ type_body (model indexed.now.prepared.bundle) m }
{
    let bundle = &indexed.prepared.bundle;
    let n = bundle.size(m);
    let mut stack = Stack::new();
    for at in 0..n {
        let i = bundle.instruction(m, at);
        if let Err(number) = apply(indexed, m, i, &mut stack) {
            return Err(BodyError {
                number,
                instruction: at,
            });
        }
    }
    if let Err(number) = end(bundle, m, &stack) {
        return Err(BodyError {
            number,
            instruction: n,
        });
    }
    Ok(())
}
