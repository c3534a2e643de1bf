//! Instructions that hold no other.
ghost use Rattle.std.specs.Prelude.{◌≡◌, ◌∷◌, [], true, map, IfOk, IfErr};
ghost use Rattle.spec_text.specs.Instructions as Instructions;
ghost use Rattle.spec_modules.specs.Limits.{instr_fits};
ghost use Rattle.module_tree.specs.View.{instr_view, instr_ordinals};
ghost use Rattle.text_body.specs.Views.{text_of, index_of, use_of, flat_of};
ghost use Rattle.text_resolve.specs.Outcome.{Gives};
ghost use Rattle.text_resolve.specs.Views.{spaces_of};
ghost use Rattle.text_resolve.specs.Plain.{indexed_at, operator_at, plain_at, table_at};

use crate::spaces::Spaces;
use crate::types::type_number;
use crate::{Labels, Limit, ResolveFault, Space, are_in_range, index_in, indices_in, operators};
use module_tree::instr::Instr;
use module_tree::limit::LABEL_LIMIT;
use module_tree::width::{load_width, store_width};
use spec_text::Operator;
use std::alloc::Allocator;
use text_body::{Flat, Index};
use wtypes::PlainInstr;

// A `br_table`.
fn table<'a, A: Allocator + Clone>(
    alloc: &A,
    labels: &Labels<'a, A>,
    indices: &Vec<Index<'a>, A>,
    last: Index<'a>,
    ordinal: u32,
) -> Result<Instr<A>, ResolveFault>
    ensures value { Gives instr_view result (table_at (map text_of labels.now.open.items) (map index_of indices.now.items) (index_of last.entry)) }
    ensures fits { IfOk result (λ i. instr_fits (instr_view i) ≡ true) }
    ensures ordinal { IfOk result (λ i. instr_ordinals i ≡ ordinal ∷ []) }
{
    let numbers = indices_in(alloc, labels, indices)?;
    if numbers.len() > LABEL_LIMIT {
        return Err(ResolveFault::TooLarge(Limit::Labels));
    }
    are_in_range(&numbers);
    let fallback = index_in(labels, last)?;
    Ok(Instr::BrTable(ordinal, numbers, fallback))
}

// An operator with nothing behind its name.
fn simple(op: Operator) -> Option<PlainInstr>
    ensures { result ≡ Instructions.simple op }
{
    match op {
        Operator::Unreachable => Some(PlainInstr::Unreachable),
        Operator::Nop => Some(PlainInstr::Nop),
        Operator::Return => Some(PlainInstr::Return),
        Operator::Drop => Some(PlainInstr::Drop),
        Operator::Select => Some(PlainInstr::Select),
        Operator::MemorySize => Some(PlainInstr::MemorySize),
        Operator::MemoryGrow => Some(PlainInstr::MemoryGrow),
        Operator::Unary(op) => Some(PlainInstr::Unary(op)),
        Operator::Binary(op) => Some(PlainInstr::Binary(op)),
        Operator::Test(op) => Some(PlainInstr::Test(op)),
        Operator::Compare(op) => Some(PlainInstr::Compare(op)),
        Operator::Convert(op) => Some(PlainInstr::Convert(op)),
        _ => None,
    }
}

// An operator with one index.
fn indexed<'a, A: Allocator>(
    spaces: &Spaces<'a, A>,
    locals: &Space<'a, A>,
    labels: &Labels<'a, A>,
    op: Operator,
    index: Index<'a>,
) -> Result<PlainInstr, ResolveFault>
    ensures { Gives (λ i. i) result (indexed_at (spaces_of spaces.now) (map text_of locals.now.names.items) (map text_of labels.now.open.items) op (index_of index.entry)) }
{
    match op {
        Operator::Br => Ok(PlainInstr::Br(index_in(labels, index)?)),
        Operator::BrIf => Ok(PlainInstr::BrIf(index_in(labels, index)?)),
        Operator::Call => Ok(PlainInstr::Call(index_in(&spaces.funcs, index)?)),
        Operator::LocalGet => Ok(PlainInstr::LocalGet(index_in(locals, index)?)),
        Operator::LocalSet => Ok(PlainInstr::LocalSet(index_in(locals, index)?)),
        Operator::LocalTee => Ok(PlainInstr::LocalTee(index_in(locals, index)?)),
        Operator::GlobalGet => Ok(PlainInstr::GlobalGet(index_in(&spaces.globals, index)?)),
        Operator::GlobalSet => Ok(PlainInstr::GlobalSet(index_in(&spaces.globals, index)?)),
        _ => Err(ResolveFault::Broken),
    }
}

// An instruction that is one operator with what is behind its name.
fn operator<'a, A: Allocator + Clone>(
    alloc: &A,
    spaces: &Spaces<'a, A>,
    locals: &Space<'a, A>,
    labels: &Labels<'a, A>,
    flat: &Flat<'a, A>,
) -> Result<PlainInstr, ResolveFault>
    ensures { Gives (λ i. i) result (operator_at (spaces_of spaces.now) (map text_of locals.now.names.items) (map text_of labels.now.open.items) (flat_of flat.now)) }
{
    match flat {
        Flat::Simple(op) => match simple(*op) {
            Some(instr) => Ok(instr),
            None => Err(ResolveFault::Broken),
        },
        Flat::Indexed(op, index) => indexed(spaces, locals, labels, *op, *index),
        Flat::CallIndirect(written) => {
            let number = type_number(alloc, &spaces.types, &spaces.type_names, written)?;
            Ok(PlainInstr::CallIndirect(number))
        }
        Flat::Load(op, offset, align) => {
            let offset = operators::offset(*offset)?;
            let align = operators::align(load_width(*op), *align)?;
            Ok(PlainInstr::Load(*op, align, offset))
        }
        Flat::Store(op, offset, align) => {
            let offset = operators::offset(*offset)?;
            let align = operators::align(store_width(*op), *align)?;
            Ok(PlainInstr::Store(*op, align, offset))
        }
        Flat::Const(value_type, piece) => {
            Ok(PlainInstr::Const(operators::constant(*value_type, *piece)?))
        }
        _ => Err(ResolveFault::Broken),
    }
}

/// An instruction that holds no other, with its ordinal. Label 0 is the innermost, whose name stands first. It is refused
/// for another cause than memory only where it stands for no instruction within the limit on labels.
pub fn plain<'a, A: Allocator + Clone>(
    alloc: &A,
    spaces: &Spaces<'a, A>,
    locals: &Space<'a, A>,
    labels: &Labels<'a, A>,
    flat: &Flat<'a, A>,
    ordinal: u32,
) -> Result<Instr<A>, ResolveFault>
    ensures value { Gives instr_view result (plain_at (spaces_of spaces.now) (map text_of locals.now.names.items) (map text_of labels.now.open.items) (flat_of flat.now)) }
    ensures fits { IfOk result (λ i. instr_fits (instr_view i) ≡ true) }
    ensures ordinal { IfOk result (λ i. instr_ordinals i ≡ ordinal ∷ []) }
{
    match flat {
        Flat::BrTable(indices, last) => table(alloc, labels, indices, *last, ordinal),
        _ => {
            let op = operator(alloc, spaces, locals, labels, flat)?;
            Ok(Instr::Plain(ordinal, op))
        }
    }
}
