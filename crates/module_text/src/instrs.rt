//! Instructions, one a line (Core Specification, 6.5 Instructions).

use crate::page::Page;
use crate::refusal::TextRefusal;
use module_tree::instr::Instr;
use module_tree::lone::lone_plain;
use module_tree::width::{load_width, store_width};
use spec_text::{OPERATORS, Operator};
use std::alloc::Allocator;
use wtypes::{PlainInstr, ValType, Value};

/// The name of an instruction, by the table by which texts are read.
fn put_operator(page: &mut Page<'_>, operator: Operator) -> Result<(), TextRefusal> {
    for entry in &OPERATORS {
        if entry.1 == operator {
            return page.put_word(entry.0);
        }
    }
    Err(TextRefusal::Unwritten)
}

/// The name of an instruction, and an index.
fn put_indexed(page: &mut Page<'_>, operator: Operator, index: u32) -> Result<(), TextRefusal> {
    put_operator(page, operator)?;
    page.put(" ")?;
    page.put_number(index)
}

/// The number of bytes of an alignment, by its exponent.
fn alignment(exponent: u32) -> Option<u32> {
    if exponent < 32 {
        Some(1 << exponent)
    } else {
        None
    }
}

/// The name of a load or a store of this width, its offset, if not 0, and then its alignment, if not the width.
fn put_access(
    page: &mut Page<'_>,
    operator: Operator,
    width: u32,
    exponent: u32,
    offset: u32,
) -> Result<(), TextRefusal> {
    let Some(bytes) = alignment(exponent) else {
        return Err(TextRefusal::Unwritten);
    };
    put_operator(page, operator)?;
    if offset != 0 {
        page.put(" offset=")?;
        page.put_number(offset)?;
    }
    if bytes != width {
        page.put(" align=")?;
        page.put_number(bytes)?;
    }
    Ok(())
}

/// A constant.
fn put_constant(page: &mut Page<'_>, value: Value) -> Result<(), TextRefusal> {
    let (value_type, number) = match value {
        Value::I32(number) => (ValType::I32, number as i64),
        Value::I64(number) => (ValType::I64, number),
    };
    put_operator(page, Operator::Const(value_type))?;
    page.put(" ")?;
    page.put_signed(number)
}

/// An instruction that holds no other.
fn put_plain(page: &mut Page<'_>, op: PlainInstr) -> Result<(), TextRefusal> {
    match op {
        PlainInstr::Unreachable => put_operator(page, Operator::Unreachable),
        PlainInstr::Nop => put_operator(page, Operator::Nop),
        PlainInstr::Br(label) => put_indexed(page, Operator::Br, label),
        PlainInstr::BrIf(label) => put_indexed(page, Operator::BrIf, label),
        PlainInstr::Return => put_operator(page, Operator::Return),
        PlainInstr::Call(func) => {
            put_operator(page, Operator::Call)?;
            page.put_func(func)
        }
        PlainInstr::CallIndirect(type_index) => {
            put_operator(page, Operator::CallIndirect)?;
            page.put(" (type ")?;
            page.put_number(type_index)?;
            page.put(")")
        }
        PlainInstr::Drop => put_operator(page, Operator::Drop),
        PlainInstr::Select => put_operator(page, Operator::Select),
        PlainInstr::LocalGet(local) => put_indexed(page, Operator::LocalGet, local),
        PlainInstr::LocalSet(local) => put_indexed(page, Operator::LocalSet, local),
        PlainInstr::LocalTee(local) => put_indexed(page, Operator::LocalTee, local),
        PlainInstr::GlobalGet(global) => put_indexed(page, Operator::GlobalGet, global),
        PlainInstr::GlobalSet(global) => put_indexed(page, Operator::GlobalSet, global),
        PlainInstr::Load(op, align, offset) => {
            put_access(page, Operator::Load(op), load_width(op), align, offset)
        }
        PlainInstr::Store(op, align, offset) => {
            put_access(page, Operator::Store(op), store_width(op), align, offset)
        }
        PlainInstr::MemorySize => put_operator(page, Operator::MemorySize),
        PlainInstr::MemoryGrow => put_operator(page, Operator::MemoryGrow),
        PlainInstr::Const(value) => put_constant(page, value),
        PlainInstr::Unary(op) => put_operator(page, Operator::Unary(op)),
        PlainInstr::Binary(op) => put_operator(page, Operator::Binary(op)),
        PlainInstr::Test(op) => put_operator(page, Operator::Test(op)),
        PlainInstr::Compare(op) => put_operator(page, Operator::Compare(op)),
        PlainInstr::Convert(op) => put_operator(page, Operator::Convert(op)),
    }
}

/// A `br_table`.
fn put_table(page: &mut Page<'_>, labels: &[u32], fallback: u32) -> Result<(), TextRefusal> {
    put_operator(page, Operator::BrTable)?;
    for label in labels {
        page.put(" ")?;
        page.put_number(*label)?;
    }
    page.put(" ")?;
    page.put_number(fallback)
}

/// The first line of a block, with its ordinal.
fn put_opening(
    page: &mut Page<'_>,
    word: &str,
    block: Option<ValType>,
    ordinal: u32,
) -> Result<(), TextRefusal> {
    page.put(word)?;
    if let Some(value_type) = block {
        page.put(" ")?;
        page.put_typed("result", value_type)?;
    }
    page.note("", ordinal as usize)
}

/// A line of a block at this depth that opens no other.
fn put_closing(page: &mut Page<'_>, depth: usize, word: &str) -> Result<(), TextRefusal> {
    page.next_line(depth)?;
    page.put(word)
}

/// An instruction at this depth, with its ordinal, and those that it holds.
#[cycle(put)]
fn put_instr<A: Allocator>(
    page: &mut Page<'_>,
    depth: usize,
    instr: &Instr<A>,
) -> Result<(), TextRefusal> {
    page.next_line(depth)?;
    match instr {
        Instr::Plain(ordinal, op) => {
            put_plain(page, *op)?;
            page.note("", *ordinal as usize)
        }
        Instr::BrTable(ordinal, labels, fallback) => {
            put_table(page, labels, *fallback)?;
            page.note("", *ordinal as usize)
        }
        Instr::Block(ordinal, block, body) => {
            put_opening(page, "block", *block, *ordinal)?;
            put_instrs(page, depth.saturating_add(1), body)?;
            put_closing(page, depth, "end")
        }
        Instr::Loop(ordinal, block, body) => {
            put_opening(page, "loop", *block, *ordinal)?;
            put_instrs(page, depth.saturating_add(1), body)?;
            put_closing(page, depth, "end")
        }
        Instr::If(ordinal, block, then_body, else_body) => {
            put_opening(page, "if", *block, *ordinal)?;
            put_instrs(page, depth.saturating_add(1), then_body)?;
            if !else_body.is_empty() {
                put_closing(page, depth, "else")?;
                put_instrs(page, depth.saturating_add(1), else_body)?;
            }
            put_closing(page, depth, "end")
        }
    }
}

/// Instructions at this depth.
#[cycle(put)]
pub(crate) fn put_instrs<A: Allocator>(
    page: &mut Page<'_>,
    depth: usize,
    body: &Vec<Instr<A>, A>,
) -> Result<(), TextRefusal> {
    for instr in body {
        put_instr(page, depth, instr)?;
    }
    Ok(())
}

/// The expression of a global or a segment: one instruction in brackets, as all of them are in a valid module, else line by line at this depth.
pub(crate) fn put_expression<A: Allocator>(
    page: &mut Page<'_>,
    depth: usize,
    expression: &Vec<Instr<A>, A>,
) -> Result<(), TextRefusal> {
    match lone_plain(expression) {
        Some(op) => {
            page.put(" (")?;
            put_plain(page, op)?;
            page.put(")")
        }
        None => {
            put_instrs(page, depth, expression)?;
            page.next_line(depth)
        }
    }
}
