// The spelling of instructions (Core Specification, 5.4 Instructions).
ghost use Rattle.std.specs.Prelude.{◌≡◌, ◌++◌, length, take, OnOk};
ghost use Rattle.spec_modules.specs.Shortest.{immediate_bytes, instr_bytes, instrs_bytes, expression_bytes, closing_bytes};
ghost use Rattle.module_tree.specs.View.{instr_view, instrs_view};

use crate::bytes::{put_byte, put_s32, put_s64, put_u32, put_vector};
use crate::opcodes::{opcode, result_code};
use module_tree::instr::Instr;
use std::alloc::{AllocError, Allocator};
use wtypes::{PlainInstr, Value};

fn put_const<B: Allocator>(out: &mut Vec<u8, B>, value: Value) -> Result<(), AllocError>
    ensures bytes { OnOk result (out.new.items ≡ out.old.items ++ immediate_bytes (PlainInstr.Const value)) }
    ensures front { take (length out.old.items) out.new.items ≡ out.old.items }
{
    match value {
        Value::I32(z) => put_s32(out, z),
        Value::I64(z) => put_s64(out, z),
    }
}

// The bytes behind the opcode.
fn put_immediate<B: Allocator>(out: &mut Vec<u8, B>, op: PlainInstr) -> Result<(), AllocError>
    ensures bytes { OnOk result (out.new.items ≡ out.old.items ++ immediate_bytes op) }
    ensures front { take (length out.old.items) out.new.items ≡ out.old.items }
{
    match op {
        PlainInstr::Br(n) => put_u32(out, n),
        PlainInstr::BrIf(n) => put_u32(out, n),
        PlainInstr::Call(n) => put_u32(out, n),
        PlainInstr::CallIndirect(n) => {
            put_u32(out, n)?;
            put_byte(out, 0)
        }
        PlainInstr::LocalGet(n) => put_u32(out, n),
        PlainInstr::LocalSet(n) => put_u32(out, n),
        PlainInstr::LocalTee(n) => put_u32(out, n),
        PlainInstr::GlobalGet(n) => put_u32(out, n),
        PlainInstr::GlobalSet(n) => put_u32(out, n),
        PlainInstr::Load(_, align, offset) => {
            put_u32(out, align)?;
            put_u32(out, offset)
        }
        PlainInstr::Store(_, align, offset) => {
            put_u32(out, align)?;
            put_u32(out, offset)
        }
        PlainInstr::MemorySize => put_byte(out, 0),
        PlainInstr::MemoryGrow => put_byte(out, 0),
        PlainInstr::Const(value) => put_const(out, value),
        PlainInstr::Unreachable => Ok(()),
        PlainInstr::Nop => Ok(()),
        PlainInstr::Return => Ok(()),
        PlainInstr::Drop => Ok(()),
        PlainInstr::Select => Ok(()),
        PlainInstr::Unary(_) => Ok(()),
        PlainInstr::Binary(_) => Ok(()),
        PlainInstr::Test(_) => Ok(()),
        PlainInstr::Compare(_) => Ok(()),
        PlainInstr::Convert(_) => Ok(()),
    }
}

#[cycle(put)]
fn put_instr<A: Allocator, B: Allocator>(
    out: &mut Vec<u8, B>,
    instr: &Instr<A>,
) -> Result<(), AllocError>
    ensures bytes { OnOk result (out.new.items ≡ out.old.items ++ instr_bytes (instr_view instr.now)) }
    ensures front { take (length out.old.items) out.new.items ≡ out.old.items }
{
    match instr {
        Instr::Plain(_, op) => {
            put_byte(out, opcode(*op))?;
            put_immediate(out, *op)
        }
        Instr::BrTable(_, labels, fallback) => {
            put_byte(out, 0x0E)?;
            put_vector(out, labels)?;
            put_u32(out, *fallback)
        }
        Instr::Block(_, result_type, body) => {
            put_byte(out, 0x02)?;
            put_byte(out, result_code(*result_type))?;
            put_instrs(out, body)?;
            put_byte(out, 0x0B)
        }
        Instr::Loop(_, result_type, body) => {
            put_byte(out, 0x03)?;
            put_byte(out, result_code(*result_type))?;
            put_instrs(out, body)?;
            put_byte(out, 0x0B)
        }
        Instr::If(_, result_type, then_body, else_body) => {
            put_byte(out, 0x04)?;
            put_byte(out, result_code(*result_type))?;
            put_instrs(out, then_body)?;
            if else_body.is_empty() {
                return put_byte(out, 0x0B);
            }
            put_byte(out, 0x05)?;
            put_instrs(out, else_body)?;
            put_byte(out, 0x0B)
        }
    }
}

#[cycle(put)]
pub(crate) fn put_instrs<A: Allocator, B: Allocator>(
    out: &mut Vec<u8, B>,
    body: &Vec<Instr<A>, A>,
) -> Result<(), AllocError>
    ensures bytes { OnOk result (out.new.items ≡ out.old.items ++ instrs_bytes (instrs_view body.now.items)) }
    ensures front { take (length out.old.items) out.new.items ≡ out.old.items }
{
    for instr in body {
        put_instr(out, instr)?;
    }
    Ok(())
}

pub(crate) fn put_expression<A: Allocator, B: Allocator>(
    out: &mut Vec<u8, B>,
    body: &Vec<Instr<A>, A>,
) -> Result<(), AllocError>
    ensures bytes { OnOk result (out.new.items ≡ out.old.items ++ expression_bytes (instrs_view body.now.items)) }
    ensures front { take (length out.old.items) out.new.items ≡ out.old.items }
{
    put_instrs(out, body)?;
    put_byte(out, 0x0B)
}
