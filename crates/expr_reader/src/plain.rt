// Instructions without children, at the front of bytes.
ghost use Rattle.std.specs.Prelude.{◌≡◌, ◌+◌, ◌<◌, ◌≤◌, length, IfOk};
ghost use Rattle.expr_reader.specs.Outcome.{Gives};
ghost use Rattle.laws_modules.specs.ReadingExpressions.{index_at, other_at, plain_at};

use crate::opcodes::{is_float, load_of, simple_of, store_of};
use crate::read::{memarg_of, s32_of, s64_of, u32_of, zero_of};
use crate::unread::DecodeFault;
use wtypes::{PlainInstr, Value};

// An instruction with one index.
#[tactic(auto, unfolding(laws_modules::specs::ReadingExpressions::index_at))]
fn index_of(first: u8, bytes: &[u8]) -> Result<(PlainInstr, &[u8]), DecodeFault>
    ensures value { Gives (λ x. (x.0, x.1.now)) result (index_at first bytes.now) }
    ensures shorter { IfOk result (λ x. length x.1.now ≤ length bytes.now) }
{
    match first {
        0x0C => {
            let (index, rest) = u32_of(bytes)?;
            Ok((PlainInstr::Br(index), rest))
        }
        0x0D => {
            let (index, rest) = u32_of(bytes)?;
            Ok((PlainInstr::BrIf(index), rest))
        }
        0x10 => {
            let (index, rest) = u32_of(bytes)?;
            Ok((PlainInstr::Call(index), rest))
        }
        0x20 => {
            let (index, rest) = u32_of(bytes)?;
            Ok((PlainInstr::LocalGet(index), rest))
        }
        0x21 => {
            let (index, rest) = u32_of(bytes)?;
            Ok((PlainInstr::LocalSet(index), rest))
        }
        0x22 => {
            let (index, rest) = u32_of(bytes)?;
            Ok((PlainInstr::LocalTee(index), rest))
        }
        0x23 => {
            let (index, rest) = u32_of(bytes)?;
            Ok((PlainInstr::GlobalGet(index), rest))
        }
        0x24 => {
            let (index, rest) = u32_of(bytes)?;
            Ok((PlainInstr::GlobalSet(index), rest))
        }
        _ => {
            if is_float(first) {
                return Err(DecodeFault::Unsupported(bytes.len() + 1));
            }
            Err(DecodeFault::Malformed(bytes.len() + 1))
        }
    }
}

// A constant, an instruction with a zero byte, or one with an index.
#[tactic(auto, unfolding(laws_modules::specs::ReadingExpressions::other_at))]
fn other_of(first: u8, bytes: &[u8]) -> Result<(PlainInstr, &[u8]), DecodeFault>
    ensures value { Gives (λ x. (x.0, x.1.now)) result (other_at first bytes.now) }
    ensures shorter { IfOk result (λ x. length x.1.now ≤ length bytes.now) }
{
    match first {
        0x11 => {
            let (index, rest) = u32_of(bytes)?;
            let rest = zero_of(rest)?;
            Ok((PlainInstr::CallIndirect(index), rest))
        }
        0x3F => {
            let rest = zero_of(bytes)?;
            Ok((PlainInstr::MemorySize, rest))
        }
        0x40 => {
            let rest = zero_of(bytes)?;
            Ok((PlainInstr::MemoryGrow, rest))
        }
        0x41 => {
            let (z, rest) = s32_of(bytes)?;
            Ok((PlainInstr::Const(Value::I32(z)), rest))
        }
        0x42 => {
            let (z, rest) = s64_of(bytes)?;
            Ok((PlainInstr::Const(Value::I64(z)), rest))
        }
        _ => index_of(first, bytes),
    }
}

// The instruction whose first byte this is, and the bytes after it.
#[tactic(auto, unfolding(laws_modules::specs::ReadingExpressions::plain_at))]
pub fn plain_of(first: u8, bytes: &[u8]) -> Result<(PlainInstr, &[u8]), DecodeFault>
    ensures value { Gives (λ x. (x.0, x.1.now)) result (plain_at first bytes.now) }
    ensures shorter { IfOk result (λ x. length x.1.now ≤ length bytes.now) }
{
    if let Some(op) = simple_of(first) {
        return Ok((op, bytes));
    }
    if let Some(op) = load_of(first) {
        let (align, offset, rest) = memarg_of(bytes)?;
        return Ok((PlainInstr::Load(op, align, offset), rest));
    }
    if let Some(op) = store_of(first) {
        let (align, offset, rest) = memarg_of(bytes)?;
        return Ok((PlainInstr::Store(op, align, offset), rest));
    }
    other_of(first, bytes)
}
