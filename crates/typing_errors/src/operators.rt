//! The operators of instructions.

ghost use Rattle.std.specs.Prelude.{◌≡◌};
ghost use Rattle.typing_errors.specs.Names;

use spec_text::Operator;
use wtypes::{PlainInstr, ValType, Value};

/// The type of a constant.
fn constant_type(value: Value) -> ValType
    ensures { result ≡ Names.constant_type value }
{
    match value {
        Value::I32(_) => ValType::I32,
        Value::I64(_) => ValType::I64,
    }
}

/// The operator of an instruction.
pub(crate) fn operator_of(instr: PlainInstr) -> Operator
    ensures { result ≡ Names.operator_of instr }
{
    match instr {
        PlainInstr::Unreachable => Operator::Unreachable,
        PlainInstr::Nop => Operator::Nop,
        PlainInstr::Br(_) => Operator::Br,
        PlainInstr::BrIf(_) => Operator::BrIf,
        PlainInstr::Return => Operator::Return,
        PlainInstr::Call(_) => Operator::Call,
        PlainInstr::CallIndirect(_) => Operator::CallIndirect,
        PlainInstr::Drop => Operator::Drop,
        PlainInstr::Select => Operator::Select,
        PlainInstr::LocalGet(_) => Operator::LocalGet,
        PlainInstr::LocalSet(_) => Operator::LocalSet,
        PlainInstr::LocalTee(_) => Operator::LocalTee,
        PlainInstr::GlobalGet(_) => Operator::GlobalGet,
        PlainInstr::GlobalSet(_) => Operator::GlobalSet,
        PlainInstr::Load(op, _, _) => Operator::Load(op),
        PlainInstr::Store(op, _, _) => Operator::Store(op),
        PlainInstr::MemorySize => Operator::MemorySize,
        PlainInstr::MemoryGrow => Operator::MemoryGrow,
        PlainInstr::Const(value) => Operator::Const(constant_type(value)),
        PlainInstr::Unary(op) => Operator::Unary(op),
        PlainInstr::Binary(op) => Operator::Binary(op),
        PlainInstr::Test(op) => Operator::Test(op),
        PlainInstr::Compare(op) => Operator::Compare(op),
        PlainInstr::Convert(op) => Operator::Convert(op),
    }
}
