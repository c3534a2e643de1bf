//! Whether two operators are one.

ghost use Rattle.std.specs.Prelude.{◌≡◌, IsTrue};

use spec_text::Operator;
use wtypes::{BinOp, CvtOp, LoadOp, RelOp, StoreOp, TestOp, UnOp, ValType};

fn is_load(a: LoadOp, b: LoadOp) -> bool
    ensures { IsTrue result → a ≡ b }
{
    a == b
}

fn is_store(a: StoreOp, b: StoreOp) -> bool
    ensures { IsTrue result → a ≡ b }
{
    a == b
}

fn is_type(a: ValType, b: ValType) -> bool
    ensures { IsTrue result → a ≡ b }
{
    a == b
}

fn is_unary(a: UnOp, b: UnOp) -> bool
    ensures { IsTrue result → a ≡ b }
{
    a == b
}

fn is_binary(a: BinOp, b: BinOp) -> bool
    ensures { IsTrue result → a ≡ b }
{
    a == b
}

fn is_test(a: TestOp, b: TestOp) -> bool
    ensures { IsTrue result → a ≡ b }
{
    a == b
}

fn is_compare(a: RelOp, b: RelOp) -> bool
    ensures { IsTrue result → a ≡ b }
{
    a == b
}

fn is_convert(a: CvtOp, b: CvtOp) -> bool
    ensures { IsTrue result → a ≡ b }
{
    a == b
}

/// Whether this operator is that one. An operator is told of itself.
pub(crate) fn is_operator(a: Operator, b: Operator) -> bool
    ensures { IsTrue result → a ≡ b }
{
    match (a, b) {
        (Operator::Unreachable, Operator::Unreachable) => true,
        (Operator::Nop, Operator::Nop) => true,
        (Operator::Return, Operator::Return) => true,
        (Operator::Drop, Operator::Drop) => true,
        (Operator::Select, Operator::Select) => true,
        (Operator::MemorySize, Operator::MemorySize) => true,
        (Operator::MemoryGrow, Operator::MemoryGrow) => true,
        (Operator::Br, Operator::Br) => true,
        (Operator::BrIf, Operator::BrIf) => true,
        (Operator::BrTable, Operator::BrTable) => true,
        (Operator::Call, Operator::Call) => true,
        (Operator::CallIndirect, Operator::CallIndirect) => true,
        (Operator::LocalGet, Operator::LocalGet) => true,
        (Operator::LocalSet, Operator::LocalSet) => true,
        (Operator::LocalTee, Operator::LocalTee) => true,
        (Operator::GlobalGet, Operator::GlobalGet) => true,
        (Operator::GlobalSet, Operator::GlobalSet) => true,
        (Operator::Load(x), Operator::Load(y)) => is_load(x, y),
        (Operator::Store(x), Operator::Store(y)) => is_store(x, y),
        (Operator::Const(x), Operator::Const(y)) => is_type(x, y),
        (Operator::Unary(x), Operator::Unary(y)) => is_unary(x, y),
        (Operator::Binary(x), Operator::Binary(y)) => is_binary(x, y),
        (Operator::Test(x), Operator::Test(y)) => is_test(x, y),
        (Operator::Compare(x), Operator::Compare(y)) => is_compare(x, y),
        (Operator::Convert(x), Operator::Convert(y)) => is_convert(x, y),
        _ => false,
    }
}
