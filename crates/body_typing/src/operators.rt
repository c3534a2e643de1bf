// The types of operators.

ghost use Rattle.std.specs.Prelude.{◌≡◌};
ghost use Rattle.spec_modules.specs.Operators;
ghost use Rattle.spec_modules.specs.Storage;

use wtypes::{BinOp, CvtOp, LoadOp, RelOp, StoreOp, TestOp, UnOp, ValType, Value};

/// The type of a value.
pub fn type_of(v: Value) -> ValType
    ensures { result ≡ Operators.type_of v }
{
    match v {
        Value::I32(_) => ValType::I32,
        Value::I64(_) => ValType::I64,
    }
}

/// The type of the operand and of the result.
pub fn unary_type(op: UnOp) -> ValType
    ensures { result ≡ Operators.unary_type op }
{
    match op {
        UnOp::Clz(t) | UnOp::Ctz(t) | UnOp::Popcnt(t) => t,
    }
}

/// The type of both operands and of the result.
pub fn binary_type(op: BinOp) -> ValType
    ensures { result ≡ Operators.binary_type op }
{
    match op {
        BinOp::Add(t) => t,
        BinOp::Sub(t) => t,
        BinOp::Mul(t) => t,
        BinOp::DivS(t) => t,
        BinOp::DivU(t) => t,
        BinOp::RemS(t) => t,
        BinOp::RemU(t) => t,
        BinOp::And(t) => t,
        BinOp::Or(t) => t,
        BinOp::Xor(t) => t,
        BinOp::Shl(t) => t,
        BinOp::ShrS(t) => t,
        BinOp::ShrU(t) => t,
        BinOp::Rotl(t) => t,
        BinOp::Rotr(t) => t,
    }
}

/// The type of the operand.
pub fn test_type(op: TestOp) -> ValType
    ensures { result ≡ Operators.test_type op }
{
    match op {
        TestOp::Eqz(t) => t,
    }
}

/// The type of both operands.
pub fn compare_type(op: RelOp) -> ValType
    ensures { result ≡ Operators.compare_type op }
{
    match op {
        RelOp::Equal(t) => t,
        RelOp::NotEqual(t) => t,
        RelOp::LtS(t) => t,
        RelOp::LtU(t) => t,
        RelOp::GtS(t) => t,
        RelOp::GtU(t) => t,
        RelOp::LeS(t) => t,
        RelOp::LeU(t) => t,
        RelOp::GeS(t) => t,
        RelOp::GeU(t) => t,
    }
}

/// The type of the operand.
pub fn convert_from(op: CvtOp) -> ValType
    ensures { result ≡ Operators.convert_from op }
{
    match op {
        CvtOp::I32WrapI64 => ValType::I64,
        CvtOp::I64ExtendI32S => ValType::I32,
        CvtOp::I64ExtendI32U => ValType::I32,
        CvtOp::I32Extend8S => ValType::I32,
        CvtOp::I32Extend16S => ValType::I32,
        CvtOp::I64Extend8S => ValType::I64,
        CvtOp::I64Extend16S => ValType::I64,
        CvtOp::I64Extend32S => ValType::I64,
    }
}

/// The type of the result.
pub fn convert_to(op: CvtOp) -> ValType
    ensures { result ≡ Operators.convert_to op }
{
    match op {
        CvtOp::I32WrapI64 => ValType::I32,
        CvtOp::I64ExtendI32S => ValType::I64,
        CvtOp::I64ExtendI32U => ValType::I64,
        CvtOp::I32Extend8S => ValType::I32,
        CvtOp::I32Extend16S => ValType::I32,
        CvtOp::I64Extend8S => ValType::I64,
        CvtOp::I64Extend16S => ValType::I64,
        CvtOp::I64Extend32S => ValType::I64,
    }
}

/// The type of the value that a load gives.
pub fn load_type(op: LoadOp) -> ValType
    ensures { result ≡ Storage.load_type op }
{
    match op {
        LoadOp::I32Load => ValType::I32,
        LoadOp::I64Load => ValType::I64,
        LoadOp::I32Load8S => ValType::I32,
        LoadOp::I32Load8U => ValType::I32,
        LoadOp::I32Load16S => ValType::I32,
        LoadOp::I32Load16U => ValType::I32,
        LoadOp::I64Load8S => ValType::I64,
        LoadOp::I64Load8U => ValType::I64,
        LoadOp::I64Load16S => ValType::I64,
        LoadOp::I64Load16U => ValType::I64,
        LoadOp::I64Load32S => ValType::I64,
        LoadOp::I64Load32U => ValType::I64,
    }
}

/// The type of the value that a store takes.
pub fn store_type(op: StoreOp) -> ValType
    ensures { result ≡ Storage.store_type op }
{
    match op {
        StoreOp::I32Store => ValType::I32,
        StoreOp::I64Store => ValType::I64,
        StoreOp::I32Store8 => ValType::I32,
        StoreOp::I32Store16 => ValType::I32,
        StoreOp::I64Store8 => ValType::I64,
        StoreOp::I64Store16 => ValType::I64,
        StoreOp::I64Store32 => ValType::I64,
    }
}
