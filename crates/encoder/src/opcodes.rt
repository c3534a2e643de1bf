// The codes of instructions and types (Core Specification, 5.3.1 Value Types, 5.4 Instructions).
ghost use Rattle.std.specs.Prelude.{◌≡◌};
ghost use Rattle.spec_modules.specs.Opcodes as table;

use wtypes::{BinOp, CvtOp, LoadOp, PlainInstr, RelOp, StoreOp, TestOp, UnOp, ValType, Value};

pub(crate) fn type_code(t: ValType) -> u8
    ensures { result ≡ table.type_code t }
{
    match t {
        ValType::I32 => 0x7F,
        ValType::I64 => 0x7E,
    }
}

// The code of a block type.
pub(crate) fn result_code(result_type: Option<ValType>) -> u8
    ensures { result ≡ table.result_code result_type }
{
    match result_type {
        None => 0x40,
        Some(t) => type_code(t),
    }
}

fn at_type(t: ValType, at_i32: u8, at_i64: u8) -> u8
    ensures { result ≡ table.at_type t at_i32 at_i64 }
{
    match t {
        ValType::I32 => at_i32,
        ValType::I64 => at_i64,
    }
}

fn unary_code(op: UnOp) -> u8
    ensures { result ≡ table.unary_code op }
{
    match op {
        UnOp::Clz(t) => at_type(t, 0x67, 0x79),
        UnOp::Ctz(t) => at_type(t, 0x68, 0x7A),
        UnOp::Popcnt(t) => at_type(t, 0x69, 0x7B),
    }
}

fn binary_code(op: BinOp) -> u8
    ensures { result ≡ table.binary_code op }
{
    match op {
        BinOp::Add(t) => at_type(t, 0x6A, 0x7C),
        BinOp::Sub(t) => at_type(t, 0x6B, 0x7D),
        BinOp::Mul(t) => at_type(t, 0x6C, 0x7E),
        BinOp::DivS(t) => at_type(t, 0x6D, 0x7F),
        BinOp::DivU(t) => at_type(t, 0x6E, 0x80),
        BinOp::RemS(t) => at_type(t, 0x6F, 0x81),
        BinOp::RemU(t) => at_type(t, 0x70, 0x82),
        BinOp::And(t) => at_type(t, 0x71, 0x83),
        BinOp::Or(t) => at_type(t, 0x72, 0x84),
        BinOp::Xor(t) => at_type(t, 0x73, 0x85),
        BinOp::Shl(t) => at_type(t, 0x74, 0x86),
        BinOp::ShrS(t) => at_type(t, 0x75, 0x87),
        BinOp::ShrU(t) => at_type(t, 0x76, 0x88),
        BinOp::Rotl(t) => at_type(t, 0x77, 0x89),
        BinOp::Rotr(t) => at_type(t, 0x78, 0x8A),
    }
}

fn test_code(op: TestOp) -> u8
    ensures { result ≡ table.test_code op }
{
    match op {
        TestOp::Eqz(t) => at_type(t, 0x45, 0x50),
    }
}

fn compare_code(op: RelOp) -> u8
    ensures { result ≡ table.compare_code op }
{
    match op {
        RelOp::Equal(t) => at_type(t, 0x46, 0x51),
        RelOp::NotEqual(t) => at_type(t, 0x47, 0x52),
        RelOp::LtS(t) => at_type(t, 0x48, 0x53),
        RelOp::LtU(t) => at_type(t, 0x49, 0x54),
        RelOp::GtS(t) => at_type(t, 0x4A, 0x55),
        RelOp::GtU(t) => at_type(t, 0x4B, 0x56),
        RelOp::LeS(t) => at_type(t, 0x4C, 0x57),
        RelOp::LeU(t) => at_type(t, 0x4D, 0x58),
        RelOp::GeS(t) => at_type(t, 0x4E, 0x59),
        RelOp::GeU(t) => at_type(t, 0x4F, 0x5A),
    }
}

fn convert_code(op: CvtOp) -> u8
    ensures { result ≡ table.convert_code op }
{
    match op {
        CvtOp::I32WrapI64 => 0xA7,
        CvtOp::I64ExtendI32S => 0xAC,
        CvtOp::I64ExtendI32U => 0xAD,
        CvtOp::I32Extend8S => 0xC0,
        CvtOp::I32Extend16S => 0xC1,
        CvtOp::I64Extend8S => 0xC2,
        CvtOp::I64Extend16S => 0xC3,
        CvtOp::I64Extend32S => 0xC4,
    }
}

fn load_code(op: LoadOp) -> u8
    ensures { result ≡ table.load_code op }
{
    match op {
        LoadOp::I32Load => 0x28,
        LoadOp::I64Load => 0x29,
        LoadOp::I32Load8S => 0x2C,
        LoadOp::I32Load8U => 0x2D,
        LoadOp::I32Load16S => 0x2E,
        LoadOp::I32Load16U => 0x2F,
        LoadOp::I64Load8S => 0x30,
        LoadOp::I64Load8U => 0x31,
        LoadOp::I64Load16S => 0x32,
        LoadOp::I64Load16U => 0x33,
        LoadOp::I64Load32S => 0x34,
        LoadOp::I64Load32U => 0x35,
    }
}

fn store_code(op: StoreOp) -> u8
    ensures { result ≡ table.store_code op }
{
    match op {
        StoreOp::I32Store => 0x36,
        StoreOp::I64Store => 0x37,
        StoreOp::I32Store8 => 0x3A,
        StoreOp::I32Store16 => 0x3B,
        StoreOp::I64Store8 => 0x3C,
        StoreOp::I64Store16 => 0x3D,
        StoreOp::I64Store32 => 0x3E,
    }
}

fn const_code(value: Value) -> u8
    ensures { result ≡ table.opcode (PlainInstr.Const value) }
{
    match value {
        Value::I32(_) => 0x41,
        Value::I64(_) => 0x42,
    }
}

// The first byte of an instruction.
pub(crate) fn opcode(op: PlainInstr) -> u8
    ensures { result ≡ table.opcode op }
{
    match op {
        PlainInstr::Unreachable => 0x00,
        PlainInstr::Nop => 0x01,
        PlainInstr::Br(_) => 0x0C,
        PlainInstr::BrIf(_) => 0x0D,
        PlainInstr::Return => 0x0F,
        PlainInstr::Call(_) => 0x10,
        PlainInstr::CallIndirect(_) => 0x11,
        PlainInstr::Drop => 0x1A,
        PlainInstr::Select => 0x1B,
        PlainInstr::LocalGet(_) => 0x20,
        PlainInstr::LocalSet(_) => 0x21,
        PlainInstr::LocalTee(_) => 0x22,
        PlainInstr::GlobalGet(_) => 0x23,
        PlainInstr::GlobalSet(_) => 0x24,
        PlainInstr::Load(load, _, _) => load_code(load),
        PlainInstr::Store(store, _, _) => store_code(store),
        PlainInstr::MemorySize => 0x3F,
        PlainInstr::MemoryGrow => 0x40,
        PlainInstr::Const(value) => const_code(value),
        PlainInstr::Unary(unary) => unary_code(unary),
        PlainInstr::Binary(binary) => binary_code(binary),
        PlainInstr::Test(test) => test_code(test),
        PlainInstr::Compare(compare) => compare_code(compare),
        PlainInstr::Convert(convert) => convert_code(convert),
    }
}
