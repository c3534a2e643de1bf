// Instructions by their first byte (Core Specification, 5.4 Instructions).
ghost use Rattle.std.specs.Prelude.{◌≡◌, ◌+◌, slice_get};
ghost use Rattle.laws_modules.specs.Opcodes.{compare_ops, numeric_ops, control_at, convert_at, simple_at, load_at, load_ops, store_at, store_ops};

use wtypes::{BinOp, CvtOp, LoadOp, PlainInstr, RelOp, StoreOp, TestOp, UnOp, ValType};

// The test or comparison at this place of the row of this type.
fn compare_of(t: ValType, place: u8) -> Option<PlainInstr>
    ensures { result ≡ slice_get (compare_ops t) place }
{
    match place {
        0 => Some(PlainInstr::Test(TestOp::Eqz(t))),
        1 => Some(PlainInstr::Compare(RelOp::Equal(t))),
        2 => Some(PlainInstr::Compare(RelOp::NotEqual(t))),
        3 => Some(PlainInstr::Compare(RelOp::LtS(t))),
        4 => Some(PlainInstr::Compare(RelOp::LtU(t))),
        5 => Some(PlainInstr::Compare(RelOp::GtS(t))),
        6 => Some(PlainInstr::Compare(RelOp::GtU(t))),
        7 => Some(PlainInstr::Compare(RelOp::LeS(t))),
        8 => Some(PlainInstr::Compare(RelOp::LeU(t))),
        9 => Some(PlainInstr::Compare(RelOp::GeS(t))),
        10 => Some(PlainInstr::Compare(RelOp::GeU(t))),
        _ => None,
    }
}

// The operator at this place of the row of this type.
fn numeric_of(t: ValType, place: u8) -> Option<PlainInstr>
    ensures { result ≡ slice_get (numeric_ops t) place }
{
    match place {
        0 => Some(PlainInstr::Unary(UnOp::Clz(t))),
        1 => Some(PlainInstr::Unary(UnOp::Ctz(t))),
        2 => Some(PlainInstr::Unary(UnOp::Popcnt(t))),
        3 => Some(PlainInstr::Binary(BinOp::Add(t))),
        4 => Some(PlainInstr::Binary(BinOp::Sub(t))),
        5 => Some(PlainInstr::Binary(BinOp::Mul(t))),
        6 => Some(PlainInstr::Binary(BinOp::DivS(t))),
        7 => Some(PlainInstr::Binary(BinOp::DivU(t))),
        8 => Some(PlainInstr::Binary(BinOp::RemS(t))),
        9 => Some(PlainInstr::Binary(BinOp::RemU(t))),
        10 => Some(PlainInstr::Binary(BinOp::And(t))),
        11 => Some(PlainInstr::Binary(BinOp::Or(t))),
        12 => Some(PlainInstr::Binary(BinOp::Xor(t))),
        13 => Some(PlainInstr::Binary(BinOp::Shl(t))),
        14 => Some(PlainInstr::Binary(BinOp::ShrS(t))),
        15 => Some(PlainInstr::Binary(BinOp::ShrU(t))),
        16 => Some(PlainInstr::Binary(BinOp::Rotl(t))),
        17 => Some(PlainInstr::Binary(BinOp::Rotr(t))),
        _ => None,
    }
}

fn control_of(first: u8) -> Option<PlainInstr>
    ensures { result ≡ control_at first }
{
    match first {
        0x00 => Some(PlainInstr::Unreachable),
        0x01 => Some(PlainInstr::Nop),
        0x0F => Some(PlainInstr::Return),
        0x1A => Some(PlainInstr::Drop),
        0x1B => Some(PlainInstr::Select),
        _ => None,
    }
}

fn convert_of(first: u8) -> Option<PlainInstr>
    ensures { result ≡ convert_at first }
{
    match first {
        0xA7 => Some(PlainInstr::Convert(CvtOp::I32WrapI64)),
        0xAC => Some(PlainInstr::Convert(CvtOp::I64ExtendI32S)),
        0xAD => Some(PlainInstr::Convert(CvtOp::I64ExtendI32U)),
        0xC0 => Some(PlainInstr::Convert(CvtOp::I32Extend8S)),
        0xC1 => Some(PlainInstr::Convert(CvtOp::I32Extend16S)),
        0xC2 => Some(PlainInstr::Convert(CvtOp::I64Extend8S)),
        0xC3 => Some(PlainInstr::Convert(CvtOp::I64Extend16S)),
        0xC4 => Some(PlainInstr::Convert(CvtOp::I64Extend32S)),
        _ => None,
    }
}

// The instruction that is this byte alone.
#[tactic(auto, unfolding(laws_modules::specs::Opcodes::simple_at))]
pub fn simple_of(first: u8) -> Option<PlainInstr>
    ensures { result ≡ simple_at first }
{
    if first < 0x45 {
        return control_of(first);
    }
    if first < 0x50 {
        return compare_of(ValType::I32, first - 0x45);
    }
    if first < 0x5B {
        return compare_of(ValType::I64, first - 0x50);
    }
    if first < 0x67 {
        return None;
    }
    if first < 0x79 {
        return numeric_of(ValType::I32, first - 0x67);
    }
    if first < 0x8B {
        return numeric_of(ValType::I64, first - 0x79);
    }
    convert_of(first)
}

// The narrow load at this place of their row.
fn narrow_load_of(place: u8) -> Option<LoadOp>
    ensures { result ≡ slice_get load_ops place }
{
    match place {
        0 => Some(LoadOp::I32Load8S),
        1 => Some(LoadOp::I32Load8U),
        2 => Some(LoadOp::I32Load16S),
        3 => Some(LoadOp::I32Load16U),
        4 => Some(LoadOp::I64Load8S),
        5 => Some(LoadOp::I64Load8U),
        6 => Some(LoadOp::I64Load16S),
        7 => Some(LoadOp::I64Load16U),
        8 => Some(LoadOp::I64Load32S),
        9 => Some(LoadOp::I64Load32U),
        _ => None,
    }
}

#[tactic(auto, unfolding(laws_modules::specs::Opcodes::load_at))]
pub fn load_of(first: u8) -> Option<LoadOp>
    ensures { result ≡ load_at first }
{
    if first == 0x28 {
        return Some(LoadOp::I32Load);
    }
    if first == 0x29 {
        return Some(LoadOp::I64Load);
    }
    if first < 0x2C {
        return None;
    }
    narrow_load_of(first - 0x2C)
}

// The narrow store at this place of their row.
fn narrow_store_of(place: u8) -> Option<StoreOp>
    ensures { result ≡ slice_get store_ops place }
{
    match place {
        0 => Some(StoreOp::I32Store8),
        1 => Some(StoreOp::I32Store16),
        2 => Some(StoreOp::I64Store8),
        3 => Some(StoreOp::I64Store16),
        4 => Some(StoreOp::I64Store32),
        _ => None,
    }
}

#[tactic(auto, unfolding(laws_modules::specs::Opcodes::store_at))]
pub fn store_of(first: u8) -> Option<StoreOp>
    ensures { result ≡ store_at first }
{
    if first == 0x36 {
        return Some(StoreOp::I32Store);
    }
    if first == 0x37 {
        return Some(StoreOp::I64Store);
    }
    if first < 0x3A {
        return None;
    }
    narrow_store_of(first - 0x3A)
}

// Whether this is an instruction on floating point, which this profile leaves out.
pub fn is_float(first: u8) -> bool {
    matches!(
        first,
        0x2A | 0x2B | 0x38 | 0x39 | 0x43 | 0x44 | 0x5B..=0x66 | 0x8B..=0xA6 | 0xA8..=0xAB | 0xAE..=0xBF
    )
}
