//! The operators on numbers of 32 bits.
ghost use Rattle.std.specs.Prelude.{◌≡◌};
ghost use Rattle.std.specs.Int.{w32};
ghost use Rattle.spec_modules.specs.Operators.{unary, binary, div_signed, rem_signed, compare};

use wtypes::{BinOp, RelOp, TrapCode, UnOp};

pub fn unary(op: UnOp, x: u32) -> u32
    ensures { result ≡ unary w32 op x }
{
    match op {
        UnOp::Clz(_) => x.leading_zeros(),
        UnOp::Ctz(_) => x.trailing_zeros(),
        UnOp::Popcnt(_) => x.count_ones(),
    }
}

#[inline(always)]
fn div_signed(x: u32, y: u32) -> Result<u32, TrapCode>
    ensures { result ≡ div_signed w32 x y }
{
    if y == 0 {
        return Err(TrapCode::DivideByZero);
    }
    match x.cast_signed().checked_div(y.cast_signed()) {
        Some(quotient) => Ok(quotient.cast_unsigned()),
        None => Err(TrapCode::IntegerOverflow),
    }
}

#[inline(always)]
fn rem_signed(x: u32, y: u32) -> Result<u32, TrapCode>
    ensures { result ≡ rem_signed w32 x y }
{
    if y == 0 {
        return Err(TrapCode::DivideByZero);
    }
    Ok(
        x.cast_signed()
            .wrapping_rem(y.cast_signed())
            .cast_unsigned(),
    )
}

#[inline(always)]
pub fn binary(op: BinOp, x: u32, y: u32) -> Result<u32, TrapCode>
    ensures { result ≡ binary w32 op x y }
{
    match op {
        BinOp::Add(_) => Ok(x.wrapping_add(y)),
        BinOp::Sub(_) => Ok(x.wrapping_sub(y)),
        BinOp::Mul(_) => Ok(x.wrapping_mul(y)),
        BinOp::DivS(_) => div_signed(x, y),
        BinOp::DivU(_) => x.checked_div(y).ok_or(TrapCode::DivideByZero),
        BinOp::RemS(_) => rem_signed(x, y),
        BinOp::RemU(_) => x.checked_rem(y).ok_or(TrapCode::DivideByZero),
        BinOp::And(_) => Ok(x & y),
        BinOp::Or(_) => Ok(x | y),
        BinOp::Xor(_) => Ok(x ^ y),
        BinOp::Shl(_) => Ok(x.wrapping_shl(y)),
        BinOp::ShrS(_) => Ok((x.cast_signed() >> (y % 32)).cast_unsigned()),
        BinOp::ShrU(_) => Ok(x.wrapping_shr(y)),
        BinOp::Rotl(_) => Ok(x.rotate_left(y)),
        BinOp::Rotr(_) => Ok(x.rotate_right(y)),
    }
}

#[inline(always)]
pub fn compare(op: RelOp, x: u32, y: u32) -> bool
    ensures { result ≡ compare w32 op x y }
{
    match op {
        RelOp::Equal(_) => x == y,
        RelOp::NotEqual(_) => x != y,
        RelOp::LtS(_) => x.cast_signed() < y.cast_signed(),
        RelOp::LtU(_) => x < y,
        RelOp::GtS(_) => x.cast_signed() > y.cast_signed(),
        RelOp::GtU(_) => x > y,
        RelOp::LeS(_) => x.cast_signed() <= y.cast_signed(),
        RelOp::LeU(_) => x <= y,
        RelOp::GeS(_) => x.cast_signed() >= y.cast_signed(),
        RelOp::GeU(_) => x >= y,
    }
}
