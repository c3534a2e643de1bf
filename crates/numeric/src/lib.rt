//! The operators of the integer profile on values (Core Specification, 4.3.2 Integer Operations; 4.3.4 Conversions). A value holds the
//! signed reading of its number; each operator is computed on the numbers of its width.
#![tactic(auto)]

ghost use Rattle.std.specs.Prelude.{◌≡◌};
ghost use Rattle.spec_modules.specs.Operators.{type_of, unary_type, binary_type, test_type, compare_type, convert_from, unary_of, binary_of, test_of, compare_of, convert_of};

mod bits_32;
mod bits_64;

use wtypes::{BinOp, CvtOp, RelOp, TestOp, TrapCode, UnOp, Value};

/// An operator of one operand: the number of zeros above the highest one, of zeros below the lowest one, or of ones.
pub fn unary(op: UnOp, value: Value) -> Value
    requires { type_of value ≡ unary_type op }
    ensures { result ≡ unary_of op value }
{
    match value {
        Value::I32(x) => Value::I32(bits_32::unary(op, x.cast_unsigned()).cast_signed()),
        Value::I64(x) => Value::I64(bits_64::unary(op, x.cast_unsigned()).cast_signed()),
    }
}

/// An operator of two operands. Sums, differences and products are modulo 2^N, and shifts and rotations go by the second operand modulo N.
///
/// # Errors
///
/// `DivideByZero` where the second operand of a division or remainder is 0, and `IntegerOverflow` where the least number is divided by -1 by
/// `DivS`. `RemS` of these is 0.
#[inline(always)]
pub fn binary(op: BinOp, first: Value, second: Value) -> Result<Value, TrapCode>
    requires first_type { type_of first ≡ binary_type op }
    requires second_type { type_of second ≡ binary_type op }
    ensures { result ≡ binary_of op first second }
{
    match (first, second) {
        (Value::I32(x), Value::I32(y)) => {
            let z = bits_32::binary(op, x.cast_unsigned(), y.cast_unsigned())?;
            Ok(Value::I32(z.cast_signed()))
        }
        (Value::I64(x), Value::I64(y)) => {
            let z = bits_64::binary(op, x.cast_unsigned(), y.cast_unsigned())?;
            Ok(Value::I64(z.cast_signed()))
        }
        _ => unreachable!(),
    }
}

/// Whether the operand passes the test: 1 or 0.
pub fn test(op: TestOp, value: Value) -> Value
    requires { type_of value ≡ test_type op }
    ensures { result ≡ test_of op value }
{
    let is_zero = match value {
        Value::I32(x) => x == 0,
        Value::I64(x) => x == 0,
    };
    Value::I32(if is_zero { 1 } else { 0 })
}

/// Whether the comparison holds of the operands: 1 or 0.
#[inline(always)]
pub fn compare(op: RelOp, first: Value, second: Value) -> Value
    requires first_type { type_of first ≡ compare_type op }
    requires second_type { type_of second ≡ compare_type op }
    ensures { result ≡ compare_of op first second }
{
    let holds = match (first, second) {
        (Value::I32(x), Value::I32(y)) => bits_32::compare(
            op,
            x.cast_unsigned(),
            y.cast_unsigned(),
        ),
        (Value::I64(x), Value::I64(y)) => bits_64::compare(
            op,
            x.cast_unsigned(),
            y.cast_unsigned(),
        ),
        _ => unreachable!(),
    };
    Value::I32(if holds { 1 } else { 0 })
}

/// The operand in the other type: its low 32 bits, its signed reading, or its number. An extension of the sign keeps the type: it is the signed
/// reading of the low 8, 16 or 32 bits.
pub fn convert(op: CvtOp, value: Value) -> Value
    requires { type_of value ≡ convert_from op }
    ensures { result ≡ convert_of op value }
{
    match (op, value) {
        (CvtOp::I32WrapI64, Value::I64(x)) => Value::I32(
            ((x.cast_unsigned() % (1 << 32)) as u32).cast_signed(),
        ),
        (CvtOp::I64ExtendI32S, Value::I32(x)) => Value::I64(i64::from(x)),
        (CvtOp::I64ExtendI32U, Value::I32(x)) => Value::I64(i64::from(x.cast_unsigned())),
        (CvtOp::I32Extend8S, Value::I32(x)) => Value::I32(i32::from(
            ((x.cast_unsigned() % (1 << 8)) as u8).cast_signed(),
        )),
        (CvtOp::I32Extend16S, Value::I32(x)) => Value::I32(i32::from(
            ((x.cast_unsigned() % (1 << 16)) as u16).cast_signed(),
        )),
        (CvtOp::I64Extend8S, Value::I64(x)) => Value::I64(i64::from(
            ((x.cast_unsigned() % (1 << 8)) as u8).cast_signed(),
        )),
        (CvtOp::I64Extend16S, Value::I64(x)) => Value::I64(i64::from(
            ((x.cast_unsigned() % (1 << 16)) as u16).cast_signed(),
        )),
        (CvtOp::I64Extend32S, Value::I64(x)) => Value::I64(i64::from(
            ((x.cast_unsigned() % (1 << 32)) as u32).cast_signed(),
        )),
        _ => unreachable!(),
    }
}
