//! Values: a type byte, `7F` for 32 bits and `7E` for 64, and the bits.

ghost use Rattle.std.specs.Prelude.{◌≡◌, ◌≢◌, ◌++◌, ℕ, List, IfOk, OnOk, take, length, Err};
ghost use Rattle.wtypes.specs.declared.Value.{Value};
ghost use Rattle.spec_block.specs.Bytes.{IsValue, value_bytes};
ghost use Rattle.records.specs.declared.fault.Fault.TheVariants.{NoMemory};
ghost use Rattle.records.specs.Reading.{Gives, IsRead};
ghost use Rattle.records.specs.Values.{value_at};

use crate::{Fault, append_u32, append_u64, read_byte, read_u32, read_u64};
use std::alloc::{AllocError, Allocator};
use wtypes::Value;

#[tactic(auto, unfolding(crate::specs::Values::value_at))]
fn value_of(bytes: &[u8]) -> Result<(Value, &[u8]), Fault>
    ensures read { Gives (λ x. (x.0, x.1.now)) result (value_at bytes.now) }
    ensures memory { result ≢ Err NoMemory }
{
    let (tag, rest) = read_byte(bytes)?;
    if tag == 0x7f {
        let (bits, rest) = read_u32(rest)?;
        return Ok((Value::I32(bits.cast_signed()), rest));
    }
    if tag == 0x7e {
        let (bits, rest) = read_u64(rest)?;
        return Ok((Value::I64(bits.cast_signed()), rest));
    }
    Err(Fault::Malformed(bytes.len()))
}

/// Reads a value, and gives the bytes after it. It is refused exactly where no value stands in front, and the first fault is answered.
pub fn read_value(bytes: &[u8]) -> Result<(Value, &[u8]), Fault>
    ensures spelled { IfOk result (λ x. IsValue x.0 × (bytes.now ≡ value_bytes x.0 ++ x.1.now)) }
    ensures only { (value : Value) (rest : List ℕ) → IsValue value → bytes.now ≡ value_bytes value ++ rest → IsRead (λ x. (x.0, x.1.now)) result value rest }
    ensures first { Gives (λ x. (x.0, x.1.now)) result (value_at bytes.now) }
    ensures memory { result ≢ Err NoMemory }
{
    value_of(bytes)
}

/// Appends a value. Where memory is refused, what was there still stands in front.
pub fn append_value<A: Allocator>(out: &mut Vec<u8, A>, value: Value) -> Result<(), AllocError>
    ensures bytes { OnOk result (out.new.items ≡ out.old.items ++ value_bytes value) }
    ensures front { take (length out.old.items) out.new.items ≡ out.old.items }
{
    match value {
        Value::I32(x) => {
            out.push(0x7f)?;
            append_u32(out, x.cast_unsigned())
        }
        Value::I64(x) => {
            out.push(0x7e)?;
            append_u64(out, x.cast_unsigned())
        }
    }
}
