// Numbers, bytes and block types at the front of bytes.
ghost use Rattle.std.specs.Prelude.{◌≡◌, ◌+◌, ◌<◌, ◌≤◌, length, IfOk};
ghost use Rattle.expr_reader.specs.Outcome.{Gives};
ghost use Rattle.spec_modules.specs.Reading.{unsigned_at, signed_at};
ghost use Rattle.laws_modules.specs.ReadingExpressions.{byte_at, memarg_at, result_at};

use crate::unread::DecodeFault;
use wtypes::ValType;

pub fn u32_of(bytes: &[u8]) -> Result<(u32, &[u8]), DecodeFault>
    ensures value { Gives (λ x. (x.0, x.1.now)) result (unsigned_at 32 bytes.now) }
    ensures shorter { IfOk result (λ x. length x.1.now < length bytes.now) }
{
    match leb::read_u32(bytes, 0) {
        Some((n, next)) => Ok((n, &bytes[next..])),
        None => Err(DecodeFault::Malformed(bytes.len())),
    }
}

pub fn s32_of(bytes: &[u8]) -> Result<(i32, &[u8]), DecodeFault>
    ensures value { Gives (λ x. (x.0, x.1.now)) result (signed_at 32 bytes.now) }
    ensures shorter { IfOk result (λ x. length x.1.now < length bytes.now) }
{
    match leb::read_s32(bytes, 0) {
        Some((z, next)) => Ok((z, &bytes[next..])),
        None => Err(DecodeFault::Malformed(bytes.len())),
    }
}

pub fn s64_of(bytes: &[u8]) -> Result<(i64, &[u8]), DecodeFault>
    ensures value { Gives (λ x. (x.0, x.1.now)) result (signed_at 64 bytes.now) }
    ensures shorter { IfOk result (λ x. length x.1.now < length bytes.now) }
{
    match leb::read_s64(bytes, 0) {
        Some((z, next)) => Ok((z, &bytes[next..])),
        None => Err(DecodeFault::Malformed(bytes.len())),
    }
}

// The byte 0.
#[tactic(auto, unfolding(laws_modules::specs::ReadingExpressions::byte_at))]
pub fn zero_of(bytes: &[u8]) -> Result<&[u8], DecodeFault>
    ensures value { Gives (λ x. x.now) result (byte_at 0 bytes.now) }
    ensures shorter { IfOk result (λ x. length x.now < length bytes.now) }
{
    match bytes {
        [0, rest @ ..] => Ok(rest),
        _ => Err(DecodeFault::Malformed(bytes.len())),
    }
}

// An alignment and an offset.
#[tactic(auto, unfolding(laws_modules::specs::ReadingExpressions::memarg_at))]
pub fn memarg_of(bytes: &[u8]) -> Result<(u32, u32, &[u8]), DecodeFault>
    ensures value { Gives (λ x. ((x.0, x.1), x.2.now)) result (memarg_at bytes.now) }
    ensures shorter { IfOk result (λ x. length x.2.now < length bytes.now) }
{
    let (align, rest) = u32_of(bytes)?;
    let (offset, rest) = u32_of(rest)?;
    Ok((align, offset, rest))
}

// A block type.
#[tactic(auto, unfolding(laws_modules::specs::ReadingExpressions::result_at))]
pub fn result_of(bytes: &[u8]) -> Result<(Option<ValType>, &[u8]), DecodeFault>
    ensures value { Gives (λ x. (x.0, x.1.now)) result (result_at bytes.now) }
    ensures shorter { IfOk result (λ x. length x.1.now < length bytes.now) }
{
    match bytes {
        [] => Err(DecodeFault::Malformed(0)),
        [0x40, rest @ ..] => Ok((None, rest)),
        [0x7F, rest @ ..] => Ok((Some(ValType::I32), rest)),
        [0x7E, rest @ ..] => Ok((Some(ValType::I64), rest)),
        [0x7C..=0x7D, ..] => Err(DecodeFault::Unsupported(bytes.len())),
        [_, ..] => Err(DecodeFault::Malformed(bytes.len())),
    }
}
