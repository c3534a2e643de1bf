//! Reading a field from the front of what is left. A reader gives the field and the bytes after it.

ghost use Rattle.std.specs.Prelude.{◌≢◌, Err};
ghost use Rattle.std.specs.Int.{w32, w64};
ghost use Rattle.records.specs.declared.fault.Fault.TheVariants.{NoMemory};
ghost use Rattle.records.specs.Reading.{Gives, byte_at, number_at, front_at, tag_at};

use crate::fault::Fault;
use byteorder::{ByteOrder, LittleEndian};

/// A byte.
pub fn read_byte(bytes: &[u8]) -> Result<(u8, &[u8]), Fault>
    ensures read { Gives (λ x. (x.0, x.1.now)) result (byte_at bytes.now) }
    ensures memory { result ≢ Err NoMemory }
{
    match bytes {
        [] => Err(Fault::Malformed(0)),
        [byte, rest @ ..] => Ok((*byte, rest)),
    }
}

/// A number of 4 bytes, the low byte first.
#[tactic(auto, using(crate::proofs::Numbers::little_4))]
pub fn read_u32(bytes: &[u8]) -> Result<(u32, &[u8]), Fault>
    ensures read { Gives (λ x. (x.0, x.1.now)) result (number_at w32 bytes.now) }
    ensures memory { result ≢ Err NoMemory }
{
    if bytes.len() < 4 {
        return Err(Fault::Malformed(bytes.len()));
    }
    let (front, rest) = bytes.split_at(4);
    Ok((LittleEndian::read_u32(front), rest))
}

/// A number of 8 bytes, the low byte first.
#[tactic(auto, using(crate::proofs::Numbers::little_8))]
pub fn read_u64(bytes: &[u8]) -> Result<(u64, &[u8]), Fault>
    ensures read { Gives (λ x. (x.0, x.1.now)) result (number_at w64 bytes.now) }
    ensures memory { result ≢ Err NoMemory }
{
    if bytes.len() < 8 {
        return Err(Fault::Malformed(bytes.len()));
    }
    let (front, rest) = bytes.split_at(8);
    Ok((LittleEndian::read_u64(front), rest))
}

/// So many bytes.
pub fn read_front(bytes: &[u8], size: usize) -> Result<(&[u8], &[u8]), Fault>
    ensures read { Gives (λ x. (x.0.now, x.1.now)) result (front_at size bytes.now) }
    ensures memory { result ≢ Err NoMemory }
{
    if bytes.len() < size {
        return Err(Fault::Malformed(bytes.len()));
    }
    Ok(bytes.split_at(size))
}

/// A number of 4 bytes that has to be this one. It gives the bytes after it.
#[tactic(auto, unfolding(crate::specs::Reading::tag_at))]
pub fn read_tag(bytes: &[u8], tag: u32) -> Result<&[u8], Fault>
    ensures read { Gives (λ x. x.now) result (tag_at tag bytes.now) }
    ensures memory { result ≢ Err NoMemory }
{
    let (number, rest) = read_u32(bytes)?;
    if number == tag {
        return Ok(rest);
    }
    Err(Fault::Malformed(bytes.len()))
}
