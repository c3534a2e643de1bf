//! What instructions need beside indices.
ghost use Rattle.std.specs.Prelude.{◌≡◌, ◌≢◌, Err};
ghost use Rattle.text_body.specs.Views.{text_of};
ghost use Rattle.lexer.specs.Values.{bits_at};
ghost use Rattle.text_resolve.specs.declared.refusal.ResolveFault.TheVariants.{NoMemory};
ghost use Rattle.text_resolve.specs.Outcome.{Gives};
ghost use Rattle.text_resolve.specs.Plain.{exponent_at, offset_at, align_at, constant_at};

use crate::{ResolveFault, number};
use lexer::{Piece, bits_32, bits_64};
use wtypes::{ValType, Value};

// The exponent of a power of two.
fn exponent(n: u32) -> Option<u32>
    ensures { result ≡ exponent_at n }
{
    let mut power: u64 = 1;
    for e in 0..32u32 {
        if power == n as u64 {
            return Some(e);
        }
        power *= 2;
    }
    None
}

/// The offset of a load or a store.
pub fn offset(written: Option<Piece<'_>>) -> Result<u32, ResolveFault>
    ensures value { Gives (λ n. n) result (offset_at (text_of written.entry)) }
    ensures memory { result ≢ Err NoMemory }
{
    match written {
        None => Ok(0),
        Some(piece) => number(piece),
    }
}

/// The exponent of the alignment of a load or a store of this width.
pub fn align(width: u32, written: Option<Piece<'_>>) -> Result<u32, ResolveFault>
    ensures value { Gives (λ n. n) result (align_at width (text_of written.entry)) }
    ensures memory { result ≢ Err NoMemory }
{
    match written {
        None => match exponent(width) {
            Some(e) => Ok(e),
            None => Err(ResolveFault::Broken),
        },
        Some(piece) => {
            let bytes = number(piece)?;
            match exponent(bytes) {
                Some(e) => Ok(e),
                None => Err(ResolveFault::NumberRange(piece.at)),
            }
        }
    }
}

// The number whose bits spell a constant of 32 bits.
fn word_32(piece: Piece<'_>) -> Result<u32, ResolveFault>
    ensures value { Gives (λ n. n) result (bits_at 32 piece.entry.text.now) }
    ensures memory { result ≢ Err NoMemory }
{
    match bits_32(piece.text) {
        Some(n) => Ok(n),
        None => Err(ResolveFault::NumberRange(piece.at)),
    }
}

// The number whose bits spell a constant of 64 bits.
fn word_64(piece: Piece<'_>) -> Result<u64, ResolveFault>
    ensures value { Gives (λ n. n) result (bits_at 64 piece.entry.text.now) }
    ensures memory { result ≢ Err NoMemory }
{
    match bits_64(piece.text) {
        Some(n) => Ok(n),
        None => Err(ResolveFault::NumberRange(piece.at)),
    }
}

/// The value of a constant.
pub fn constant(value_type: ValType, piece: Piece<'_>) -> Result<Value, ResolveFault>
    ensures value { Gives (λ c. c) result (constant_at value_type piece.entry.text.now) }
    ensures memory { result ≢ Err NoMemory }
{
    match value_type {
        ValType::I32 => {
            let n = word_32(piece)?;
            Ok(Value::I32(n.cast_signed()))
        }
        ValType::I64 => {
            let n = word_64(piece)?;
            Ok(Value::I64(n.cast_signed()))
        }
    }
}
