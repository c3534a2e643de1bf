//! The values of integers (Core Specification, 6.3.1 Integers).
ghost use Rattle.std.specs.Prelude.{◌≡◌, ◌<◌, ◌^◌, ℕ, IfSome, IfNone};
ghost use Rattle.spec_text.specs.Numbers.{IsU32, IsBits};
ghost use Rattle.lexer.specs.Reading.{digit_test};
ghost use Rattle.lexer.specs.Values.{base, value_at, magnitude_at, capped, bits_at, Finds};

use crate::strings::digit_value;

const LAST_32: u64 = 0xFFFF_FFFF;

const LEAST_32: u64 = 0x8000_0000;

const LEAST_64: u64 = 0x8000_0000_0000_0000;

/// Whether the byte is a digit, hexadecimal or decimal.
fn is_digit(hexadecimal: bool, b: u8) -> bool
    ensures { result ≡ digit_test hexadecimal b }
{
    (b'0' <= b && b <= b'9')
        || (hexadecimal && ((b'a' <= b && b <= b'f') || (b'A' <= b && b <= b'F')))
}

/// How many digits there are.
fn radix(hexadecimal: bool) -> u64
    ensures { result ≡ base hexadecimal }
{
    if hexadecimal { 16 } else { 10 }
}

/// The number of digits, with `_` between them, if it is below 2^64.
fn digits(hexadecimal: bool, text: &[u8]) -> Option<u64>
    ensures { Finds result (value_at hexadecimal 0 text.now) }
{
    let base = radix(hexadecimal);
    let mut value = 0u64;
    for b in text {
        if *b == b'_' {
            continue;
        }
        if !is_digit(hexadecimal, *b) {
            return None;
        }
        let Some(scaled) = value.checked_mul(base) else {
            return None;
        };
        let Some(next) = scaled.checked_add(digit_value(*b) as u64) else {
            return None;
        };
        value = next;
    }
    Some(value)
}

/// The number of an integer without a sign, if it is below 2^64.
fn magnitude(text: &[u8]) -> Option<u64>
    ensures { Finds result (magnitude_at text.now) }
{
    match text {
        [] => Some(0),
        [b'0', b'x', more @ ..] => digits(true, more),
        _ => digits(false, text),
    }
}

/// The number of an integer without a sign, if it is at most this.
fn at_most(limit: u64, text: &[u8]) -> Option<u64>
    ensures { result ≡ capped limit (magnitude_at text.now) }
{
    match magnitude(text) {
        None => None,
        Some(n) => { if n <= limit { Some(n) } else { None } }
    }
}

/// The 32 bits of an integer.
fn in_32_bits(text: &[u8]) -> Option<u64>
    ensures is { result ≡ bits_at 32 text.now }
    ensures small { IfSome result (λ n. n < 2 ^ 32) }
{
    match text {
        [] => Some(0),
        [b, more @ ..] => {
            if *b == b'+' {
                at_most(LAST_32, more)
            } else if *b == b'-' {
                match at_most(LEAST_32, more) {
                    None => None,
                    Some(n) => Some((LAST_32 + 1 - n) % (LAST_32 + 1)),
                }
            } else {
                at_most(LAST_32, text)
            }
        }
    }
}

/// The 64 bits of an integer.
fn in_64_bits(text: &[u8]) -> Option<u64>
    ensures { result ≡ bits_at 64 text.now }
{
    match text {
        [] => Some(0),
        [b, more @ ..] => {
            if *b == b'+' {
                at_most(u64::MAX, more)
            } else if *b == b'-' {
                match at_most(LEAST_64, more) {
                    None => None,
                    Some(n) => Some(if n == 0 { 0 } else { u64::MAX - n + 1 }),
                }
            } else {
                at_most(u64::MAX, text)
            }
        }
    }
}

/// The number of a `u32`: an integer without a sign, below 2^32.
pub fn unsigned_32(text: &[u8]) -> Option<u32>
    ensures found { IfSome result (λ n. IsU32 text.now n) }
    // It is refused only where there is none.
    ensures none { IfNone result ((n : ℕ) → IsU32 text.now n → ⊥) }
{
    match at_most(LAST_32, text) {
        None => None,
        Some(n) => Some(n as u32),
    }
}

/// The 32 bits of an integer with a sign or without, from -2^31 to 2^32 - 1.
pub fn bits_32(text: &[u8]) -> Option<u32>
    ensures found { IfSome result (λ n. IsBits 32 text.now n) }
    // It is refused only where there are none.
    ensures none { IfNone result ((n : ℕ) → IsBits 32 text.now n → ⊥) }
{
    match in_32_bits(text) {
        None => None,
        Some(n) => Some(n as u32),
    }
}

/// The 64 bits of an integer with a sign or without, from -2^63 to 2^64 - 1.
pub fn bits_64(text: &[u8]) -> Option<u64>
    ensures found { IfSome result (λ n. IsBits 64 text.now n) }
    // It is refused only where there are none.
    ensures none { IfNone result ((n : ℕ) → IsBits 64 text.now n → ⊥) }
{
    in_64_bits(text)
}
