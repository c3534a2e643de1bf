//! What strings stand for (Core Specification, 6.3.3 Strings).
ghost use Rattle.std.specs.Prelude.{◌≡◌, ◌++◌, ◌<◌, List, ℕ, IfOk};
ghost use Rattle.spec_text.specs.Lexical.{StringBody};
ghost use Rattle.lexer.specs.Reading.{hex_value, is_short};
ghost use Rattle.lexer.specs.Strings.{nibble, short_value, next_state, bytes_at, scalar_bytes, decoded, InRange};

use std::alloc::{AllocError, Allocator};

/// The first number that is no Unicode scalar value, nor is any from it on.
const PAST_SCALARS: u32 = 0x110000;

/// Where the reader stands within a string.
#[derive(Clone, Copy)]
pub enum InString {
    /// Between two characters.
    Plain,
    /// Behind a backslash.
    Slash,
    /// Behind `\u`.
    Brace,
    /// Behind the first digit of `\hh`.
    Second(u32),
    /// Within `\u{..}`, behind digits of this number, which is held to the first that is no scalar value.
    Digits(u32),
}

/// What a hexadecimal digit stands for.
pub(crate) fn digit_value(b: u8) -> u8
    ensures { result ≡ hex_value b }
{
    if b <= b'9' {
        b.saturating_sub(b'0')
    } else if b <= b'F' {
        b - (b'A' - 10)
    } else {
        b.saturating_sub(b'a' - 10)
    }
}

/// The four bits of a hexadecimal digit.
fn four_bits(b: u8) -> u32
    ensures is { result ≡ nibble b }
    ensures small { result < 16 }
{
    (digit_value(b) % 16) as u32
}

/// Whether the byte makes an escape of two bytes with the backslash before it.
fn is_short_escape(b: u8) -> bool
    ensures { result ≡ is_short b }
{
    b == b't' || b == b'n' || b == b'r' || b == b'"' || b == b'\'' || b == b'\\'
}

/// What an escape of two bytes stands for.
fn escaped(b: u8) -> u8
    ensures { result ≡ short_value b }
{
    match b {
        b't' => b'\t',
        b'n' => b'\n',
        b'r' => b'\r',
        _ => b,
    }
}

/// Where the reader stands behind a byte.
fn behind(state: InString, b: u8) -> InString
    requires { InRange state }
    ensures is { result ≡ next_state state b }
    ensures kept { InRange result }
{
    match state {
        InString::Plain => {
            if b == b'\\' {
                InString::Slash
            } else {
                InString::Plain
            }
        }
        InString::Slash => {
            if is_short_escape(b) {
                InString::Plain
            } else if b == b'u' {
                InString::Brace
            } else {
                InString::Second(four_bits(b))
            }
        }
        InString::Brace => InString::Digits(0),
        InString::Second(_) => InString::Plain,
        InString::Digits(n) => {
            if b == b'}' {
                InString::Plain
            } else {
                InString::Digits((16 * n + four_bits(b)).min(PAST_SCALARS))
            }
        }
    }
}

/// Adds the bytes of a Unicode scalar value, in UTF-8.
fn put_scalar<A: Allocator>(found: &mut Vec<u8, A>, n: u32) -> Result<(), AllocError>
    ensures added { IfOk result (λ _. found.new.items ≡ found.old.items ++ scalar_bytes n) }
{
    if let Some(character) = char::from_u32(n) {
        let mut room = [0u8; 4];
        found.extend_from_slice(character.encode_utf8(&mut room).as_bytes())?;
    }
    Ok(())
}

/// Adds the bytes that a byte of a string completes.
fn put_completed<A: Allocator>(
    found: &mut Vec<u8, A>,
    state: InString,
    b: u8,
) -> Result<(), AllocError>
    requires { InRange state }
    ensures added { IfOk result (λ _. found.new.items ≡ found.old.items ++ bytes_at state b) }
{
    match state {
        InString::Plain => {
            if b == b'\\' {
                return Ok(());
            }
            found.push(b)?;
            Ok(())
        }
        InString::Slash => {
            if is_short_escape(b) {
                found.push(escaped(b))?;
                return Ok(());
            }
            Ok(())
        }
        InString::Brace => Ok(()),
        InString::Second(m) => {
            found.push((16 * m + four_bits(b)) as u8)?;
            Ok(())
        }
        InString::Digits(n) => {
            if b == b'}' {
                return put_scalar(found, n);
            }
            Ok(())
        }
    }
}

/// Adds the bytes that a string stands for, from what stands between its quotes.
pub fn put_string<A: Allocator>(found: &mut Vec<u8, A>, body: &[u8]) -> Result<(), AllocError>
    // What it adds is the string's value.
    ensures stands { IfOk result (λ _. (bytes : List ℕ) → StringBody body.now bytes → found.new.items ≡ found.old.items ++ bytes) }
    ensures added { IfOk result (λ _. found.new.items ≡ found.old.items ++ decoded body.now) }
{
    let mut state = InString::Plain;
    for b in body {
        put_completed(found, state, *b)?;
        state = behind(state, *b);
    }
    Ok(())
}
