//! The pieces of a text: tokens, white space and comments, one at a time from the front.
ghost use Rattle.std.specs.Prelude.{◌≡◌, ◌<◌, ◌≤◌, ◌^◌, ◌-◌, ℕ, List, length, take, Option, Some, None, IsTrue, true, false};
ghost use Rattle.spec_text.specs.Lexical.{is_white, is_digit, is_lower, is_idchar, is_hex, is_plain, is_no_newline, is_mark};
ghost use Rattle.lexer.specs.Reading.{seen, left, left_or_fault, digit_test, run_at, line_at, bracket_at, StaysInRange, hex_value, is_short, is_scalar, step_of, is_digits, is_unsigned, is_integer, is_name, kind_of, after_run, after_comment, mark_at, after_string, piece_at, InRange};

use crate::states::{Fault, InString, Mark, Step};
use spec_text::TokenKind;

// the last of the control characters of ASCII
const DELETE: u8 = 127;

/// Whether the byte is white space: a space, a tab, a newline or a carriage return.
fn is_white_space(b: u8) -> bool
    ensures { result ≡ is_white b }
{
    b == b' ' || b == b'\t' || b == b'\n' || b == b'\r'
}

/// Whether the byte is a decimal digit.
fn is_decimal_digit(b: u8) -> bool
    ensures { result ≡ is_digit b }
{
    b.is_ascii_digit()
}

/// Whether the byte is a lower-case letter.
fn is_lower_case(b: u8) -> bool
    ensures { result ≡ is_lower b }
{
    b.is_ascii_lowercase()
}

/// Whether the byte may stand in a keyword, a name or an integer.
fn is_identifier_character(b: u8) -> bool
    ensures { result ≡ is_idchar b }
{
    is_decimal_digit(b) || is_lower_case(b) || b.is_ascii_uppercase() || is_symbol(b)
}

/// Whether the byte is one of the marks that may stand in a keyword or a name.
fn is_symbol(b: u8) -> bool
    ensures { result ≡ is_mark b }
{
    b == b'!'
        || (b'#' <= b && b <= b'\'')
        || b == b'*'
        || b == b'+'
        || (b'-' <= b && b <= b'/')
        || b == b':'
        || (b'<' <= b && b <= b'@')
        || b == b'\\'
        || (b'^' <= b && b <= b'`')
        || b == b'|'
        || b == b'~'
}

/// Whether the byte is a hexadecimal digit.
fn is_hexadecimal_digit(b: u8) -> bool
    ensures { result ≡ is_hex b }
{
    b.is_ascii_hexdigit()
}

/// Whether the byte stands for itself in a string.
fn is_plain_character(b: u8) -> bool
    ensures { result ≡ is_plain b }
{
    b' ' <= b && !(b == DELETE || b == b'"' || b == b'\\')
}

/// Whether the byte makes an escape of two bytes with the backslash before it.
fn is_short_escape(b: u8) -> bool
    ensures { result ≡ is_short b }
{
    b == b't' || b == b'n' || b == b'r' || b == b'"' || b == b'\'' || b == b'\\'
}

/// Whether the number is a Unicode scalar value.
fn is_scalar_value(n: u32) -> bool
    ensures { result ≡ is_scalar n }
{
    char::from_u32(n).is_some()
}

/// What a hexadecimal digit stands for.
fn hexadecimal_value(b: u8) -> u32
    requires { is_hex b ≡ true }
    ensures is { result ≡ hex_value b }
    ensures small { result < 16 }
{
    if b <= b'9' {
        (b - b'0') as u32
    } else if b <= b'F' {
        (b - b'A' + 10) as u32
    } else {
        (b - b'a' + 10) as u32
    }
}

/// What a byte does at a place within a string.
fn next_step(state: InString, b: u8) -> Step
    requires { InRange state }
    ensures is { result ≡ step_of state b }
    ensures kept { StaysInRange result }
{
    match state {
        InString::Plain => {
            if b == b'"' {
                Step::End
            } else if b == b'\\' {
                Step::Go(InString::Slash)
            } else if is_plain_character(b) {
                Step::Go(InString::Plain)
            } else {
                Step::Wrong
            }
        }
        InString::Slash => {
            if is_short_escape(b) {
                Step::Go(InString::Plain)
            } else if b == b'u' {
                Step::Go(InString::Brace)
            } else if is_hexadecimal_digit(b) {
                Step::Go(InString::Second)
            } else {
                Step::Wrong
            }
        }
        InString::Second => {
            if is_hexadecimal_digit(b) {
                Step::Go(InString::Plain)
            } else {
                Step::Wrong
            }
        }
        InString::Brace => {
            if b == b'{' {
                Step::Go(InString::First)
            } else {
                Step::Wrong
            }
        }
        InString::First => {
            if is_hexadecimal_digit(b) {
                Step::Go(InString::Digits(hexadecimal_value(b)))
            } else {
                Step::Wrong
            }
        }
        InString::Digits(n) => {
            if is_hexadecimal_digit(b) {
                Step::Go(InString::Digits((16 * n + hexadecimal_value(b)).min(0x110000)))
            } else if b == b'}' && is_scalar_value(n) {
                Step::Go(InString::Plain)
            } else {
                Step::Wrong
            }
        }
    }
}

/// What is left after a string, from its first character on.
fn past_string(text: &[u8]) -> Result<&[u8], Fault>
    ensures { left_or_fault (λ r. r.now) result ≡ after_string InString.Plain text.now }
{
    let mut state = InString::Plain;
    let mut rest = text;
    while let [b, more @ ..] = rest {
        match next_step(state, *b) {
            Step::Go(next) => {
                state = next;
                rest = more;
            }
            Step::End => return Ok(more),
            Step::Wrong => return Err(Fault::Bad),
        }
    }
    Err(Fault::Unclosed)
}

/// What is left after the longest run of identifier characters.
fn past_run(text: &[u8]) -> &[u8]
    ensures is { result.now ≡ after_run is_idchar text.now }
    ensures shorter { length result.now ≤ length text.now }
{
    let mut rest = text;
    while let [b, more @ ..] = rest {
        if !is_identifier_character(*b) {
            break;
        }
        rest = more;
    }
    rest
}

/// What is left from the end of the line on.
fn past_line(text: &[u8]) -> &[u8]
    ensures { result.now ≡ after_run is_no_newline text.now }
{
    let mut rest = text;
    while let [b, more @ ..] = rest {
        if *b == b'\n' {
            break;
        }
        rest = more;
    }
    rest
}

/// What stands at the front of the rest of a comment, and what is left after it.
fn comment_mark(text: &[u8]) -> (Mark, &[u8])
    requires { 0 < length text.now }
    ensures is { (result.0, result.1.now) ≡ mark_at text.now }
    ensures shorter { length result.1.now < length text.now }
{
    match text {
        [b, more @ ..] => match more {
            [] => (Mark::Other, more),
            [c, after @ ..] => {
                if *b == b';' && *c == b')' {
                    (Mark::Ends, after)
                } else if *b == b'(' && *c == b';' {
                    (Mark::Begins, after)
                } else {
                    (Mark::Other, more)
                }
            }
        },
        [] => unreachable!(),
    }
}

/// What is left after a block comment, from behind its `(;` on, if it ends.
#[tactic(auto, using(crate::proofs::Comments::by_mark))]
fn past_comment(text: &[u8]) -> Option<&[u8]>
    ensures { left (λ r. r.now) result ≡ after_comment 0 text.now }
{
    let mut around = 0usize;
    let mut rest = text;
    while !rest.is_empty() {
        let (mark, after) = comment_mark(rest);
        match mark {
            Mark::Ends => {
                if around == 0 {
                    return Some(after);
                }
                around -= 1;
            }
            Mark::Begins => around += 1,
            Mark::Other => {}
        }
        rest = after;
    }
    None
}

/// Whether all bytes are digits, with single `_` between them.
fn are_digits(hexadecimal: bool, text: &[u8]) -> bool
    ensures { result ≡ is_digits (digit_test hexadecimal) false text.now }
{
    let mut had = false;
    for b in text {
        let is_digit = if hexadecimal {
            is_hexadecimal_digit(*b)
        } else {
            is_decimal_digit(*b)
        };
        if is_digit {
            had = true;
        } else if had && *b == b'_' {
            had = false;
        } else {
            return false;
        }
    }
    had
}

/// Whether the text is an integer without a sign.
fn is_unsigned_integer(text: &[u8]) -> bool
    ensures { result ≡ is_unsigned text.now }
{
    match text {
        [] => false,
        [b'0', b'x', more @ ..] => are_digits(true, more),
        _ => are_digits(false, text),
    }
}

/// Whether the text is an integer, with a sign or without (Core Specification, 6.3.1 Integers).
pub fn is_integer(text: &[u8]) -> bool
    ensures { result ≡ is_integer text.now }
{
    match text {
        [] => false,
        [b'+' | b'-', more @ ..] => is_unsigned_integer(more),
        _ => is_unsigned_integer(text),
    }
}

/// Whether the run is a name: `$` and at least one more character.
fn is_name_run(text: &[u8]) -> bool
    ensures { result ≡ is_name text.now }
{
    match text {
        [b, _, ..] => *b == b'$',
        _ => false,
    }
}

/// The kind of a run of identifier characters, if it is a token.
fn kind_of_run(text: &[u8]) -> Option<TokenKind>
    ensures { result ≡ kind_of text.now }
{
    match text {
        [] => None,
        [b, ..] => {
            if is_lower_case(*b) {
                Some(TokenKind::Keyword)
            } else if is_name_run(text) {
                Some(TokenKind::Name)
            } else if is_integer(text) {
                Some(TokenKind::Integer)
            } else {
                None
            }
        }
    }
}

/// A run as a token, and what is left after it.
fn read_run(text: &[u8]) -> Result<(Option<TokenKind>, &[u8]), Fault>
    ensures { seen (λ r. r.now) result ≡ run_at text.now }
{
    let rest = past_run(text);
    match kind_of_run(&text[..text.len() - rest.len()]) {
        None => Err(Fault::Bad),
        Some(kind) => Ok((Some(kind), rest)),
    }
}

/// From behind a `;`, the rest of the line.
fn read_line_comment(text: &[u8]) -> Result<(Option<TokenKind>, &[u8]), Fault>
    ensures { seen (λ r. r.now) result ≡ line_at text.now }
{
    match text {
        [] => Err(Fault::Bad),
        [b, more @ ..] => {
            if *b == b';' {
                Ok((None, past_line(more)))
            } else {
                Err(Fault::Bad)
            }
        }
    }
}

/// From behind a `(`, a block comment or the bracket itself.
fn read_bracket(text: &[u8]) -> Result<(Option<TokenKind>, &[u8]), Fault>
    ensures { seen (λ r. r.now) result ≡ bracket_at text.now }
{
    match text {
        [] => Ok((Some(TokenKind::Open), text)),
        [b, more @ ..] => {
            if *b == b';' {
                match past_comment(more) {
                    None => Err(Fault::Unclosed),
                    Some(rest) => Ok((None, rest)),
                }
            } else {
                Ok((Some(TokenKind::Open), text))
            }
        }
    }
}

/// The kind of the token at the front, or none for white space and a comment, and what is left after it.
pub(crate) fn read_piece(text: &[u8]) -> Result<(Option<TokenKind>, &[u8]), Fault>
    ensures { seen (λ r. r.now) result ≡ piece_at text.now }
{
    match text {
        [] => Err(Fault::Bad),
        [b, more @ ..] => {
            if is_white_space(*b) {
                Ok((None, more))
            } else if *b == b';' {
                read_line_comment(more)
            } else if *b == b'(' {
                read_bracket(more)
            } else if *b == b')' {
                Ok((Some(TokenKind::Close), more))
            } else if *b == b'"' {
                match past_string(more) {
                    Err(fault) => Err(fault),
                    Ok(rest) => Ok((Some(TokenKind::Text), rest)),
                }
            } else if is_identifier_character(*b) {
                read_run(text)
            } else {
                Err(Fault::Bad)
            }
        }
    }
}
