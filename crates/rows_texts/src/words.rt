//! Tokens, words, and what strings and integers stand for.

use crate::refused::Refused;
use hex::encode;
use lexer::{Piece, Word, bits_32, bits_64, is_integer, put_string, tokens, unsigned_32, words};
use std::alloc::{AllocError, Global};
use std::str::from_utf8;

/// A line for each token: its kind, and the places of its first byte and behind its last one.
pub(crate) fn tokens_of(alloc: Global, text: &str) -> Result<String, Refused> {
    let mut out = String::new(alloc);
    for token in &tokens(alloc, text)?.items {
        let kind = token.kind;
        let from = token.from;
        let upto = token.upto;
        writeln!(out, "{kind:?} {from} {upto}")?;
    }
    Ok(out)
}

/// Whether the text is an integer.
pub(crate) fn integer(alloc: Global, text: &str) -> Result<String, Refused> {
    let is = is_integer(text.as_bytes());
    Ok(format!(in alloc; "{is}\n")?)
}

/// Puts a piece of a text, and its place.
pub(crate) fn put_piece(out: &mut String, piece: Piece<'_>) -> Result<(), AllocError> {
    let text = from_utf8(piece.text).unwrap_or("no text");
    let at = piece.at;
    write!(out, "{text}@{at}")
}

/// Puts a piece behind a front, where there is one.
pub(crate) fn put_optional(
    out: &mut String,
    front: &str,
    piece: Option<Piece<'_>>,
) -> Result<(), AllocError> {
    match piece {
        Some(piece) => {
            out.push_str(front)?;
            put_piece(out, piece)
        }
        None => Ok(()),
    }
}

/// Puts a word.
fn put_word(out: &mut String, word: Word<'_>) -> Result<(), AllocError> {
    match word {
        Word::OffsetIs(piece) => put_optional(out, "OffsetIs ", Some(piece)),
        Word::AlignIs(piece) => put_optional(out, "AlignIs ", Some(piece)),
        Word::Id(piece) => put_optional(out, "Id ", Some(piece)),
        Word::Number(piece) => put_optional(out, "Number ", Some(piece)),
        Word::Str(piece) => put_optional(out, "Str ", Some(piece)),
        other => write!(out, "{other:?}"),
    }
}

/// A line for each word.
pub(crate) fn words_of(alloc: Global, text: &str) -> Result<String, Refused> {
    let tokens = tokens(alloc, text)?;
    let mut out = String::new(alloc);
    for word in &words(alloc, text, &tokens.items)? {
        put_word(&mut out, *word)?;
        out.push('\n')?;
    }
    Ok(out)
}

/// What a string without its quotes stands for, put behind an `x`, in hex.
pub(crate) fn string(alloc: Global, text: &str) -> Result<String, Refused> {
    let mut found = b"x".to_vec(alloc)?;
    put_string(&mut found, text.as_bytes())?;
    let mut out = encode(alloc, &found)?;
    out.push('\n')?;
    Ok(out)
}

/// What an integer without a sign stands for.
pub(crate) fn unsigned(alloc: Global, text: &str) -> Result<String, Refused> {
    let found = unsigned_32(text.as_bytes());
    Ok(format!(in alloc; "{found:?}\n")?)
}

/// What an integer of 32 bits stands for.
pub(crate) fn of_32_bits(alloc: Global, text: &str) -> Result<String, Refused> {
    let found = bits_32(text.as_bytes());
    Ok(format!(in alloc; "{found:?}\n")?)
}

/// What an integer of 64 bits stands for.
pub(crate) fn of_64_bits(alloc: Global, text: &str) -> Result<String, Refused> {
    let found = bits_64(text.as_bytes());
    Ok(format!(in alloc; "{found:?}\n")?)
}
