//! Tokens as words.
ghost use Rattle.std.specs.Prelude.{◌≡◌, ◌≤◌, length, IfOk, IfErr, codes};
ghost use Rattle.spec_text.specs.Lexical.{Lexes};
ghost use Rattle.spec_text.specs.Words.{AreWords, OffsetIs, AlignIs};
ghost use Rattle.lexer.specs.Views as listed;
ghost use Rattle.lexer.specs.WordsViews.{view, views};
ghost use Rattle.lexer.specs.ReadingOfWords.{seen, left, behind, memarg_at, keyword_at, string_at, word_at, WordsAreOne};
ghost use Rattle.lexer.specs.WordRefusals.{IsRightly};

use crate::refusal::TextRefusal;
use crate::word::{Piece, Word};
use crate::{Token, integers_are_tested, is_integer};
use spec_text::{TokenKind, key_word_named, operator_named};
use std::alloc::Allocator;

/// What stands before the integer of an offset, and of an alignment.
const OFFSET: &[u8] = b"offset=";

const ALIGN: &[u8] = b"align=";

/// What is left of the text behind this beginning.
fn past<'a>(beginning: &[u8], text: &'a [u8]) -> Option<&'a [u8]>
    ensures { left (λ r. r.now) result ≡ behind beginning.now text.now }
{
    let size = beginning.len();
    if size <= text.len() && &text[..size] == beginning {
        Some(&text[size..])
    } else {
        None
    }
}

/// `offset=` or `align=` with an integer.
fn memory_argument(piece: Piece<'_>) -> Option<Word<'_>>
    ensures { seen result ≡ memarg_at piece.entry.at piece.entry.text.now }
{
    if let Some(text) = past(OFFSET, piece.text) {
        if is_integer(text) {
            Some(Word::OffsetIs(Piece { at: piece.at, text }))
        } else {
            None
        }
    } else if let Some(text) = past(ALIGN, piece.text) {
        if is_integer(text) {
            Some(Word::AlignIs(Piece { at: piece.at, text }))
        } else {
            None
        }
    } else {
        None
    }
}

/// The word of a run that begins with a lower-case letter.
fn keyword(piece: Piece<'_>) -> Option<Word<'_>>
    ensures { seen result ≡ keyword_at piece.entry.at piece.entry.text.now }
{
    if let Some(key) = key_word_named(piece.text) {
        Some(Word::Key(key))
    } else if let Some(op) = operator_named(piece.text) {
        Some(Word::Op(op))
    } else {
        memory_argument(piece)
    }
}

/// The string between the quotes.
fn string(piece: Piece<'_>) -> Option<Word<'_>>
    ensures { seen result ≡ string_at piece.entry.text.now }
{
    let size = piece.text.len();
    if size < 2 {
        return None;
    }
    Some(Word::Str(Piece {
        at: piece.at,
        text: &piece.text[1..size - 1],
    }))
}

/// The word of a token, if it has one.
fn word<'a>(text: &'a [u8], token: &Token) -> Option<Word<'a>>
    requires begins { token.now.from ≤ token.now.upto }
    requires within { token.now.upto ≤ length text.now }
    ensures { seen result ≡ word_at (listed.view text.now token.now) }
{
    let piece = Piece {
        at: token.from,
        text: &text[token.from..token.upto],
    };
    match token.kind {
        TokenKind::Open => Some(Word::LeftBracket),
        TokenKind::Close => Some(Word::RightBracket),
        TokenKind::Keyword => keyword(piece),
        TokenKind::Name => Some(Word::Id(piece)),
        TokenKind::Integer => Some(Word::Number(piece)),
        TokenKind::Text => string(piece),
    }
}

/// The words of the tokens of a text. It is refused at the first token that is no word: a keyword that the text format
/// does not have.
pub fn words<'a, A: Allocator>(
    alloc: A,
    text: &'a str,
    tokens: &[Token],
) -> Result<Vec<Word<'a>, A>, TextRefusal>
    requires lexes { Lexes text.now (listed.views text.now tokens.now) }
    requires spans { listed.SpansRise 0 tokens.now (length text.now) }
    // The tokens are these words.
    ensures words { IfOk result (λ found. AreWords (listed.views text.entry.now tokens.now) (views found.items)) }
    // They are refused for another cause than memory only where they are none.
    ensures refused { IfErr result (λ refusal. IsRightly (listed.views text.entry.now tokens.now) refusal) }
{
    integers_are_tested();
    let bytes = text.as_bytes();
    let mut found = Vec::new(alloc);
    for token in tokens {
        let Some(next) = word(bytes, token) else {
            return Err(TextRefusal::Unexpected(token.from));
        };
        found.push(next)?;
    }
    Ok(found)
}

/// A law: no tokens are two lists of words.
pub fn no_tokens_are_two_lists_of_words()
    ensures { WordsAreOne }
{
    integers_are_tested();
}
