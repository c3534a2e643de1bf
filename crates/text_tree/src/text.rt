//! Texts as trees.
ghost use Rattle.std.specs.Prelude.{◌≡◌, length, IfOk, IfErr};
ghost use Rattle.spec_text.specs.Lexical.{Lexes};
ghost use Rattle.lexer.specs.Views as listed;
ghost use Rattle.lexer.specs.WordRefusals.{Unless};
ghost use Rattle.lexer.specs.WordsViews.{views};
ghost use Rattle.lexer.specs.declared.refusal.TextRefusal.TheVariants.{NoMemory};
ghost use Rattle.text_tree.specs.Places.{fields_of};
ghost use Rattle.text_tree.specs.Texts.{IsTree, NoTree, IsText, NoText, TextsAreOne};

use crate::field::Text;
use crate::fields::module;
use lexer::{
    LexRefusal, TextRefusal, Token, Tokens, Word, no_tokens_are_two_lists_of_words, tokens, words,
};
use std::alloc::Allocator;
use std::str::from_utf8;
use text_body::ParseFault;

/// The place of the first of the last `left` tokens, or `end` if there is none.
fn place(tokens: &[Token], end: usize, left: usize) -> usize {
    if left == 0 || tokens.len() < left {
        return end;
    }
    tokens[tokens.len() - left].from
}

/// The tree of the words of a text. A refusal has its place in the text.
fn tree<'a, A: Allocator + Clone>(
    alloc: &A,
    text: &str,
    tokens: &[Token],
    words: &[Word<'a>],
) -> Result<Text<'a, A>, TextRefusal>
    ensures grammar { IfOk result (λ tree. IsTree (views words.now) (fields_of tree)) }
    ensures refused { IfErr result (Unless (NoTree (views words.now))) }
{
    match module(alloc, words) {
        Ok(tree) => Ok(tree),
        Err(ParseFault::NoMemory) => Err(TextRefusal::NoMemory),
        Err(ParseFault::Stuck(left)) => {
            Err(TextRefusal::Unexpected(place(tokens, text.len(), left)))
        }
    }
}

/// The place of the first fault of a text, where a token that is no word begins at this place: an earlier one, or this.
fn first_fault<A: Allocator + Clone>(alloc: &A, text: &str, at: usize) -> Result<usize, TextRefusal>
    ensures refused { IfErr result (λ refusal. refusal ≡ NoMemory) }
{
    let bytes = text.as_bytes();
    if bytes.len() < at {
        return Ok(at);
    }
    let Ok(front) = from_utf8(&bytes[..at]) else {
        return Ok(at);
    };
    let found = match tokens(alloc.clone()?, front) {
        Ok(found) => found,
        Err(LexRefusal::NoMemory) => return Err(TextRefusal::NoMemory),
        Err(_) => return Ok(at),
    };
    let words = match words(alloc.clone()?, front, &found.items) {
        Ok(words) => words,
        Err(TextRefusal::NoMemory) => return Err(TextRefusal::NoMemory),
        Err(TextRefusal::Unexpected(earlier)) => return Ok(earlier),
    };
    match tree(alloc, front, &found.items, &words) {
        Ok(_) => Ok(at),
        Err(TextRefusal::NoMemory) => Err(TextRefusal::NoMemory),
        Err(TextRefusal::Unexpected(earlier)) => Ok(earlier),
    }
}

/// The fields of a text (Core Specification, 6.6 Modules), from its tokens: those in the text's order, names and integers
/// as they are written, folded instructions unfolded, and strings as what they stand for. Imports stand before all functions,
/// tables, memories and globals, and a start stands at most once.
///
/// It is refused at the first token with which the text cannot go on; at the word of an import or a start that stands too late; at a name of an
/// import or an export that is not UTF-8; or at the text's end, if that comes too early. The place is the number of bytes
/// before it, and is for people to read: no clause speaks of it.
pub fn parse<'a, A: Allocator + Clone>(
    alloc: &A,
    text: &'a str,
    tokens: &Tokens<A>,
) -> Result<Text<'a, A>, TextRefusal>
    requires lexes { Lexes text.now (listed.views text.now tokens.now.items.items) }
    requires spans { listed.SpansRise 0 tokens.now.items.items (length text.now) }
    // The tokens are the words of these fields.
    ensures text { IfOk result (λ tree. IsText (listed.views text.entry.now tokens.now.items.items) (fields_of tree)) }
    // They are refused for another cause than memory only where they are the words of no fields.
    ensures refused { IfErr result (Unless (NoText (listed.views text.entry.now tokens.now.items.items))) }
{
    no_tokens_are_two_lists_of_words();
    match words(alloc.clone()?, text, &tokens.items) {
        Ok(words) => tree(alloc, text, &tokens.items, &words),
        Err(TextRefusal::NoMemory) => Err(TextRefusal::NoMemory),
        Err(TextRefusal::Unexpected(at)) => {
            let first = first_fault(alloc, text, at)?;
            Err(TextRefusal::Unexpected(first))
        }
    }
}

/// A law: no tokens are the words of two texts.
pub fn no_words_are_two_texts()
    ensures { TextsAreOne }
{
    no_tokens_are_two_lists_of_words();
}
