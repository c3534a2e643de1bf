//! The tokens of a text in the text format of WebAssembly, and its words (Core Specification, 6.2 Lexical Format).
#![tactic(auto)]

mod list;
mod numbers;
mod reading;
mod refusal;
mod states;
mod strings;
mod word;
mod words_reading;

ghost use Rattle.std.specs.Prelude.{◌≡◌, List, ⊤, IfOk, IfErr, length};
ghost use Rattle.spec_text.specs.Lexical.{Lexes, LexesToOne};
ghost use Rattle.lexer.specs.Views.{views, SpansRise};
ghost use Rattle.lexer.specs.declared.LexRefusal.TheVariants.{NoMemory};
ghost use Rattle.lexer.specs.Refusals.{IsRightly};
ghost use Rattle.lexer.specs.Reading.{IntegerIsTested};

pub use list::{Token, Tokens};
pub use numbers::{bits_32, bits_64, unsigned_32};
pub use reading::is_integer;
use reading::read_piece;
pub use refusal::TextRefusal;
use states::Fault;
use std::alloc::{AllocFailed, Allocator};
pub use strings::put_string;
use thiserror::Error;
pub use word::{Piece, Word};
pub use words_reading::{no_tokens_are_two_lists_of_words, words};

/// Why a text has no tokens. A place is the number of bytes before it.
#[derive(Clone, Copy, Debug, PartialEq, Eq, Error)]
pub enum LexRefusal {
    /// What begins at this place is no token, white space or comment.
    #[error("what begins at byte {0} is no token")]
    BadToken(usize),
    /// The string or block comment that begins at this place does not end.
    #[error("the string or comment that begins at byte {0} does not end")]
    Unclosed(usize),
    /// The allocator refused.
    #[error("memory was refused")]
    NoMemory,
}

impl<T: Drop> From<AllocFailed<T>> for LexRefusal {
    ghost from_gives = { λ _ e. e ≡ NoMemory };

    fn from(_failed: AllocFailed<T>) -> Self {
        LexRefusal::NoMemory
    }
}

/// The tokens of a text (Core Specification, 6.2.2 Tokens), each the longest that begins at its place. Of several faults the
/// first one is answered. The places of refusals are for people to read, and no clause speaks of them.
pub fn tokens<A: Allocator>(alloc: A, text: &str) -> Result<Tokens<A>, LexRefusal>
    // The text is these tokens, each with the slice of its span, and white space and comments between them.
    ensures lexes { IfOk result (λ tokens. Lexes text.now (views text.now tokens.items.items)) }
    // No span is empty, they rise without overlap, and they end within the text.
    ensures spans { IfOk result (λ tokens. SpansRise 0 tokens.items.items (length text.now)) }
    // It is refused for another cause than memory only where it lexes to no list.
    ensures refused { IfErr result (λ refusal. IsRightly text.now refusal) }
{
    let bytes = text.as_bytes();
    let mut items = Vec::new(alloc);
    let mut rest = bytes;
    while !rest.is_empty() {
        let from = bytes.len() - rest.len();
        match read_piece(rest) {
            Err(Fault::Bad) => return Err(LexRefusal::BadToken(from)),
            Err(Fault::Unclosed) => return Err(LexRefusal::Unclosed(from)),
            Ok((None, after)) => rest = after,
            Ok((Some(kind), after)) => {
                items.push(Token {
                    kind,
                    from,
                    upto: bytes.len() - after.len(),
                })?;
                rest = after;
            }
        }
    }
    Ok(Tokens { items })
}

/// A law: no text lexes to two lists of tokens.
pub fn no_text_lexes_to_two_lists()
    ensures { LexesToOne }
{}

/// A law: the test of `is_integer` passes the texts that are integers, and no others.
pub fn integers_are_tested()
    ensures { IntegerIsTested }
{}
