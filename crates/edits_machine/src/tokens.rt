//! Tokens and words.

ghost use Rattle.std.specs.Prelude.{length, IfOk, IfErr};
ghost use Rattle.spec_text.specs.Lexical.{Lexes};
ghost use Rattle.lexer.specs.Refusals as lexed;
ghost use Rattle.lexer.specs.Views as listed;

use lexer::{LexRefusal, Tokens};
use std::alloc::Allocator;

/// As [`lexer::tokens`].
pub fn tokens<A: Allocator>(alloc: A, text: &str) -> Result<Tokens<A>, LexRefusal>
    ensures lexes { IfOk result (λ tokens. Lexes text.now (listed.views text.now tokens.items.items)) }
    ensures spans { IfOk result (λ tokens. listed.SpansRise 0 tokens.items.items (length text.now)) }
    ensures refused { IfErr result (λ refusal. lexed.IsRightly text.now refusal) }
{
    lexer::tokens(alloc, text)
}
