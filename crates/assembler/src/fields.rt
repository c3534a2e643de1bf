//! The fields of a text.
ghost use Rattle.std.specs.Prelude.{◌≡◌, length, IfOk, IfErr};
ghost use Rattle.lexer.specs.Views.{views, SpansRise};
ghost use Rattle.spec_text.specs.Lexical.{Lexes};
ghost use Rattle.text_resolve.specs.Refusals.{Unless};
ghost use Rattle.text_tree.specs.Places.{fields_of};
ghost use Rattle.assembler.specs.NamedModules.{HasFields, NamesNothing, LexesToNothing, IsWhy};

use lexer::{LexRefusal, TextRefusal, Tokens, no_text_lexes_to_two_lists, tokens};
use std::alloc::Allocator;
use text_resolve::AsmRefusal;
use text_tree::{Text, no_words_are_two_texts, parse};

// The tokens of a text.
fn tokens_of<A: Allocator>(alloc: A, text: &str) -> Result<Tokens<A>, AsmRefusal>
    ensures lexes { IfOk result (λ tokens. Lexes text.now (views text.now tokens.items.items)) }
    ensures spans { IfOk result (λ tokens. SpansRise 0 tokens.items.items (length text.now)) }
    ensures refused { IfErr result (Unless (LexesToNothing text.now)) }
    ensures why { IfErr result (IsWhy text.now) }
{
    match tokens(alloc, text) {
        Ok(tokens) => Ok(tokens),
        Err(LexRefusal::NoMemory) => Err(AsmRefusal::NoMemory),
        Err(refusal) => Err(AsmRefusal::Lex(refusal)),
    }
}

/// The fields of a text. It is refused for another cause than memory only where the text names no module.
pub fn tree_of<'a, A: Allocator + Clone>(
    alloc: &A,
    text: &'a str,
) -> Result<Text<'a, A>, AsmRefusal>
    ensures fields { IfOk result (λ tree. HasFields text.entry.now (fields_of tree)) }
    ensures refused { IfErr result (Unless (NamesNothing text.entry.now)) }
    ensures why { IfErr result (IsWhy text.entry.now) }
{
    no_text_lexes_to_two_lists();
    no_words_are_two_texts();
    let tokens = tokens_of(alloc.clone()?, text)?;
    match parse(alloc, text, &tokens) {
        Ok(tree) => Ok(tree),
        Err(TextRefusal::NoMemory) => Err(AsmRefusal::NoMemory),
        Err(TextRefusal::Unexpected(at)) => Err(AsmRefusal::Unexpected(at)),
    }
}
