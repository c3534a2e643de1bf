use spec_text::TokenKind;
use std::alloc::Allocator;

/// A token and its span, in bytes of the text.
#[derive(Clone, Copy, Debug, PartialEq, Eq)]
pub struct Token {
    /// What it is.
    pub kind: TokenKind,
    /// The place of its first byte.
    pub from: usize,
    /// The place behind its last byte.
    pub upto: usize,
}

/// All tokens of a text, first to last.
#[derive(Drop)]
pub struct Tokens<A: Allocator> {
    /// The tokens. White space and comments are between them.
    pub items: Vec<Token, A>,
}
