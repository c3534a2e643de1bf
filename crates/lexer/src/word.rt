//! Words, which keep names, integers and strings as parts of the text.
use spec_text::{KeyWord, Operator};

/// A part of a text.
#[derive(Clone, Copy, Debug, PartialEq, Eq)]
pub struct Piece<'a> {
    /// The number of bytes before it.
    pub at: usize,
    /// Its bytes.
    pub text: &'a [u8],
}

/// A word: a token with what it stands for.
#[derive(Clone, Copy, Debug, PartialEq, Eq)]
pub enum Word<'a> {
    /// `(`
    LeftBracket,
    /// `)`
    RightBracket,
    /// A word that is no instruction's name.
    Key(KeyWord),
    /// An instruction's name.
    Op(Operator),
    /// `offset=` and the integer behind it.
    OffsetIs(Piece<'a>),
    /// `align=` and the integer behind it.
    AlignIs(Piece<'a>),
    /// A name, with its `$`.
    Id(Piece<'a>),
    /// An integer.
    Number(Piece<'a>),
    /// A string, without its quotes, as it is written.
    Str(Piece<'a>),
}
