//! Where the reader stands within a string or a comment.

/// What is wrong at a place of the text.
#[derive(Clone, Copy, Debug, PartialEq, Eq)]
pub enum Fault {
    /// No token, white space or comment begins here.
    Bad,
    /// A string or a block comment begins here, and the text ends within it.
    Unclosed,
}

/// Where the reader stands within a string (Core Specification, 6.3.3 Strings).
#[derive(Clone, Copy, Debug, PartialEq, Eq)]
pub enum InString {
    /// Between two characters.
    Plain,
    /// Behind a backslash.
    Slash,
    /// Behind the first digit of `\hh`.
    Second,
    /// Behind `\u`.
    Brace,
    /// Behind `\u{`.
    First,
    /// Behind digits of `\u{..}`, with their number; a number above all scalar values is held at the first of those.
    Digits(u32),
}

/// What the next byte of a string does.
#[derive(Clone, Copy, Debug, PartialEq, Eq)]
pub enum Step {
    /// It leads on to this place.
    Go(InString),
    /// It ends the string.
    End,
    /// It may not stand here.
    Wrong,
}

/// What stands at the front of the rest of a block comment (Core Specification, 6.2.4 Comments).
#[derive(Clone, Copy, Debug, PartialEq, Eq)]
pub enum Mark {
    /// `;)`
    Ends,
    /// `(;`
    Begins,
    /// A byte that begins neither.
    Other,
}
