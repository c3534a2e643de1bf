//! How bytes are compared with those that are wanted.

use crate::wrong::Wrong;
use std::str::from_utf8;

/// How bytes are compared.
#[derive(Clone, Copy)]
pub(crate) enum How {
    /// They are these.
    Is,
    /// They begin with these.
    Front,
    /// They end with these.
    End,
    /// They are a beginning of these that is not all.
    Cut,
    /// They are a text that ends with a newline, with these in it.
    Part,
    /// They are what is said of words that ask for nothing.
    Usage,
    /// There are none: there is no such file.
    Absent,
    /// Whatever they are.
    Any,
}

/// The comparison of this word.
pub(crate) fn how_of(word: &str) -> Result<How, Wrong> {
    match word {
        "is" => Ok(How::Is),
        "front" => Ok(How::Front),
        "end" => Ok(How::End),
        "cut" => Ok(How::Cut),
        "part" => Ok(How::Part),
        "usage" => Ok(How::Usage),
        "absent" => Ok(How::Absent),
        "any" => Ok(How::Any),
        _ => Err(Wrong::How),
    }
}

/// The word of a comparison.
pub(crate) fn word_of(how: How) -> &'static str {
    match how {
        How::Is => "is",
        How::Front => "front",
        How::End => "end",
        How::Cut => "cut",
        How::Part => "part",
        How::Usage => "usage",
        How::Absent => "absent",
        How::Any => "any",
    }
}

/// Whether a comparison is with bytes.
pub(crate) fn takes_bytes(how: How) -> bool {
    matches!(how, How::Is | How::Front | How::End | How::Cut | How::Part)
}

/// Whether bytes are a text that ends with a newline, with these in it.
fn has_part(bytes: &[u8], part: &[u8]) -> bool {
    match (from_utf8(bytes), from_utf8(part)) {
        (Ok(text), Ok(part)) => text.ends_with('\n') && text.contains(part),
        _ => false,
    }
}

/// Whether bytes are as is wanted.
pub(crate) fn fits(bytes: &[u8], how: How, wanted: &[u8]) -> bool {
    match how {
        How::Is => bytes == wanted,
        How::Front => bytes.starts_with(wanted),
        How::End => bytes.ends_with(wanted),
        How::Cut => wanted.starts_with(bytes) && bytes.len() < wanted.len(),
        How::Part => has_part(bytes, wanted),
        How::Usage => bytes.starts_with(b"error: ") || bytes.starts_with(b"usage: "),
        How::Absent => false,
        How::Any => true,
    }
}
