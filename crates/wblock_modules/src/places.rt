//! Where a text is at fault that is not UTF-8.

use lexer::{LexRefusal, tokens};
use std::alloc::{AllocError, Global};
use std::str::from_utf8;

/// The text of the bytes up to `upto`; none where they are not UTF-8. It is for people to read, and no clause speaks of it.
pub fn front_of(bytes: &[u8], upto: usize) -> &str {
    if bytes.len() < upto {
        return "";
    }
    match from_utf8(&bytes[..upto]) {
        Ok(front) => front,
        Err(_) => "",
    }
}

/// The place of the first fault of bytes that begin with this text and are UTF-8 no further: where an earlier token is at
/// fault, or where the string begins in which they stop; else behind the text. It is for people to read, and no clause speaks of it.
pub fn place_of_fault(alloc: Global, front: &str) -> Result<usize, AllocError> {
    let mut text = String::from_str(alloc, front)?;
    // As the byte at fault, a control character may stand in no token.
    text.push('\u{1}')?;
    match tokens(alloc, text.as_str()) {
        Err(LexRefusal::BadToken(at)) => Ok(at),
        Err(LexRefusal::NoMemory) => Err(AllocError),
        _ => Ok(front.len()),
    }
}
