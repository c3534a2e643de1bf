//! Bytes in pieces, a line each.

use crate::wrong::Wrong;
use hex::decode;
use std::alloc::Global;
use wblock_io::MemoryFiles;

/// Bytes by name.
#[derive(Drop)]
pub(crate) struct Kept {
    pub(crate) name: String,
    pub(crate) bytes: Vec<u8>,
}

/// What pieces speak of.
#[derive(Clone, Copy)]
pub(crate) struct Sources<'a> {
    /// The bytes that have names.
    pub(crate) names: &'a [Kept],
    /// The files of the row.
    pub(crate) files: &'a MemoryFiles,
    /// What the step before put on the standard error.
    pub(crate) again: &'a [u8],
}

/// The first word of a line, and what stands behind the space after it.
pub fn cut(line: &str) -> (&str, &str) {
    line.split_once(' ').unwrap_or((line, ""))
}

/// A number.
pub(crate) fn number_of(word: &str) -> Result<u64, Wrong> {
    match word.parse::<u64>() {
        Ok(number) => Ok(number),
        Err(_) => Err(Wrong::Number),
    }
}

/// Whether a line that begins with this word is a piece.
pub(crate) fn is_piece(word: &str) -> bool {
    matches!(
        word,
        "text"
            | "line"
            | "hex"
            | "of"
            | "changed"
            | "cutoff"
            | "slice"
            | "held"
            | "size"
            | "again"
            | "times"
    )
}

/// The bytes of this name, if there are any.
pub(crate) fn find<'a>(names: &'a [Kept], name: &str) -> Option<&'a [u8]> {
    for it in names {
        if it.name.as_str() == name {
            return Some(it.bytes.as_slice());
        }
    }
    None
}

/// The bytes of this name.
fn named<'a>(names: &'a [Kept], name: &str) -> Result<&'a [u8], Wrong> {
    match find(names, name) {
        Some(bytes) => Ok(bytes),
        None => Err(Wrong::Name),
    }
}

/// Puts the bytes that hex digits spell, with single spaces between some, behind these.
fn put_hex(alloc: Global, value: &mut Vec<u8>, digits: &str) -> Result<(), Wrong> {
    for part in digits.split(' ') {
        let Ok(bytes) = decode(alloc, part) else {
            return Err(Wrong::Hex);
        };
        value.extend_from_slice(&bytes)?;
    }
    Ok(())
}

/// Puts a text and the end of its line behind these bytes.
fn put_line(value: &mut Vec<u8>, text: &str) -> Result<(), Wrong> {
    value.extend_from_slice(text.as_bytes())?;
    value.extend_from_slice(b"\n")?;
    Ok(())
}

/// Puts other bytes at this place of these.
fn put_at(value: &mut Vec<u8>, place: u64, bytes: &[u8]) -> Result<(), Wrong> {
    let mut at = place;
    for byte in bytes {
        let Some(there) = value.get_mut(at as usize) else {
            return Err(Wrong::Place);
        };
        *there = *byte;
        at = at.saturating_add(1);
    }
    Ok(())
}

/// Bytes that have a name, with others at some places: a name, and places with the hex digits of what stands there.
fn changed(alloc: Global, names: &[Kept], rest: &str) -> Result<Vec<u8>, Wrong> {
    let (name, changes) = cut(rest);
    let mut bytes = named(names, name)?.to_vec(alloc)?;
    let mut place: Option<u64> = None;
    for word in changes.split(' ') {
        match place {
            None => place = Some(number_of(word)?),
            Some(at) => {
                let Ok(other) = decode(alloc, word) else {
                    return Err(Wrong::Hex);
                };
                put_at(&mut bytes, at, &other)?;
                place = None;
            }
        }
    }
    match place {
        None => Ok(bytes),
        Some(_) => Err(Wrong::Hex),
    }
}

/// The first bytes of those that have a name: a name and how many.
fn front<'a>(names: &'a [Kept], rest: &str) -> Result<&'a [u8], Wrong> {
    let (name, count) = cut(rest);
    let bytes = named(names, name)?;
    let count = number_of(count)?;
    match bytes.get(..count as usize) {
        Some(front) => Ok(front),
        None => Err(Wrong::Place),
    }
}

/// Some of the bytes that have a name: a name, the place of the first one, and the place behind the last one.
fn slice<'a>(names: &'a [Kept], rest: &str) -> Result<&'a [u8], Wrong> {
    let (name, places) = cut(rest);
    let bytes = named(names, name)?;
    let (from, to) = cut(places);
    let from = number_of(from)?;
    let to = number_of(to)?;
    match bytes.get(from as usize..to as usize) {
        Some(slice) => Ok(slice),
        None => Err(Wrong::Place),
    }
}

/// The bytes that a file holds.
fn held(alloc: Global, files: &MemoryFiles, name: &str) -> Result<Vec<u8>, Wrong> {
    match files.bytes_of(alloc, name)? {
        Some(bytes) => Ok(bytes),
        None => Err(Wrong::File),
    }
}

/// Puts how many bytes a file holds behind these, in decimal digits.
fn put_size(
    alloc: Global,
    files: &MemoryFiles,
    value: &mut Vec<u8>,
    name: &str,
) -> Result<(), Wrong> {
    let bytes = held(alloc, files, name)?;
    let size = format!(in alloc; "{}", bytes.len())?;
    value.extend_from_slice(size.as_bytes())?;
    Ok(())
}

/// Puts one piece behind these bytes.
fn put_once(
    alloc: Global,
    sources: Sources,
    value: &mut Vec<u8>,
    word: &str,
    rest: &str,
) -> Result<(), Wrong> {
    match word {
        "text" => value.extend_from_slice(rest.as_bytes())?,
        "line" => put_line(value, rest)?,
        "hex" => put_hex(alloc, value, rest)?,
        "of" => value.extend_from_slice(named(sources.names, rest)?)?,
        "changed" => value.extend_from_slice(&changed(alloc, sources.names, rest)?)?,
        "cutoff" => value.extend_from_slice(front(sources.names, rest)?)?,
        "slice" => value.extend_from_slice(slice(sources.names, rest)?)?,
        "held" => value.extend_from_slice(&held(alloc, sources.files, rest)?)?,
        "size" => put_size(alloc, sources.files, value, rest)?,
        "again" => value.extend_from_slice(sources.again)?,
        _ => return Err(Wrong::Piece),
    }
    Ok(())
}

/// Puts a piece behind these bytes, as often as it says.
pub(crate) fn put_piece(
    alloc: Global,
    sources: Sources,
    value: &mut Vec<u8>,
    word: &str,
    rest: &str,
) -> Result<(), Wrong> {
    if word != "times" {
        return put_once(alloc, sources, value, word, rest);
    }
    let (times, piece) = cut(rest);
    let times = number_of(times)?;
    let (word, rest) = cut(piece);
    for _ in 0..times {
        put_once(alloc, sources, value, word, rest)?;
    }
    Ok(())
}
