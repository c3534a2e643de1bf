//! Words of lines.

use crate::refused::Refused;
use lock_profile::Held;
use rows_books::words::{cut, lock_of, mode_of, short, text_of};
use spec_ledger::{Entry, Version};

/// The first line of bytes, and what stands behind it.
pub fn first_line(bytes: &[u8]) -> Result<(&str, &[u8]), Refused> {
    for (place, byte) in bytes.iter().enumerate() {
        if *byte == b'\n' {
            let (line, behind) = bytes.split_at(place);
            return Ok((text_of(line)?, behind.get(1..).unwrap_or(behind)));
        }
    }
    Err(Refused::Line)
}

/// The lines before an empty one, and what stands behind it.
pub fn lines_before(bytes: &[u8]) -> Result<(&[u8], &[u8]), Refused> {
    let mut before = b'\n';
    for (place, byte) in bytes.iter().enumerate() {
        if *byte == b'\n' && before == b'\n' {
            let (lines, behind) = bytes.split_at(place);
            return Ok((lines, behind.get(1..).unwrap_or(behind)));
        }
        before = *byte;
    }
    Err(Refused::Line)
}

/// A version of blocks.
pub fn version_of(word: &str) -> Result<Version, Refused> {
    match word {
        "1" => Ok(Version::One),
        "2" => Ok(Version::Two),
        _ => Err(Refused::Line),
    }
}

/// A lock that is held: `KIND CONTRACT:KEY MODE`.
pub fn held_of(line: &str) -> Result<Held, Refused> {
    let (lock, mode) = lock_of(line)?;
    Ok(Held {
        lock,
        mode: mode_of(mode)?,
    })
}

/// An entry of a lock profile: `KIND CONTRACT:KEY MODE TURN`.
pub fn entry_of(line: &str) -> Result<Entry, Refused> {
    let (lock, rest) = lock_of(line)?;
    let (mode, turn) = cut(rest);
    Ok(Entry {
        lock,
        mode: mode_of(mode)?,
        turn: short(turn)?,
    })
}
