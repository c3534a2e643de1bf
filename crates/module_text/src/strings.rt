//! Strings between quotes (Core Specification, 6.3.3 Strings). All of them is ASCII.

use crate::page::Page;
use crate::refusal::TextRefusal;

/// The most bytes of a string in one line.
const ROW: usize = 64;

/// A digit of 16, as a character.
fn digit(number: u8) -> u8 {
    match number {
        0..=9 => b'0' + number,
        10..=15 => b'a' + (number - 10),
        _ => b'0',
    }
}

/// A byte of a string.
fn put_byte(page: &mut Page<'_>, byte: u8) -> Result<(), TextRefusal> {
    match byte {
        b'"' => page.put("\\\""),
        b'\\' => page.put("\\\\"),
        0x20..=0x7E => page.put_ascii(byte),
        _ => {
            page.put("\\")?;
            page.put_ascii(digit(byte / 16))?;
            page.put_ascii(digit(byte % 16))
        }
    }
}

/// A name between quotes.
pub(crate) fn put_name(page: &mut Page<'_>, name: &str) -> Result<(), TextRefusal> {
    page.put("\"")?;
    for byte in name.bytes() {
        put_byte(page, byte)?;
    }
    page.put("\"")
}

/// Bytes between quotes, in lines at this depth.
pub(crate) fn put_rows(page: &mut Page<'_>, depth: usize, bytes: &[u8]) -> Result<(), TextRefusal> {
    for (place, byte) in bytes.iter().enumerate() {
        if place % ROW == 0 {
            if place > 0 {
                page.put("\"")?;
            }
            page.next_line(depth)?;
            page.put("\"")?;
        }
        put_byte(page, *byte)?;
    }
    if bytes.is_empty() {
        return Ok(());
    }
    page.put("\"")
}
