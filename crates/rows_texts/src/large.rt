//! Large modules. A check whose time grows with the square of the length takes longer than the rows may.

use crate::refused::Refused;
use crate::verdict::verdict_text;
use leb::write_u32;
use std::alloc::{AllocError, Global};

/// Puts a section of this number and content behind the bytes.
fn put_section(bytes: &mut Vec<u8>, id: u8, content: &[u8]) -> Result<(), AllocError> {
    bytes.push(id)?;
    write_u32(bytes, u32::try_from(content.len()).unwrap_or(u32::MAX))?;
    bytes.extend_from_slice(content)
}

/// Puts an export of memory 0 whose name has three bytes.
fn put_export(exports: &mut Vec<u8>, name: &[u8]) -> Result<(), AllocError> {
    exports.push(3)?;
    exports.extend_from_slice(name)?;
    exports.extend_from_slice(b"\x02\x00")
}

/// The verdict on a module of one memory that is exported 100,000 times, each time under three bytes of its own, and the last time under this name.
pub(crate) fn many_exports(alloc: Global, last: &[u8]) -> Result<String, Refused> {
    let mut exports = Vec::new(alloc);
    write_u32(&mut exports, 100_000)?;
    for number in 0..99_999u32 {
        let first = b'0' + (number / 2500) as u8;
        let second = b'0' + (number / 50 % 50) as u8;
        let third = b'0' + (number % 50) as u8;
        put_export(&mut exports, &[first, second, third])?;
    }
    put_export(&mut exports, last)?;
    let mut bytes = b"\0asm\x01\0\0\0".to_vec(alloc)?;
    put_section(&mut bytes, 5, b"\x01\x00\x01")?;
    put_section(&mut bytes, 7, &exports)?;
    verdict_text(alloc, &bytes)
}
