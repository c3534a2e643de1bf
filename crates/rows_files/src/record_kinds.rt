//! Fields and records of files.

use crate::put::{put_entries, put_entry, put_hex, put_position, put_receipt, put_written};
use crate::refused::Refused;
use crate::words::{entry_of, first_line, version_of};
use lock_profile::Profile;
use records::{
    Position, append_entry, append_position, append_profile, append_receipt, append_u32,
    append_u64, append_value, read_byte, read_entry, read_front, read_position, read_profile,
    read_receipt, read_tag, read_u32, read_u64, read_value,
};
use rows_books::words::{cut, long, short, text_of};
use spec_ledger::{Outcome, Receipt};
use std::alloc::Global;
use wblock_calls::{PositionLine, ReceiptText, ValueText};

/// A number and what stands behind it.
fn number_text(alloc: Global, number: u64, rest: &[u8]) -> Result<String, Refused> {
    Ok(format!(in alloc; "{number} {rest:?}\n")?)
}

/// The field that bytes begin with, and what stands behind it: the first line says which, `byte`, `u32`, `u64`, `front SIZE` or `tag NUMBER`.
pub(crate) fn field(alloc: Global, input: &[u8]) -> Result<String, Refused> {
    let (line, bytes) = first_line(input)?;
    let (word, number) = cut(line);
    match word {
        "byte" => {
            let (found, rest) = read_byte(bytes)?;
            number_text(alloc, u64::from(found), rest)
        }
        "u32" => {
            let (found, rest) = read_u32(bytes)?;
            number_text(alloc, u64::from(found), rest)
        }
        "u64" => {
            let (found, rest) = read_u64(bytes)?;
            number_text(alloc, found, rest)
        }
        "front" => {
            let (front, rest) = read_front(bytes, short(number)? as usize)?;
            Ok(format!(in alloc; "{front:?} {rest:?}\n")?)
        }
        "tag" => {
            let rest = read_tag(bytes, short(number)?)?;
            Ok(format!(in alloc; "tag {rest:?}\n")?)
        }
        _ => Err(Refused::Line),
    }
}

/// A number of 4 bytes and one of 8 behind it, in hex.
pub(crate) fn numbers(alloc: Global, line: &[u8]) -> Result<String, Refused> {
    let (four, eight) = cut(text_of(line)?);
    let mut written = Vec::new(alloc);
    append_u32(&mut written, short(four)?)?;
    append_u64(&mut written, long(eight)?)?;
    let mut out = String::new(alloc);
    put_hex(alloc, &mut out, "bytes", &written)?;
    Ok(out)
}

/// The value that bytes begin with.
pub(crate) fn value(alloc: Global, bytes: &[u8]) -> Result<String, Refused> {
    let (value, rest) = read_value(bytes)?;
    let mut written = Vec::new(alloc);
    append_value(&mut written, value)?;
    let mut out = String::new(alloc);
    writeln!(out, "{value:?}")?;
    put_written(alloc, &mut out, bytes, rest.len(), &written)?;
    Ok(out)
}

/// The receipt that bytes begin with, behind a line with the version.
pub(crate) fn receipt(alloc: Global, input: &[u8]) -> Result<String, Refused> {
    let (line, bytes) = first_line(input)?;
    let version = version_of(line)?;
    let (receipt, rest) = read_receipt(version, bytes)?;
    let mut written = Vec::new(alloc);
    append_receipt(version, &mut written, receipt)?;
    let mut out = String::new(alloc);
    put_receipt(&mut out, receipt)?;
    put_written(alloc, &mut out, bytes, rest.len(), &written)?;
    Ok(out)
}

/// The text of the receipt that bytes begin with, and the line of it as that of call 0 at position 1, behind a line with the version.
pub(crate) fn receipt_text(alloc: Global, input: &[u8]) -> Result<String, Refused> {
    let (line, bytes) = first_line(input)?;
    let (receipt, _) = read_receipt(version_of(line)?, bytes)?;
    let text = ReceiptText(receipt);
    let line = PositionLine {
        position: 1,
        call: 0,
        receipt,
    };
    Ok(format!(in alloc; "{text}\n{line}\n")?)
}

/// The text of the value that bytes begin with.
pub(crate) fn value_text(alloc: Global, bytes: &[u8]) -> Result<String, Refused> {
    let (value, _) = read_value(bytes)?;
    let text = ValueText(value);
    Ok(format!(in alloc; "{text}\n")?)
}

/// The entry that bytes begin with, behind a line with the entry before it, which is empty where there is none.
pub(crate) fn entry(alloc: Global, input: &[u8]) -> Result<String, Refused> {
    let (line, bytes) = first_line(input)?;
    let before = if line.is_empty() {
        None
    } else {
        Some(entry_of(line)?)
    };
    let (entry, rest) = read_entry(before, bytes)?;
    let mut written = Vec::new(alloc);
    append_entry(&mut written, entry)?;
    let mut out = String::new(alloc);
    put_entry(&mut out, entry)?;
    put_written(alloc, &mut out, bytes, rest.len(), &written)?;
    Ok(out)
}

/// The lock profile that bytes begin with.
pub(crate) fn profile(alloc: Global, bytes: &[u8]) -> Result<String, Refused> {
    let (profile, rest) = read_profile(alloc, bytes)?;
    let entries = profile.entries();
    if entries.len() > 65_535 {
        return Err(Refused::Line);
    }
    let mut written = Vec::new(alloc);
    append_profile(&mut written, &profile)?;
    let mut out = String::new(alloc);
    put_entries(&mut out, entries)?;
    put_written(alloc, &mut out, bytes, rest.len(), &written)?;
    Ok(out)
}

/// The position that bytes begin with, behind a line with the version.
pub(crate) fn position(alloc: Global, input: &[u8]) -> Result<String, Refused> {
    let (line, bytes) = first_line(input)?;
    let version = version_of(line)?;
    let (position, rest) = read_position(version, alloc, bytes)?;
    let mut written = Vec::new(alloc);
    append_position(version, &mut written, &position)?;
    let mut out = String::new(alloc);
    put_position(&mut out, &position)?;
    put_written(alloc, &mut out, bytes, rest.len(), &written)?;
    Ok(out)
}

/// Whether there is a position of a call that was rejected with this code.
pub(crate) fn rejected(alloc: Global, line: &[u8]) -> Result<String, Refused> {
    let Ok(code) = u8::try_from(short(text_of(line)?)?) else {
        return Err(Refused::Line);
    };
    let receipt = Receipt {
        outcome: Outcome::Rejected(code),
        used: 0,
        asks: 0,
    };
    let Some(profile) = Profile::from_sorted(Vec::new(alloc)) else {
        return Err(Refused::Locks);
    };
    let there = Position::new(1, receipt, profile).is_some();
    Ok(format!(in alloc; "{there}\n")?)
}
