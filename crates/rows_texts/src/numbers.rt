//! Numbers in LEB128.

use crate::refused::Refused;
use leb::{read_s32, read_s64, read_u32, write_s32, write_s64, write_u32};
use std::alloc::Global;
use std::str::from_utf8;

/// The first line of bytes, and what stands behind it.
pub(crate) fn first_line(bytes: &[u8]) -> Result<(&str, &[u8]), Refused> {
    for (place, byte) in bytes.iter().enumerate() {
        if *byte == b'\n' {
            let (line, behind) = bytes.split_at(place);
            return match from_utf8(line) {
                Ok(line) => Ok((line, behind.get(1..).unwrap_or(behind))),
                Err(_) => Err(Refused::Line),
            };
        }
    }
    Err(Refused::Line)
}

/// What is read at a place, and the place behind it: the first line has the kind of number and the place, and the bytes are behind it.
pub(crate) fn number_at(alloc: Global, input: &[u8]) -> Result<String, Refused> {
    let (line, bytes) = first_line(input)?;
    let (kind, place) = line.split_once(' ').unwrap_or((line, ""));
    let Ok(at) = place.parse::<usize>() else {
        return Err(Refused::Line);
    };
    let found = match kind {
        "u32" => {
            let read = read_u32(bytes, at);
            format!(in alloc; "{read:?}\n")?
        }
        "s32" => {
            let read = read_s32(bytes, at);
            format!(in alloc; "{read:?}\n")?
        }
        "s64" => {
            let read = read_s64(bytes, at);
            format!(in alloc; "{read:?}\n")?
        }
        _ => return Err(Refused::Line),
    };
    Ok(found)
}

/// Puts the spelling of a number of this kind.
fn put_number(out: &mut Vec<u8>, kind: &str, digits: &str) -> Result<(), Refused> {
    let Ok(number) = digits.parse::<i64>() else {
        return Err(Refused::Line);
    };
    match kind {
        "u32" => match u32::try_from(number) {
            Ok(number) => write_u32(out, number)?,
            Err(_) => return Err(Refused::Line),
        },
        "s32" => match i32::try_from(number) {
            Ok(number) => write_s32(out, number)?,
            Err(_) => return Err(Refused::Line),
        },
        "s64" => write_s64(out, number)?,
        _ => return Err(Refused::Line),
    }
    Ok(())
}

/// The spelling of the numbers of a line one after another, each with its kind and a colon before it, in hex.
pub(crate) fn spelled(alloc: Global, input: &[u8]) -> Result<String, Refused> {
    let Ok(line) = from_utf8(input) else {
        return Err(Refused::Line);
    };
    let mut bytes = Vec::new(alloc);
    for word in line.split(' ') {
        let (kind, digits) = word.split_once(':').unwrap_or((word, ""));
        put_number(&mut bytes, kind, digits)?;
    }
    let digits = hex::encode(alloc, &bytes)?;
    let digits = digits.as_str();
    Ok(format!(in alloc; "{digits}\n")?)
}
