//! Bytes that are cut short, and bytes of which one is another.

use crate::files::block_bytes;
use crate::read;
use crate::refused::Refused;
use crate::words::first_line;
use block::read_block;
use rows_books::words::{cut, short};
use std::alloc::Global;
use world::{encode_world, read_world};

/// What is asked of bytes: a line with a parameter before them, where there is one.
fn question(alloc: Global, parameter: &str, bytes: &[u8]) -> Result<Vec<u8>, Refused> {
    let mut input = Vec::new(alloc);
    if !parameter.is_empty() {
        input.extend_from_slice(parameter.as_bytes())?;
        input.extend_from_slice(b"\n")?;
    }
    input.extend_from_slice(bytes)?;
    Ok(input)
}

/// Why bytes are refused; none where they are read.
fn refusal(
    alloc: Global,
    kind: &str,
    parameter: &str,
    bytes: &[u8],
) -> Result<Option<Refused>, Refused> {
    match read(alloc, kind, &question(alloc, parameter, bytes)?) {
        Some(Ok(_)) => Ok(None),
        Some(Err(refusal)) => {
            if refusal.is_of_memory() {
                Err(refusal)
            } else {
                Ok(Some(refusal))
            }
        }
        None => Err(Refused::Line),
    }
}

/// Puts the answer to a front of this size where it is another than that to the one before, and keeps it.
fn put_front(
    alloc: Global,
    out: &mut String,
    before: &mut String,
    size: usize,
    answer: Option<Refused>,
) -> Result<(), Refused> {
    let answer = match answer {
        Some(refusal) => format!(in alloc; "{refusal:?}")?,
        None => format!(in alloc; "read")?,
    };
    if answer.as_str() != before.as_str() {
        writeln!(out, "from {size} {}", answer.as_str())?;
        *before = answer;
    }
    Ok(())
}

/// What is answered to each front of bytes that is not all of them, from the size on from which the answer is another; and how many there are, and how
/// many of them are refused. The first line has the kind of what is read, and its parameter where it has one.
pub(crate) fn fronts(alloc: Global, input: &[u8]) -> Result<String, Refused> {
    let (line, bytes) = first_line(input)?;
    let (kind, parameter) = cut(line);
    let mut out = String::new(alloc);
    let mut before = String::new(alloc);
    let mut refused = 0usize;
    for (size, _) in bytes.iter().enumerate() {
        let answer = refusal(alloc, kind, parameter, bytes.get(..size).unwrap_or(bytes))?;
        if answer.is_some() {
            refused = refused.saturating_add(1);
        }
        put_front(alloc, &mut out, &mut before, size, answer)?;
    }
    writeln!(out, "refused {refused} of {}", bytes.len())?;
    Ok(out)
}

/// Whether bytes are written as they are read.
fn is_again(alloc: Global, kind: &str, bytes: &[u8]) -> Result<bool, Refused> {
    match kind {
        "block" => {
            let block = read_block(alloc, bytes)?;
            Ok(block_bytes(alloc, &block)?.as_deref() == Some(bytes))
        }
        "world" => {
            let world = read_world(alloc, bytes)?;
            Ok(encode_world(alloc, &world)?.as_slice() == bytes)
        }
        _ => Err(Refused::Line),
    }
}

/// How many changes were answered so.
#[derive(Clone, Copy)]
struct Counts {
    read: u64,
    refused: u64,
    otherwise: u64,
}

/// Counts the answer to a change.
fn count(counts: &mut Counts, answer: Result<bool, Refused>) -> Result<(), Refused> {
    match answer {
        Ok(true) => counts.read = counts.read.saturating_add(1),
        Ok(false) => counts.otherwise = counts.otherwise.saturating_add(1),
        Err(refusal) => {
            if refusal.is_of_memory() {
                return Err(refusal);
            }
            counts.refused = counts.refused.saturating_add(1);
        }
    }
    Ok(())
}

/// Flips these bits of the byte at a place.
fn flip(bytes: &mut Vec<u8>, place: usize, bits: u8) {
    if let Some(byte) = bytes.get_mut(place) {
        *byte ^= bits;
    }
}

/// Counts the answers to changes of these bits in each byte.
fn count_all(
    alloc: Global,
    counts: &mut Counts,
    kind: &str,
    bytes: &mut Vec<u8>,
    bits: u8,
) -> Result<(), Refused> {
    for place in 0..bytes.len() {
        flip(bytes, place, bits);
        count(counts, is_again(alloc, kind, bytes))?;
        flip(bytes, place, bits);
    }
    Ok(())
}

/// How many changes of one byte are read and written again as the same, how many are refused, and how many are written as others. The first line has
/// `block` or `world`, and which bits are flipped, a number for each change.
pub(crate) fn changes(alloc: Global, input: &[u8]) -> Result<String, Refused> {
    let (line, bytes) = first_line(input)?;
    let (kind, flips) = cut(line);
    let mut bytes = bytes.to_vec(alloc)?;
    let mut counts = Counts {
        read: 0,
        refused: 0,
        otherwise: 0,
    };
    for word in flips.split(' ') {
        match u8::try_from(short(word)?) {
            Ok(bits) => count_all(alloc, &mut counts, kind, &mut bytes, bits)?,
            Err(_) => return Err(Refused::Line),
        }
    }
    let Counts {
        read,
        refused,
        otherwise,
    } = counts;
    let all = read.saturating_add(refused).saturating_add(otherwise);
    Ok(format!(in alloc; "of {all} otherwise {otherwise}\nread {read} refused {refused}\n")?)
}
