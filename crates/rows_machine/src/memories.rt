//! A linear memory, and a copy of it.

use crate::put::put_debug;
use crate::question::{cut, number, short};
use crate::refused::Refused;
use hex::{decode, encode};
use memory::{Linear, PAGE_LIMIT};
use std::alloc::Global;
use std::str::from_utf8;

/// A memory, and the last copy of it.
#[derive(Drop)]
struct Memories<'a> {
    first: Linear<'a, Global>,
    copy: Option<Linear<'a, Global>>,
}

/// Puts what is answered to a store: `AT OFFSET WIDTH NUMBER`.
fn put_stored(
    out: &mut String,
    memory: &mut Linear<'_, Global>,
    rest: &str,
) -> Result<(), Refused> {
    let (at, rest) = cut(rest);
    let (offset, rest) = cut(rest);
    let (width, value) = cut(rest);
    let width = short(width)?;
    if width > 8 {
        return Err(Refused::Line);
    }
    let answer = memory.store(short(at)?, short(offset)?, width, number(value)?);
    put_debug(out, "", &answer)?;
    Ok(())
}

/// Puts what is loaded: `AT OFFSET WIDTH`.
fn put_loaded(out: &mut String, memory: &Linear<'_, Global>, rest: &str) -> Result<(), Refused> {
    let (at, rest) = cut(rest);
    let (offset, width) = cut(rest);
    let width = short(width)?;
    if width > 8 {
        return Err(Refused::Line);
    }
    let answer = memory.load(short(at)?, short(offset)?, width);
    put_debug(out, "", &answer)?;
    Ok(())
}

/// Puts what is answered where a segment is written: `AT`, and the bytes in hex.
fn put_written(
    alloc: Global,
    out: &mut String,
    memory: &mut Linear<'_, Global>,
    rest: &str,
) -> Result<(), Refused> {
    let (at, digits) = cut(rest);
    let Ok(bytes) = decode(alloc, digits) else {
        return Err(Refused::Line);
    };
    let answer = memory.write_all(short(at)?, &bytes);
    put_debug(out, "", &answer)?;
    Ok(())
}

/// Puts so many bytes from an address on, in hex: `FROM COUNT`.
fn put_bytes(
    alloc: Global,
    out: &mut String,
    memory: &Linear<'_, Global>,
    rest: &str,
) -> Result<(), Refused> {
    let (from, count) = cut(rest);
    let from = short(from)? as usize;
    let count = short(count)? as usize;
    let length = memory.len();
    if from > length || count > length - from {
        return Err(Refused::Line);
    }
    let bytes = memory.bytes(alloc, from, count)?;
    let digits = encode(alloc, &bytes)?;
    out.push_str(digits.as_str())?;
    out.push('\n')?;
    Ok(())
}

/// Does what a line says, and puts the answer: `store`, `load`, `write`, `bytes`, `grow PAGES`, `size` in pages, or `length` in bytes.
fn put_answer(
    alloc: Global,
    out: &mut String,
    memory: &mut Linear<'_, Global>,
    line: &str,
) -> Result<(), Refused> {
    let (word, rest) = cut(line);
    match word {
        "store" => put_stored(out, memory, rest),
        "load" => put_loaded(out, memory, rest),
        "write" => put_written(alloc, out, memory, rest),
        "bytes" => put_bytes(alloc, out, memory, rest),
        "grow" => {
            let answer = memory.grow(short(rest)?);
            put_debug(out, "", &answer)?;
            Ok(())
        }
        "size" => {
            put_debug(out, "", &memory.size())?;
            Ok(())
        }
        "length" => {
            put_debug(out, "", &memory.len())?;
            Ok(())
        }
        _ => Err(Refused::Line),
    }
}

/// Does what a line says, to the memory, or to its copy where it begins with `copied`; `copy` makes the copy.
fn put_line(
    alloc: Global,
    out: &mut String,
    memories: &mut Memories<'_>,
    line: &str,
) -> Result<(), Refused> {
    let (word, rest) = cut(line);
    match word {
        "" => Ok(()),
        "copy" => {
            memories.copy = Some(memories.first.copy()?);
            Ok(())
        }
        "copied" => match &mut memories.copy {
            Some(memory) => put_answer(alloc, out, memory, rest),
            None => Err(Refused::Line),
        },
        _ => put_answer(alloc, out, &mut memories.first, line),
    }
}

/// What a memory of so many pages, which may grow to so many, answers to the lines behind the first.
pub(crate) fn answer_to(alloc: Global, input: &[u8]) -> Result<String, Refused> {
    let Ok(text) = from_utf8(input) else {
        return Err(Refused::Line);
    };
    let (line, rest) = text.split_once('\n').unwrap_or((text, ""));
    let (pages, most) = cut(line);
    let pages = short(pages)?;
    let most = short(most)?;
    if pages > most || most > PAGE_LIMIT {
        return Err(Refused::Line);
    }
    let mut memories = Memories {
        first: Linear::new(alloc, pages, most)?,
        copy: None,
    };
    let mut out = String::new(alloc);
    for line in rest.split('\n') {
        put_line(alloc, &mut out, &mut memories, line)?;
    }
    Ok(out)
}
