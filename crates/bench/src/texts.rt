//! How long a text takes to be assembled.
use crate::files::read_file;
use crate::refusals::refused;
use assembler::assemble;
use std::alloc::Global;
use std::io;
use std::time::{Clock, Instant};

/// The line of the time that a text takes to be assembled, in milliseconds.
fn line_of<R: Clock>(rt: &R, alloc: Global, bytes: &[u8]) -> io::Result<String> {
    let Ok(text) = std::str::from_utf8(bytes) else {
        return Err(refused());
    };
    let start = Instant::now(rt)?;
    let Ok(module) = assemble(alloc, text) else {
        return Err(refused());
    };
    let time = start.elapsed(rt)?.as_millis();
    let size = text.len();
    let functions = module.funcs.len();
    Ok(format!(in alloc; "{size} bytes {functions} functions assembled in {time} ms")?)
}

/// The line of the text in the file that the word names.
pub fn measure<R: Clock + std::rt::Files>(
    rt: &R,
    alloc: Global,
    words: &[String],
) -> io::Result<Option<String>> {
    let [name] = words else {
        return Ok(None);
    };
    let bytes = read_file(rt, alloc, name.as_str())?;
    Ok(Some(line_of(rt, alloc, &bytes)?))
}
