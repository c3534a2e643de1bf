//! How fast a module is loaded from its bytes, and encoded.
use crate::files::read_file;
use crate::rates::kilobytes_a_second;
use crate::refusals::refused;
use encoder::encode;
use loader::load;
use std::alloc::Global;
use std::io;
use std::time::{Clock, Instant};

/// The line of the rates at which a module is loaded and encoded, in kilobytes a second.
fn line_of<R: Clock>(rt: &R, alloc: Global, bytes: &[u8]) -> io::Result<String> {
    let start = Instant::now(rt)?;
    let Ok(module) = load(alloc, bytes) else {
        return Err(refused());
    };
    let loading = start.elapsed(rt)?;
    let mut spelled = Vec::new(alloc);
    let start = Instant::now(rt)?;
    if encode(&module, &mut spelled).is_err() {
        return Err(refused());
    }
    let encoding = start.elapsed(rt)?;
    let size = bytes.len();
    let load_rate = kilobytes_a_second(bytes.len(), loading);
    let encode_rate = kilobytes_a_second(spelled.len(), encoding);
    Ok(format!(in alloc; "{size} bytes load {load_rate} kB/s encode {encode_rate} kB/s")?)
}

/// The line of the module in the file that the word names.
pub fn measure<R: Clock + std::rt::Files>(
    rt: &R,
    alloc: Global,
    words: &[String],
) -> io::Result<Option<String>> {
    let [name] = words else {
        return Ok(None);
    };
    let bytes = read_file(rt, alloc, name.as_str())?;
    Ok(Some(line_of(rt, alloc, &bytes)?))
}
