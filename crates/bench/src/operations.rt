//! How long a book's operations take over cells of few and of many keys.

use crate::book_load::{Load, OPERATIONS};
use crate::book_work::commit_calls;
use crate::refusals::no_memory;
use std::alloc::Global;
use std::io;
use std::time::{Clock, Instant};

/// The line of the time that one operation takes.
pub fn measure<R: Clock>(rt: &R, alloc: Global, words: &[String]) -> io::Result<Option<String>> {
    let Some(load) = Load::of_words(words) else {
        return Ok(None);
    };
    let Ok(mut book) = load.opened(alloc) else {
        return Err(no_memory());
    };
    let start = Instant::now(rt)?;
    if commit_calls(&mut book, alloc, load).is_err() {
        return Err(no_memory());
    }
    let time = start.elapsed(rt)?;
    let keys = load.keys;
    let nanoseconds = time.as_nanos() / u128::from(OPERATIONS);
    Ok(Some(format!(in alloc; "keys {keys} operation {nanoseconds} ns")?))
}
