//! Files in memory: what each call on them answers.

use byte_sinks::Failures;
use rows_script::cut;
use std::alloc::Global;
use std::str::from_utf8;
use wblock_io::{Files, MemoryFiles, write_file};

/// Puts what is answered to a call that writes.
fn put_written(
    out: &mut String,
    files: &mut MemoryFiles,
    word: &str,
    name: &str,
    text: &str,
) -> Option<()> {
    match word {
        "start" => {
            let answer = files.start(name);
            writeln!(out, "{answer:?}").ok()
        }
        "put" => {
            let answer = files.put_some(name, text.as_bytes());
            writeln!(out, "{answer:?}").ok()
        }
        "keep" => {
            let answer = files.keep(name);
            writeln!(out, "{answer:?}").ok()
        }
        "write" => {
            let answer = write_file(files, name, text.as_bytes());
            writeln!(out, "{answer:?}").ok()
        }
        _ => None,
    }
}

/// Puts what a file holds, as a text.
fn put_held(alloc: Global, out: &mut String, files: &MemoryFiles, name: &str) -> Option<()> {
    match files.bytes_of(alloc, name).ok()? {
        Some(bytes) => {
            let text = from_utf8(&bytes).ok()?;
            writeln!(out, "{text:?}").ok()
        }
        None => writeln!(out, "absent").ok(),
    }
}

/// Puts what is read of a file, as a text, or why it is not read.
fn put_read(alloc: Global, out: &mut String, files: &mut MemoryFiles, name: &str) -> Option<()> {
    match files.read_all(alloc, name) {
        Ok(bytes) => {
            let text = from_utf8(&bytes).ok()?;
            writeln!(out, "{text:?}").ok()
        }
        Err(fault) => writeln!(out, "{fault:?}").ok(),
    }
}

/// Does what a line says, and puts the answer: `hold NAME TEXT`, `start NAME`, `put NAME TEXT`, `keep NAME`, `abandon`, `write NAME TEXT`, `there NAME`,
/// `read NAME` or `holds NAME`.
fn put_answer(alloc: Global, out: &mut String, files: &mut MemoryFiles, line: &str) -> Option<()> {
    let (word, rest) = cut(line);
    let (name, text) = cut(rest);
    if word == "hold" {
        return files.hold(name, text.as_bytes()).ok();
    }
    write!(out, "{line}: ").ok()?;
    match word {
        "there" => {
            let there = files.is_there(name);
            writeln!(out, "{there}").ok()
        }
        "abandon" => {
            files.abandon();
            writeln!(out, "done").ok()
        }
        "read" => put_read(alloc, out, files, name),
        "holds" => put_held(alloc, out, files, name),
        _ => put_written(out, files, word, name, text),
    }
}

/// After how many calls one fails: none where nothing is said.
fn failures_of(word: &str) -> Option<Failures> {
    if word.is_empty() {
        Some(Failures::none())
    } else {
        Some(Failures::after(word.parse::<u64>().ok()?))
    }
}

/// What files answer to the lines behind the first, which says how many bytes they take at a time, and after how many calls one fails; None where a line is
/// none of these, or memory is refused.
fn answers(alloc: Global, text: &str) -> Option<String> {
    let (line, rest) = text.split_once('\n')?;
    let (piece, fails) = cut(line);
    let piece = piece.parse::<u32>().ok()?;
    let mut files = MemoryFiles::new(alloc, piece as usize, failures_of(fails)?);
    let mut out = String::new(alloc);
    for line in rest.split('\n') {
        if !line.is_empty() {
            put_answer(alloc, &mut out, &mut files, line)?;
        }
    }
    Some(out)
}

/// What files in memory answer to calls; None where there is no such kind, or memory is refused.
pub(crate) fn answer(alloc: Global, kind: &str, input: &[u8]) -> Option<String> {
    match kind {
        "memory_files" => answers(alloc, from_utf8(input).ok()?),
        _ => None,
    }
}
