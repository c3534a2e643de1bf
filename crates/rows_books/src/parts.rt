//! The shards of a book: where a lock is at home, what part of a trace a shard has, and the shards put together.

use crate::acts::{Did, did_of};
use crate::put::put_closed;
use crate::refused::Refused;
use crate::words::{cut, lock_of, put_cell, short, steps_of, text_of};
use boost::book::{Book, Closed};
use sharding::{Part, close};
use spec_ledger::TraceStep;
use std::alloc::Global;
use storage::Cells;

/// The shard of a lock, by how many there are: `KIND CONTRACT:KEY SHARDS`.
pub(crate) fn home(alloc: Global, line: &[u8]) -> Result<String, Refused> {
    let (lock, shards) = lock_of(text_of(line)?)?;
    let shards = short(shards)?;
    if shards == 0 {
        return Err(Refused::Line);
    }
    let home = sharding::home(lock, shards);
    Ok(format!(in alloc; "{home}\n")?)
}

/// Whether steps are a shard's part of a trace: a line with the shard and how many there are, one with the steps, and one with the trace.
pub(crate) fn is_part(alloc: Global, lines: &[u8]) -> Result<String, Refused> {
    let (line, rest) = text_of(lines)?.split_once('\n').unwrap_or(("", ""));
    let (own, trace) = rest.split_once('\n').unwrap_or(("", ""));
    let (shard, shards) = cut(line);
    let shards = short(shards)?;
    if shards == 0 {
        return Err(Refused::Line);
    }
    let own = steps_of(alloc, own)?;
    let trace = steps_of(alloc, trace.trim_end())?;
    let is = sharding::is_part(&own, &trace, short(shard)?, shards);
    Ok(format!(in alloc; "{is}\n")?)
}

/// Does again in a book what a call did, and commits it.
fn commit(book: &mut Book, call: u32, did: &Did) -> Result<(), Refused> {
    let Ok(ticket) = book.begin(call) else {
        return Err(Refused::Line);
    };
    for step in &did.trace {
        let TraceStep::Did(op, reply) = *step else {
            return Err(Refused::Line);
        };
        if book.op(&ticket, op) != Ok(reply) {
            return Err(Refused::Line);
        }
    }
    match book.end(ticket, did.outcome) {
        Ok(_) => Ok(()),
        Err(_) => Err(Refused::Line),
    }
}

/// The cells of lines.
fn cells_of(alloc: Global, lines: &str) -> Result<Cells, Refused> {
    let mut cells = Cells::new(alloc);
    for line in lines.split('\n') {
        let (word, rest) = cut(line);
        if word == "cell" {
            put_cell(&mut cells, rest)?;
        }
    }
    Ok(cells)
}

/// A book of three calls: `cell KIND CONTRACT:KEY NUMBER`, and `call NUMBER OUTCOME STEPS` for each that is committed.
fn book_of(alloc: Global, lines: &str) -> Result<Book, Refused> {
    let mut book = Book::open(alloc, cells_of(alloc, lines)?, 3)?;
    for line in lines.split('\n') {
        let (word, rest) = cut(line);
        match word {
            "" | "cell" => (),
            "call" => {
                let (call, did) = cut(rest);
                commit(&mut book, short(call)?, &did_of(alloc, did)?)?;
            }
            _ => return Err(Refused::Line),
        }
    }
    Ok(book)
}

/// The shards of lines, each behind a line `sharding`.
fn parts_of(alloc: Global, lines: &str) -> Result<Vec<Part>, Refused> {
    let mut parts = Vec::new(alloc);
    for lines in lines.split("shard\n").skip(1) {
        parts.push(Part::of(book_of(alloc, lines)?))?;
    }
    Ok(parts)
}

/// What the shards behind the lines of a journal are, put together: one book, or that they differ.
pub(crate) fn put_together(alloc: Global, lines: &[u8]) -> Result<String, Refused> {
    let text = text_of(lines)?;
    let (journal, _) = text.split_once("shard\n").unwrap_or((text, ""));
    let Closed {
        opening,
        cells: _,
        entries,
    } = book_of(alloc, journal)?.close();
    let parts = parts_of(alloc, text)?;
    if parts.is_empty() || parts.len() > 16 {
        return Err(Refused::Line);
    }
    let mut out = String::new(alloc);
    match close(alloc, opening, entries, &parts) {
        Ok(closed) => put_closed(&mut out, &closed, &[])?,
        Err(refusal) => writeln!(out, "{refusal:?}")?,
    }
    Ok(out)
}
