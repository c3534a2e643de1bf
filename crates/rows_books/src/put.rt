//! Texts of what is found.

use crate::refused::Refused;
use boost::attempt::CommittedCall;
use boost::book::Closed;
use spec_ledger::{CellKey, Lock, Op, Reply, TraceStep};
use std::alloc::AllocError;
use std::fmt::Debug;
use storage::Cells;

/// Puts a line: an answer, as its `Debug` tells it. A macro is proved at each place with all that lives there, and a call in a fraction of the time.
pub(crate) fn put_debug<T: Debug>(out: &mut String, answer: &T) -> Result<(), AllocError> {
    writeln!(out, "{answer:?}")
}

/// Puts an operation on a place.
fn put_at(out: &mut String, word: &str, place: CellKey) -> Result<(), AllocError> {
    write!(out, "{word} {}:{}", place.contract, place.key)
}

/// Puts an operation on a place with a number.
fn put_with(out: &mut String, word: &str, place: CellKey, number: u64) -> Result<(), AllocError> {
    write!(out, "{word} {}:{} {number}", place.contract, place.key)
}

/// Puts an operation.
fn put_op(out: &mut String, op: Op) -> Result<(), AllocError> {
    match op {
        Op::Get(place) => put_at(out, "Get", place),
        Op::Has(place) => put_at(out, "Has", place),
        Op::Put(place, number) => put_with(out, "Put", place, number),
        Op::Del(place) => put_at(out, "Del", place),
        Op::Add(place, number) => put_with(out, "Add", place, number),
        Op::Total(place) => put_at(out, "Total", place),
    }
}

/// Puts the reply to an operation, where it has one.
fn put_reply(out: &mut String, reply: Reply) -> Result<(), AllocError> {
    match reply {
        Reply::Nothing => Ok(()),
        Reply::I32(number) => write!(out, " = {number}"),
        Reply::I64(number) => write!(out, " = {number}"),
    }
}

/// Puts a step.
fn put_step(out: &mut String, step: TraceStep) -> Result<(), AllocError> {
    match step {
        TraceStep::Did(op, reply) => {
            put_op(out, op)?;
            put_reply(out, reply)
        }
        mark => write!(out, "{mark:?}"),
    }
}

/// Puts steps, with what stands before the first one and before each other one.
pub(crate) fn put_steps(
    out: &mut String,
    first: &str,
    steps: &[TraceStep],
) -> Result<(), AllocError> {
    let mut before = first;
    for step in steps {
        out.push_str(before)?;
        put_step(out, *step)?;
        before = ", ";
    }
    Ok(())
}

/// Puts a line with this word for each cell.
pub(crate) fn put_cells(out: &mut String, word: &str, cells: &Cells) -> Result<(), AllocError> {
    for (lock, value) in cells.entries() {
        writeln!(
            out,
            "{word} {:?} {}:{} {value}",
            lock.kind, lock.contract, lock.key
        )?;
    }
    Ok(())
}

/// Puts a committed call, and how it held these locks.
fn put_entry(out: &mut String, entry: &CommittedCall, locks: &[Lock]) -> Result<(), AllocError> {
    let outcome = entry.outcome();
    write!(out, "entry {} {outcome:?}", entry.call())?;
    put_steps(out, " ", entry.trace())?;
    out.push('\n')?;
    for lock in locks {
        let mode = entry.mode(*lock);
        writeln!(
            out,
            "mode {:?} {}:{} {mode:?}",
            lock.kind, lock.contract, lock.key
        )?;
    }
    Ok(())
}

/// Puts what a closed book has, and how its calls held these locks.
pub(crate) fn put_closed(out: &mut String, closed: &Closed, locks: &[Lock]) -> Result<(), Refused> {
    put_cells(out, "opening", &closed.opening)?;
    put_cells(out, "cell", &closed.cells)?;
    for entry in &closed.entries {
        put_entry(out, entry, locks)?;
    }
    Ok(())
}
