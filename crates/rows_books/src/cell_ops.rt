//! Operations on cells, taken back and settled, and the order of cells.

use crate::put::put_cells;
use crate::refused::Refused;
use crate::words::{cut, lock_of, op_of, put_cell, text_of};
use std::alloc::Global;
use storage::{Cells, Op};

/// Does an operation, and puts its reply and how it is taken back.
fn put_done(out: &mut String, cells: &mut Cells, line: &str, op: Op) -> Result<(), Refused> {
    let (reply, inverse) = cells.apply(op)?;
    writeln!(out, "{line}: {reply:?} {inverse:?}")?;
    Ok(())
}

/// As [`put_done`], and takes it back.
fn put_undone(out: &mut String, cells: &mut Cells, line: &str, op: Op) -> Result<(), Refused> {
    let (reply, inverse) = cells.apply(op)?;
    cells.take_back(inverse);
    writeln!(out, "{line}: {reply:?} {inverse:?}")?;
    Ok(())
}

/// As [`put_done`], and lets it stand.
fn put_settled(out: &mut String, cells: &mut Cells, line: &str, op: Op) -> Result<(), Refused> {
    let (reply, inverse) = cells.apply(op)?;
    cells.settle(inverse);
    writeln!(out, "{line}: {reply:?} {inverse:?}")?;
    Ok(())
}

/// Puts what a cell holds.
fn put_held(out: &mut String, cells: &Cells, line: &str, lock: &str) -> Result<(), Refused> {
    let (lock, _) = lock_of(lock)?;
    let cell = cells.get(lock);
    writeln!(out, "{line}: {cell:?}")?;
    Ok(())
}

/// Does what a line says, and puts the answer.
fn put_answer(
    alloc: Global,
    out: &mut String,
    cells: &mut Cells,
    line: &str,
) -> Result<(), Refused> {
    let (word, rest) = cut(line);
    match word {
        "" => Ok(()),
        "cell" => put_cell(cells, rest),
        "did" => put_done(out, cells, line, op_of(rest)?),
        "undone" => put_undone(out, cells, line, op_of(rest)?),
        "settled" => put_settled(out, cells, line, op_of(rest)?),
        "holds" => put_held(out, cells, line, rest),
        "cells" => Ok(put_cells(out, "cell", cells)?),
        "copy" => Ok(put_cells(out, "copied", &cells.copy(alloc)?)?),
        _ => Err(Refused::Line),
    }
}

/// What is answered to operations on cells, one after another.
pub(crate) fn answer_to(alloc: Global, lines: &[u8]) -> Result<String, Refused> {
    let mut cells = Cells::new(alloc);
    let mut out = String::new(alloc);
    for line in text_of(lines)?.split('\n') {
        put_answer(alloc, &mut out, &mut cells, line)?;
    }
    Ok(out)
}
