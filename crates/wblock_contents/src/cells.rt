//! The cells of a world.

ghost use Rattle.std.specs.Prelude.{◌≡◌, IfOk, string_bytes};
ghost use Rattle.std.specs.FinMap as finite;
ghost use Rattle.wblock_contents.specs.WorldText.{cell_line, cells_text};

use figures::word_of_kind;
use std::alloc::{AllocError, Global};
use storage::{Cells, Kind, Lock};
use wblock_calls::NumberText;
use world::is_kind;

/// The cells with their numbers, in the order of locks.
pub(crate) fn list_cells(alloc: Global, cells: &Cells) -> Result<Vec<(Lock, u64)>, AllocError>
    ensures { IfOk result (λ all. all.items ≡ finite.entries cells.now.cells) }
{
    let mut all = Vec::new(alloc);
    for (lock, value) in cells.entries() {
        all.push((lock, value))?;
    }
    Ok(all)
}

/// The line of a cell, with its numbers signed or not.
fn cell_line_of(alloc: Global, signed: bool, lock: Lock, value: u64) -> Result<String, AllocError>
    ensures { IfOk result (λ line. string_bytes line ≡ cell_line signed (lock, value)) }
{
    let word = word_of_kind(lock.kind);
    let contract = lock.contract;
    let key = NumberText {
        number: lock.key,
        signed,
    };
    let value = NumberText {
        number: value,
        signed,
    };
    let line = format!(in alloc; "{word} {contract}:{key} {value}\n")?;
    Ok(line)
}

/// A line for each cell of a kind, with its numbers signed or not.
pub(crate) fn cells_text_of(
    alloc: Global,
    signed: bool,
    kind: Kind,
    cells: &Cells,
) -> Result<String, AllocError>
    ensures { IfOk result (λ text. string_bytes text ≡ cells_text signed kind cells.now.cells) }
{
    let mut text = String::new(alloc);
    for (lock, value) in cells.entries() {
        if is_kind(kind, lock.kind) {
            let line = cell_line_of(alloc, signed, lock, value)?;
            text.push_str(line.as_str())?;
        }
    }
    Ok(text)
}
