//! Texts of what is found.

use crate::refused::Refused;
use hex::encode;
use lock_profile::Touched;
use records::Position;
use spec_ledger::{Entry, Receipt};
use std::alloc::{AllocError, Global};
use storage::Cells;

/// Puts a receipt.
pub fn put_receipt(out: &mut String, receipt: Receipt) -> Result<(), AllocError> {
    let Receipt {
        outcome,
        used,
        asks,
    } = receipt;
    writeln!(out, "{outcome:?} used {used} asks {asks}")
}

/// Puts a line for each lock that is held.
pub fn put_locks(out: &mut String, touched: &Touched) -> Result<(), AllocError> {
    for held in touched.lock_modes() {
        let lock = held.lock;
        let mode = held.mode;
        writeln!(
            out,
            "lock {:?} {}:{} {mode:?}",
            lock.kind, lock.contract, lock.key
        )?;
    }
    Ok(())
}

/// Puts an entry of a lock profile.
pub fn put_entry(out: &mut String, entry: Entry) -> Result<(), AllocError> {
    let Entry { lock, mode, turn } = entry;
    writeln!(
        out,
        "entry {:?} {}:{} {mode:?} {turn}",
        lock.kind, lock.contract, lock.key
    )
}

/// Puts a line for each entry.
pub fn put_entries(out: &mut String, entries: &[Entry]) -> Result<(), AllocError> {
    for entry in entries {
        put_entry(out, *entry)?;
    }
    Ok(())
}

/// Puts the lines of a position of a block.
pub fn put_position(out: &mut String, position: &Position) -> Result<(), AllocError> {
    write!(out, "call {} ", position.call())?;
    put_receipt(out, position.receipt())?;
    put_entries(out, position.profile().entries())
}

/// Puts a line for each cell.
pub fn put_cells(out: &mut String, cells: &Cells) -> Result<(), AllocError> {
    for (lock, value) in cells.entries() {
        writeln!(
            out,
            "cell {:?} {}:{} {value}",
            lock.kind, lock.contract, lock.key
        )?;
    }
    Ok(())
}

/// Puts a word, and bytes in hex.
pub fn put_hex(alloc: Global, out: &mut String, word: &str, bytes: &[u8]) -> Result<(), Refused> {
    let digits = encode(alloc, bytes)?;
    let digits = digits.as_str();
    writeln!(out, "{word} {digits}")?;
    Ok(())
}

/// Puts how many bytes are left behind what was read, and whether it is written as the bytes that it was read from; as which others, where it is not.
pub fn put_written(
    alloc: Global,
    out: &mut String,
    bytes: &[u8],
    left: usize,
    written: &[u8],
) -> Result<(), Refused> {
    let size = bytes.len().saturating_sub(left);
    writeln!(out, "left {left}")?;
    if bytes.get(..size) == Some(written) {
        writeln!(out, "written the same, {size} bytes")?;
        Ok(())
    } else {
        put_hex(alloc, out, "written", written)
    }
}
