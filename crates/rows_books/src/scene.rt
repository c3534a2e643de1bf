//! What lines of a row say: how a book is opened, what is done to it, and what is asked of its entries.

use crate::acts::{Act, act_of};
use crate::refused::Refused;
use crate::words::{cut, lock_of, put_cell, short};
use spec_ledger::Lock;
use std::alloc::Global;
use storage::Cells;

/// A line, and what it says is done.
#[derive(Drop)]
pub(crate) struct Asked<'t> {
    pub(crate) line: &'t str,
    pub(crate) act: Act,
}

/// What the lines of a row say.
#[derive(Drop)]
pub(crate) struct Scene<'t> {
    /// `calls NUMBER`.
    pub(crate) calls: u32,
    /// `cell KIND CONTRACT:KEY NUMBER`.
    pub(crate) cells: Cells,
    /// `lent CALL`: the hand that has the ticket of another book's first attempt of call 0.
    pub(crate) lent: Option<u32>,
    /// What is done, one after another.
    pub(crate) asks: Vec<Asked<'t>>,
    /// `mode KIND CONTRACT:KEY`: the locks of which each entry tells how it held them.
    pub(crate) locks: Vec<Lock>,
}

/// Takes a line.
fn take<'t>(alloc: Global, scene: &mut Scene<'t>, line: &'t str) -> Result<(), Refused> {
    let (word, rest) = cut(line);
    match word {
        "calls" => scene.calls = short(rest)?,
        "cell" => put_cell(&mut scene.cells, rest)?,
        "lent" => scene.lent = Some(short(rest)?),
        "mode" => {
            let (lock, _) = lock_of(rest)?;
            scene.locks.push(lock)?;
        }
        _ => {
            let act = act_of(alloc, line)?;
            scene.asks.push(Asked { line, act })?;
        }
    }
    Ok(())
}

/// What the lines say.
pub(crate) fn scene_of<'t>(alloc: Global, text: &'t str) -> Result<Scene<'t>, Refused> {
    let mut scene = Scene {
        calls: 0,
        cells: Cells::new(alloc),
        lent: None,
        asks: Vec::new(alloc),
        locks: Vec::new(alloc),
    };
    for line in text.split('\n') {
        if !line.is_empty() {
            take(alloc, &mut scene, line)?;
        }
    }
    Ok(scene)
}
