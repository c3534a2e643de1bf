//! What lines of a row say: contracts, cells, calls and what is done with them.

use crate::refused::Refused;
use crate::words::version_of;
use call::Call;
use hex::decode;
use link::deployed::Deployed;
use rows_books::words::{cut, long, put_cell, short, text_of};
use spec_ledger::Version;
use std::alloc::Global;
use storage::Cells;
use test_support::{ASKING, EXAMPLE, FIRST_MODULE, PROBING, deployed};
use wblock_calls::read_calls;
use world::World;

/// What is done to an order that is being published.
#[derive(Clone, Copy)]
pub enum Act {
    /// Whether the call may follow.
    MayFollow(u32),
    /// Whether the call is taken by a run over the cells.
    Take(u32),
    /// Each call that has room is taken.
    Fill,
}

/// A run of a call, alone over these cells.
#[derive(Drop)]
pub struct Made {
    pub call: u32,
    pub cells: Cells,
}

/// What the lines of a row say.
#[derive(Drop)]
pub struct Scene {
    /// `contract WORD`: a sample, or a module in hex.
    pub contracts: Vec<Deployed<Global>>,
    /// `cell KIND CONTRACT:KEY VALUE`.
    pub cells: Cells,
    /// `later KIND CONTRACT:KEY VALUE`: the cells over which a run is taken again.
    pub later: Cells,
    /// `call CONTRACT FUEL ENTRY ARG...`.
    pub calls: Vec<Call>,
    /// `order NUMBER...`.
    pub order: Vec<u32>,
    /// `version NUMBER`, and 2 where nothing is said.
    pub version: Version,
    /// `fuel NUMBER`.
    pub fuel: u64,
    /// `run NUMBER`: calls that are run over the opening cells.
    pub runs: Vec<u32>,
    /// `may_follow NUMBER`, `take NUMBER`, `fill`.
    pub acts: Vec<Act>,
    /// `committed CALL`, or `committed CALL KIND CONTRACT:KEY VALUE`: runs that are committed in a book.
    pub committed: Vec<Made>,
    /// `handed ..`: runs that are handed over when it is closed.
    pub handed: Vec<Made>,
}

/// A scene of nothing.
fn empty(alloc: Global) -> Scene {
    Scene {
        contracts: Vec::new(alloc),
        cells: Cells::new(alloc),
        later: Cells::new(alloc),
        calls: Vec::new(alloc),
        order: Vec::new(alloc),
        version: Version::Two,
        fuel: 0,
        runs: Vec::new(alloc),
        acts: Vec::new(alloc),
        committed: Vec::new(alloc),
        handed: Vec::new(alloc),
    }
}

/// The contract of these bytes.
fn contract_of(alloc: Global, bytes: &[u8]) -> Result<Deployed<Global>, Refused> {
    match deployed(alloc, bytes) {
        Ok(contract) => Ok(contract),
        Err(_) => Err(Refused::Contract),
    }
}

/// The contract of a word.
fn named(alloc: Global, word: &str) -> Result<Deployed<Global>, Refused> {
    match word {
        "first" => contract_of(alloc, FIRST_MODULE),
        "example" => contract_of(alloc, EXAMPLE),
        "asking" => contract_of(alloc, ASKING),
        "probing" => contract_of(alloc, PROBING),
        digits => match decode(alloc, digits) {
            Ok(bytes) => contract_of(alloc, &bytes),
            Err(_) => Err(Refused::Contract),
        },
    }
}

/// A run of a call over no cells, or over one.
fn made_of(alloc: Global, line: &str) -> Result<Made, Refused> {
    let (call, cell) = cut(line);
    let mut cells = Cells::new(alloc);
    if !cell.is_empty() {
        put_cell(&mut cells, cell)?;
    }
    let call = short(call)?;
    Ok(Made { call, cells })
}

/// The numbers of a line.
fn numbers_of(alloc: Global, line: &str) -> Result<Vec<u32>, Refused> {
    let mut numbers = Vec::new(alloc);
    if line.is_empty() {
        return Ok(numbers);
    }
    for word in line.split(' ') {
        numbers.push(short(word)?)?;
    }
    Ok(numbers)
}

/// Puts the line of a call behind the others.
fn put_line(lines: &mut String, line: &str) -> Result<(), Refused> {
    lines.push_str(line)?;
    lines.push_str("\n")?;
    Ok(())
}

/// Takes a line that says what is done.
fn take_act(scene: &mut Scene, word: &str, rest: &str) -> Result<(), Refused> {
    match word {
        "run" => scene.runs.push(short(rest)?)?,
        "may_follow" => scene.acts.push(Act::MayFollow(short(rest)?))?,
        "take" => scene.acts.push(Act::Take(short(rest)?))?,
        "fill" => scene.acts.push(Act::Fill)?,
        _ => return Err(Refused::Line),
    }
    Ok(())
}

/// Takes a line.
fn take(alloc: Global, scene: &mut Scene, calls: &mut String, line: &str) -> Result<(), Refused> {
    let (word, rest) = cut(line);
    match word {
        "contract" => scene.contracts.push(named(alloc, rest)?)?,
        "cell" => put_cell(&mut scene.cells, rest)?,
        "later" => put_cell(&mut scene.later, rest)?,
        "call" => put_line(calls, rest)?,
        "order" => scene.order = numbers_of(alloc, rest)?,
        "version" => scene.version = version_of(rest)?,
        "fuel" => scene.fuel = long(rest)?,
        "committed" => scene.committed.push(made_of(alloc, rest)?)?,
        "handed" => scene.handed.push(made_of(alloc, rest)?)?,
        _ => take_act(scene, word, rest)?,
    }
    Ok(())
}

/// What the lines say.
pub fn scene_of(alloc: Global, lines: &[u8]) -> Result<Scene, Refused> {
    let mut scene = empty(alloc);
    let mut calls = String::new(alloc);
    for line in text_of(lines)?.split('\n') {
        if !line.is_empty() {
            take(alloc, &mut scene, &mut calls, line)?;
        }
    }
    scene.calls = read_calls(alloc, calls.as_bytes())?;
    Ok(scene)
}

/// The world of these contracts and cells.
pub fn world_of(contracts: Vec<Deployed<Global>>, cells: Cells) -> Result<World, Refused> {
    if contracts.len() > World::MOST_CONTRACTS {
        return Err(Refused::Line);
    }
    Ok(World::new(contracts, cells))
}
