//! Worlds, blocks and lists of calls, read and written.

use crate::put::{put_cells, put_hex, put_position, put_written};
use crate::refused::Refused;
use crate::scene::{Scene, scene_of, world_of};
use crate::words::{first_line, version_of};
use block::{Block, Position, digest_calls, read_block, write_block, write_calls};
use byte_sinks::{Failures, MemorySink, WriteRefusal};
use hex::encode;
use lock_profile::Profile;
use rows_books::words::{cut, long, short, text_of};
use sha2::{Digest, Sha256};
use spec_ledger::{Outcome, Receipt, Version};
use std::alloc::Global;
use wblock_calls::read_calls;
use world::{digest_world, encode_world, read_cells, read_world, write_world};
use wtypes::TrapCode;

/// A sink that takes all.
fn whole_sink(alloc: Global) -> MemorySink {
    MemorySink::new(alloc, 2_000_000, Failures::none())
}

/// The bytes of a block; none where its version can't tell its receipts.
pub(crate) fn block_bytes(alloc: Global, block: &Block) -> Result<Option<Vec<u8>>, Refused> {
    if !block.fits_version() {
        return Ok(None);
    }
    let mut sink = whole_sink(alloc);
    match write_block(alloc, block, &mut sink) {
        Ok(()) => Ok(Some(sink.into_bytes())),
        Err(_) => Err(Refused::NoMemory),
    }
}

/// Puts how many bytes a block has, and these in hex.
pub fn put_block_bytes(alloc: Global, out: &mut String, block: &Block) -> Result<(), Refused> {
    match block_bytes(alloc, block)? {
        Some(bytes) => {
            writeln!(out, "{} bytes", bytes.len())?;
            put_hex(alloc, out, "block", &bytes)
        }
        None => {
            writeln!(out, "its version tells of no levels")?;
            Ok(())
        }
    }
}

/// The parts of the block that bytes spell.
pub(crate) fn block(alloc: Global, bytes: &[u8]) -> Result<String, Refused> {
    let block = read_block(alloc, bytes)?;
    let written = match block_bytes(alloc, &block)? {
        Some(written) => written,
        None => Vec::new(alloc),
    };
    let mut out = String::new(alloc);
    let version = block.version();
    writeln!(
        out,
        "version {version:?} positions {}",
        block.positions().len()
    )?;
    put_written(alloc, &mut out, bytes, 0, &written)?;
    put_hex(alloc, &mut out, "before", block.before())?;
    put_hex(alloc, &mut out, "calls", block.calls())?;
    put_hex(alloc, &mut out, "after", block.after())?;
    writeln!(out, "fuel {}", block.fuel())?;
    for position in block.positions() {
        put_position(&mut out, position)?;
    }
    Ok(out)
}

/// The cells that bytes begin with.
pub(crate) fn cells(alloc: Global, bytes: &[u8]) -> Result<String, Refused> {
    let (cells, rest) = read_cells(alloc, bytes)?;
    let mut out = String::new(alloc);
    put_cells(&mut out, &cells)?;
    writeln!(out, "left {}", rest.len())?;
    Ok(out)
}

/// The parts of the world that bytes spell.
pub(crate) fn world(alloc: Global, bytes: &[u8]) -> Result<String, Refused> {
    let world = read_world(alloc, bytes)?;
    let written = encode_world(alloc, &world)?;
    let mut out = String::new(alloc);
    writeln!(out, "contracts {}", world.contracts().len())?;
    put_written(alloc, &mut out, bytes, 0, &written)?;
    put_cells(&mut out, world.cells())?;
    Ok(out)
}

/// The world of contracts and cells, as it is written, its digest and its cells.
pub(crate) fn made_world(alloc: Global, lines: &[u8]) -> Result<String, Refused> {
    let Scene {
        contracts,
        cells,
        later: _,
        calls: _,
        order: _,
        version: _,
        fuel: _,
        runs: _,
        acts: _,
        committed: _,
        handed: _,
    } = scene_of(alloc, lines)?;
    let world = world_of(contracts, cells)?;
    let mut sink = whole_sink(alloc);
    let put = write_world(alloc, &world, &mut sink);
    let same = encode_world(alloc, &world)?.as_slice() == sink.bytes();
    let mut out = String::new(alloc);
    writeln!(out, "{put:?} encoded the same {same}")?;
    put_hex(alloc, &mut out, "world", sink.bytes())?;
    put_hex(alloc, &mut out, "digest", &digest_world(alloc, &world)?)?;
    writeln!(out, "contracts {}", world.contracts().len())?;
    put_cells(&mut out, world.cells())?;
    Ok(out)
}

/// The bytes of a list of calls, which is given as text, and their digest.
pub(crate) fn calls(alloc: Global, text: &[u8]) -> Result<String, Refused> {
    let calls = read_calls(alloc, text)?;
    let mut sink = whole_sink(alloc);
    let put = write_calls(alloc, &calls, &mut sink);
    let mut out = String::new(alloc);
    writeln!(out, "{put:?}")?;
    put_hex(alloc, &mut out, "calls", sink.bytes())?;
    put_hex(alloc, &mut out, "digest", &digest_calls(alloc, &calls)?)?;
    Ok(out)
}

/// Puts what bytes spell into a sink: a block or a world, or a list of calls that is given as text.
fn put_into(
    alloc: Global,
    word: &str,
    bytes: &[u8],
    sink: &mut MemorySink,
) -> Result<Result<(), WriteRefusal>, Refused> {
    match word {
        "block" => {
            let block = read_block(alloc, bytes)?;
            if block.fits_version() {
                Ok(write_block(alloc, &block, sink))
            } else {
                Err(Refused::Line)
            }
        }
        "world" => Ok(write_world(alloc, &read_world(alloc, bytes)?, sink)),
        "calls" => Ok(write_calls(alloc, &read_calls(alloc, bytes)?, sink)),
        _ => Err(Refused::Line),
    }
}

/// What a sink has taken that takes so many bytes at a time and fails behind so many pieces: the first line has `block`, `world` or `calls` and both
/// numbers.
pub(crate) fn cut_short(alloc: Global, input: &[u8]) -> Result<String, Refused> {
    let (line, bytes) = first_line(input)?;
    let (word, numbers) = cut(line);
    let (piece, pieces) = cut(numbers);
    let mut whole = whole_sink(alloc);
    let _ = put_into(alloc, word, bytes, &mut whole)?;
    let mut sink = MemorySink::new(
        alloc,
        short(piece)? as usize,
        Failures::after(long(pieces)?),
    );
    let put = put_into(alloc, word, bytes, &mut sink)?;
    let taken = sink.bytes();
    let are_first = whole.bytes().get(..taken.len()) == Some(taken);
    Ok(format!(in alloc;
        "{put:?} {} bytes, the first ones {are_first}\n",
        taken.len()
    )?)
}

/// A position of a call with this receipt and no locks.
fn position_of(alloc: Global, call: u32, receipt: Receipt) -> Result<Position, Refused> {
    let Some(profile) = Profile::from_sorted(Vec::new(alloc)) else {
        return Err(Refused::Locks);
    };
    match Position::new(call, receipt, profile) {
        Some(position) => Ok(position),
        None => Err(Refused::Line),
    }
}

/// A block of so many positions of calls out of fuel; none where there are too many.
fn block_of(alloc: Global, version: Version, count: u32) -> Result<Option<Block>, Refused> {
    let receipt = Receipt {
        outcome: Outcome::OutOfFuel,
        used: 0,
        asks: 0,
    };
    let mut positions = Vec::new(alloc);
    for call in 0..count {
        positions.push(position_of(alloc, call, receipt)?)?;
    }
    Ok(Block::new(version, [1; 32], [2; 32], positions, 0, [3; 32]))
}

/// The size of a block of so many positions of calls out of fuel, how many are read, and the call of the last: a line has the version and the count.
pub(crate) fn fuelless_block(alloc: Global, line: &[u8]) -> Result<String, Refused> {
    let (version, count) = cut(text_of(line)?);
    let Some(block) = block_of(alloc, version_of(version)?, short(count)?)? else {
        return Ok(format!(in alloc; "there is none\n")?);
    };
    let Some(bytes) = block_bytes(alloc, &block)? else {
        return Err(Refused::Line);
    };
    let read = read_block(alloc, &bytes)?;
    let count = read.positions().len();
    let last = match read.positions().last() {
        Some(position) => position.call(),
        None => return Err(Refused::Line),
    };
    Ok(format!(in alloc;
        "{} bytes, {count} positions, the last of call {last}\n",
        bytes.len()
    )?)
}

/// Whether a block of this version can tell of a call that trapped in so many levels.
fn tells(alloc: Global, version: Version, asks: u32) -> Result<bool, Refused> {
    let receipt = Receipt {
        outcome: Outcome::Trapped(TrapCode::Unreachable),
        used: 4,
        asks,
    };
    let mut positions = Vec::new(alloc);
    positions.push(position_of(alloc, 0, receipt)?)?;
    match Block::new(version, [1; 32], [2; 32], positions, 0, [3; 32]) {
        Some(block) => Ok(block.fits_version()),
        None => Err(Refused::Line),
    }
}

/// Whether each version can tell of a call that trapped in so many levels.
pub(crate) fn versions(alloc: Global, line: &[u8]) -> Result<String, Refused> {
    let asks = short(text_of(line)?)?;
    let one = tells(alloc, Version::One, asks)?;
    let two = tells(alloc, Version::Two, asks)?;
    Ok(format!(in alloc; "{one} {two}\n")?)
}

/// The SHA-256 of bytes.
pub(crate) fn sha256(alloc: Global, bytes: &[u8]) -> Result<String, Refused> {
    let digest = Sha256::digest(bytes);
    let digits = encode(alloc, &digest)?;
    let digits = digits.as_str();
    Ok(format!(in alloc; "{digits}\n")?)
}
