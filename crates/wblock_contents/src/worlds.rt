//! What is in a world.

ghost use Rattle.std.specs.Prelude.{◌≡◌, IfOk, MatchResult, map, string_bytes};
ghost use Rattle.spec_block.specs.Bytes.{world_bytes};
ghost use Rattle.world.specs.Views.{contract_view, world_view};
ghost use Rattle.wblock_line.specs.Worlds.{TellsNoWorld};
ghost use Rattle.wblock_contents.specs.Lines.{numbered};
ghost use Rattle.wblock_contents.specs.WorldText.{contract_text, counts_line, digest_line, world_text};
ghost use Rattle.wblock_contents.specs.Listings.{TellsWorld};

use crate::cells::{cells_text_of, list_cells};
use crate::interface::interface_text_of;
use figures::shortest_size;
use link::deployed::Deployed;
use sha2::{Digest, Sha256};
use std::alloc::{AllocError, Global};
use storage::Kind;
use wblock_line::judge_world;
use world::World;

/// The lines of a contract.
fn contract_text_of(
    alloc: Global,
    number: usize,
    contract: &Deployed<Global>,
) -> Result<String, AllocError>
    ensures { IfOk result (λ text. string_bytes text ≡ contract_text number (contract_view contract.now)) }
{
    let size = shortest_size(alloc, contract.module())?;
    let interface = interface_text_of(alloc, contract.module())?;
    let text = format!(in alloc; "contract {number} {size} bytes\n{interface}")?;
    Ok(text)
}

/// The lines of all contracts.
fn contracts_text_of(alloc: Global, contracts: &[Deployed<Global>]) -> Result<String, AllocError>
    ensures { IfOk result (λ text. string_bytes text ≡ numbered contract_text 0 (map contract_view contracts.now)) }
{
    let mut text = String::new(alloc);
    let mut number: usize = 0;
    for contract in contracts {
        let part = contract_text_of(alloc, number, contract)?;
        text.push_str(part.as_str())?;
        number += 1;
    }
    Ok(text)
}

/// `world CONTRACTS contracts CELLS cells`.
fn counts_line_of(alloc: Global, contracts: usize, cells: usize) -> Result<String, AllocError>
    ensures { IfOk result (λ line. string_bytes line ≡ counts_line contracts cells) }
{
    let line = format!(in alloc; "world {contracts} contracts {cells} cells\n")?;
    Ok(line)
}

/// `digest HEX`.
fn digest_line_of(alloc: Global, bytes: &[u8]) -> Result<String, AllocError>
    ensures { IfOk result (λ line. string_bytes line ≡ digest_line bytes.now) }
{
    let digits = hex::encode(alloc, Sha256::digest(bytes))?;
    let line = format!(in alloc; "digest {digits}\n")?;
    Ok(line)
}

/// The lines of the world that these bytes spell, with the numbers of its cells signed or not.
fn world_text_of(
    alloc: Global,
    signed: bool,
    bytes: &[u8],
    world: &World,
) -> Result<String, AllocError>
    requires { bytes.now ≡ world_bytes (world_view world.now) }
    ensures { IfOk result (λ text. string_bytes text ≡ world_text signed (world_view world.now)) }
{
    let cells = list_cells(alloc, world.cells())?;
    let counts = counts_line_of(alloc, world.contracts().len(), cells.len())?;
    let digest = digest_line_of(alloc, bytes)?;
    let contracts = contracts_text_of(alloc, world.contracts())?;
    let maps = cells_text_of(alloc, signed, Kind::Map, world.cells())?;
    let counters = cells_text_of(alloc, signed, Kind::Counter, world.cells())?;
    let text = format!(in alloc; "{counts}{digest}{contracts}{maps}{counters}")?;
    Ok(text)
}

/// What is in the world of these bytes: `world CONTRACTS contracts CELLS cells`, `digest HEX`, `contract K N bytes` and a line for each import and
/// export of each contract, and then `map K:KEY VALUE` and `counter K:KEY VALUE` for the cells, with their numbers signed, as lines of calls take them, or
/// not. Or the line and the sentence that say why they are no world.
pub fn list_world(
    alloc: Global,
    signed: bool,
    bytes: &[u8],
) -> Result<Result<String, (String, String)>, AllocError>
    ensures { IfOk result (λ read. MatchResult read (λ text. TellsWorld signed bytes.now (string_bytes text)) (λ told. TellsNoWorld bytes.now (string_bytes told.0))) }
{
    match judge_world(alloc, bytes)? {
        Ok(world) => {
            let text = world_text_of(alloc, signed, bytes, &world)?;
            Ok(Ok(text))
        }
        Err(told) => Ok(Err(told)),
    }
}
