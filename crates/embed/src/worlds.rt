//! Worlds: of nothing, with one contract more, their digests and their cells.

ghost use Rattle.std.specs.Prelude.{◌≡◌, ◌+◌, ◌≤◌, [], ◌∷◌, Some, IfOk, IfErr, length};
ghost use Rattle.spec_block.specs.Bytes.{world_bytes};
ghost use Rattle.world.specs.Views.{contract_view, world_view};
ghost use Rattle.wblock_modules.specs.Deploys.{extended};
ghost use Rattle.embed.specs.Given.{AreCellsOf, IsDigestOf, IsExtension, IsNothing};
ghost use Rattle.embed.specs.declared.failure.Subject.TheVariants as subject;
ghost use Rattle.embed.specs.Refusals.{IfRefused, IsFull, RefusesExtending, RefusesWorld, refusal};

use crate::failure::{Failure, Subject, refused};
use crate::inputs::{contract_of, world_of};
use link::deployed::Deployed;
use sha2::{Digest, Sha256};
use std::alloc::Global;
use storage::Cells;
use wblock_modules::{empty_world, encode_extended};
use world::{World, encode_world};
use wtypes::NoMemory;

/// The bytes of the world of no contracts and no cells.
///
/// # Errors
///
/// Memory was refused.
pub fn new_world(alloc: Global) -> Result<Vec<u8>, NoMemory>
    ensures { IfOk result (λ bytes. IsNothing bytes.items) }
{
    let empty = empty_world(alloc);
    let bytes = encode_world(alloc, &empty)?;
    Ok(bytes)
}

/// How many contracts a world has.
fn count_of(world: &World) -> usize
    ensures count { result ≡ length (world_view world.now).contracts }
    ensures few { result ≤ 1024 }
{
    world.contracts().len()
}

/// The failure of a world that would have so many contracts.
fn refuse_full(alloc: Global, count: usize) -> Failure
    ensures { IfRefused result (λ r. r ≡ refusal subject.Deploy 6 (Some count)) }
{
    refused(
        Subject::Deploy,
        6,
        Some(count as u64),
        format!(in alloc;
            "world: with this module there are {count} contracts, more than 1,024; begin another world"
        ),
    )
}

/// That a world has room for one contract more.
fn find_room(alloc: Global, world: &World) -> Result<(), Failure>
    ensures room { IfOk result (λ _. length (world_view world.now).contracts + 1 ≤ 1024) }
    ensures full { IfErr result (λ f. IfRefused f (λ r. IsFull r (world_view world.now))) }
{
    let contracts = count_of(world);
    let is_full = contracts + 1 > World::MOST_CONTRACTS;
    if is_full {
        return Err(refuse_full(alloc, contracts + 1));
    }
    Ok(())
}

/// The bytes of a world with one contract behind its own.
fn encode_behind(
    alloc: Global,
    world: World,
    contract: Deployed<Global>,
) -> Result<Vec<u8>, NoMemory>
    requires { length (world_view world).contracts + 1 ≤ 1024 }
    ensures { IfOk result (λ bytes. bytes.items ≡ world_bytes (extended (world_view world) (contract_view contract ∷ []))) }
{
    let mut contracts = Vec::new(alloc);
    contracts.push(contract)?;
    encode_extended(alloc, world, contracts)
}

/// The bytes of a world with the contract that a module is behind its own: their numbers and all cells stay.
///
/// # Errors
///
/// Why the bytes spell no world, or one that is full, or why the module is no contract; or memory was refused.
pub fn extend(alloc: Global, world: &[u8], code: &[u8]) -> Result<Vec<u8>, Failure>
    ensures extended { IfOk result (λ bytes. IsExtension world.now code.now bytes.items) }
    ensures refused { IfErr result (λ f. IfRefused f (RefusesExtending world.now code.now)) }
{
    let base = world_of(alloc, world)?;
    find_room(alloc, &base)?;
    let contract = contract_of(alloc, code)?;
    let bytes = encode_behind(alloc, base, contract)?;
    Ok(bytes)
}

/// SHA-256 of a world, by which blocks name it.
///
/// # Errors
///
/// Why the bytes spell no world; or memory was refused.
pub fn digest_of(alloc: Global, world: &[u8]) -> Result<[u8; 32], Failure>
    ensures digest { IfOk result (IsDigestOf world.now) }
    ensures refused { IfErr result (λ f. IfRefused f (RefusesWorld world.now)) }
{
    let read = world_of(alloc, world)?;
    drop(read);
    Ok(Sha256::digest(world))
}

/// The cells of a world.
///
/// # Errors
///
/// Why the bytes spell no world; or memory was refused.
pub fn cells_of(alloc: Global, world: &[u8]) -> Result<Cells, Failure>
    ensures cells { IfOk result (λ cells. AreCellsOf world.now cells.cells) }
    ensures refused { IfErr result (λ f. IfRefused f (RefusesWorld world.now)) }
{
    let read = world_of(alloc, world)?;
    let (contracts, cells) = read.into_parts();
    drop(contracts);
    Ok(cells)
}
