//! A world as JSON.

ghost use Rattle.std.specs.Prelude.{◌≡◌, ◌≤◌, IfOk, length, map, string_bytes};
ghost use Rattle.std.specs.FinMap.{entries};
ghost use Rattle.sha2.specs.Sha256.{sha256};
ghost use Rattle.serde_json.specs.View.{view};
ghost use Rattle.spec_block.specs.Bytes.{world_bytes};
ghost use Rattle.world.specs.Views.{contract_view, world_view};
ghost use Rattle.wblock_json.specs.Json.{array_of, numbered};
ghost use Rattle.wblock_json.specs.Worlds.{cell_data, cell_number, cells_data, cells_of as cells_in, contract_data, world_data, IsWorldJson};

use crate::modules::put_module;
use crate::values::{digest_of, text_of, with_member, word_of};
use figures::shortest_size;
use link::deployed::Deployed;
use serde_json::{Map, Value as Json, json, put};
use std::alloc::{AllocError, Global};
use storage::{Cells, Kind, Lock};
use wblock_calls::NumberText;
use world::{World, digest_world, is_kind};
use wtypes::NoMemory;

/// The contract of this number.
#[tactic(auto, unfolding(crate::specs::Worlds::contract_data))]
fn contract_of(alloc: Global, number: u32, contract: &Deployed<Global>) -> Result<Json, AllocError>
    ensures { IfOk result (λ v. view v ≡ contract_data number (contract_view contract.now)) }
{
    let size = shortest_size(alloc, contract.module())?;
    let mut map = Map::new(alloc);
    put(&mut map, alloc, "number", Json::from(number))?;
    put_module(alloc, &mut map, size, &[], contract.module())?;
    Ok(Json::from(map))
}

fn contracts_of(alloc: Global, contracts: &[Deployed<Global>]) -> Result<Json, AllocError>
    requires { length contracts.now ≤ 1024 }
    ensures { IfOk result (λ v. view v ≡ array_of (numbered contract_data 0 (map contract_view contracts.now))) }
{
    let mut values = Vec::new(alloc);
    let mut number: u32 = 0;
    for contract in contracts {
        values.push(contract_of(alloc, number, contract)?)?;
        number += 1;
    }
    Ok(Json::from(values))
}

/// A number of a cell, as the string of its decimal digits, signed or not.
pub fn cell_number_of(alloc: Global, signed: bool, number: u64) -> Result<Json, AllocError>
    ensures { IfOk result (λ v. view v ≡ cell_number signed number) }
{
    let number = NumberText { number, signed };
    let digits = format!(in alloc; "{number}")?;
    Ok(Json::from(digits))
}

#[tactic(auto, unfolding(crate::specs::Worlds::cell_data))]
fn cell_of(alloc: Global, signed: bool, lock: Lock, value: u64) -> Result<Json, AllocError>
    ensures { IfOk result (λ v. view v ≡ cell_data signed (lock, value)) }
{
    let key = cell_number_of(alloc, signed, lock.key)?;
    let value = cell_number_of(alloc, signed, value)?;
    json!(in alloc; {"contract": lock.contract, "key": key, "value": value})
}

/// The cells of a kind.
fn cells_of(alloc: Global, signed: bool, kind: Kind, cells: &Cells) -> Result<Json, AllocError>
    ensures { IfOk result (λ v. view v ≡ cells_in signed kind (entries cells.now.cells)) }
{
    let mut values = Vec::new(alloc);
    for (lock, value) in cells.entries() {
        if is_kind(kind, lock.kind) {
            let cell = cell_of(alloc, signed, lock, value)?;
            values.push(cell)?;
        }
    }
    Ok(Json::from(values))
}

/// The cells, the maps apart from the counters.
#[tactic(auto, unfolding(crate::specs::Worlds::cells_data))]
fn all_cells_of(alloc: Global, signed: bool, cells: &Cells) -> Result<Json, AllocError>
    ensures { IfOk result (λ v. view v ≡ cells_data signed cells.now.cells) }
{
    let maps = cells_of(alloc, signed, Kind::Map, cells)?;
    let counters = cells_of(alloc, signed, Kind::Counter, cells)?;
    json!(in alloc; {"maps": maps, "counters": counters})
}

/// SHA-256 of a world's bytes.
fn world_digest_of(alloc: Global, world: &World) -> Result<[u8; 32], AllocError>
    ensures { IfOk result (λ digest. digest ≡ sha256 (world_bytes (world_view world.now))) }
{
    match digest_world(alloc, world) {
        Ok(digest) => Ok(digest),
        Err(NoMemory) => Err(AllocError),
    }
}

#[tactic(auto, unfolding(crate::specs::Worlds::world_data))]
fn world_of(alloc: Global, signed: bool, world: &World) -> Result<Json, AllocError>
    ensures { IfOk result (λ v. view v ≡ world_data signed (world_view world.now)) }
{
    let digest = world_digest_of(alloc, world)?;
    let members = Map::new(alloc);
    let members = with_member(alloc, members, "kind", word_of(alloc, "world")?)?;
    let members = with_member(alloc, members, "digest", digest_of(alloc, &digest)?)?;
    let contracts = contracts_of(alloc, world.contracts())?;
    let members = with_member(alloc, members, "contracts", contracts)?;
    let members = with_member(
        alloc,
        members,
        "cells",
        all_cells_of(alloc, signed, world.cells())?,
    )?;
    Ok(Json::from(members))
}

/// A world as JSON: an object with its digest, its contracts with what is told of their modules, and its cells, with their numbers signed, as lines of
/// calls take them, or not. The text has no spaces and no newline.
///
/// # Errors
///
/// Memory was refused.
pub fn world_json(alloc: Global, signed: bool, world: &World) -> Result<String, AllocError>
    ensures { IfOk result (λ text. IsWorldJson signed (world_view world.now) (string_bytes text)) }
{
    let value = world_of(alloc, signed, world)?;
    text_of(alloc, &value)
}
