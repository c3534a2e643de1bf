//! What a call alone over cells came to, as JSON.

ghost use Rattle.std.specs.Prelude.{◌≡◌, ◌++◌, IfOk, OnOk, map, string_bytes};
ghost use Rattle.serde_json.specs.View.{view};
ghost use Rattle.lock_profile.specs.Groups.{pair_of, pairs};
ghost use Rattle.wblock_json.specs.Json.{array_of, maybe, IsJson, IsLineOf};
ghost use Rattle.wblock_json.specs.Worlds.{cell_number};
ghost use Rattle.wblock_call.specs.EffectsJson.{change_data, change_item, change_items, effects_data, lock_data};

use crate::effects::is_same;
use figures::{word_of_kind, word_of_mode};
use lock_profile::Held;
use serde_json::{Map, Value as Json, json};
use serial::Executed;
use spec_ledger::Lock;
use std::alloc::{AllocError, Global};
use storage::Cells;
use wblock_json::{cell_number_of, value_line, with_member, with_receipt};

/// A lock that the call asked for, with its mode.
#[tactic(auto, unfolding(crate::specs::EffectsJson::lock_data))]
fn lock_of(alloc: Global, signed: bool, held: Held) -> Result<Json, AllocError>
    ensures { IfOk result (λ v. view v ≡ lock_data signed (pair_of held)) }
{
    let kind = word_of_kind(held.lock.kind);
    let key = cell_number_of(alloc, signed, held.lock.key)?;
    let mode = word_of_mode(held.mode);
    json!(in alloc; {"kind": kind, "contract": held.lock.contract, "key": key, "mode": mode})
}

fn locks_of(alloc: Global, signed: bool, locks: &[Held]) -> Result<Json, AllocError>
    ensures { IfOk result (λ v. view v ≡ array_of (map (lock_data signed) (pairs locks.now))) }
{
    let mut values = Vec::new(alloc);
    for held in locks {
        values.push(lock_of(alloc, signed, *held)?)?;
    }
    Ok(Json::from(values))
}

/// The number in a cell; nothing where the cell is absent.
fn cell_of(alloc: Global, signed: bool, cell: Option<u64>) -> Result<Json, AllocError>
    ensures { IfOk result (λ v. view v ≡ maybe (cell_number signed) cell) }
{
    match cell {
        None => Ok(Json::Null),
        Some(number) => cell_number_of(alloc, signed, number),
    }
}

/// The cell at a lock that is changed.
#[tactic(auto, unfolding(crate::specs::EffectsJson::change_data))]
fn change_of(
    alloc: Global,
    signed: bool,
    lock: Lock,
    before: Option<u64>,
    later: Option<u64>,
) -> Result<Json, AllocError>
    ensures { IfOk result (λ v. view v ≡ change_data signed lock before later) }
{
    let kind = word_of_kind(lock.kind);
    let key = cell_number_of(alloc, signed, lock.key)?;
    let before = cell_of(alloc, signed, before)?;
    let later = cell_of(alloc, signed, later)?;
    json!(in alloc; {
        "kind": kind,
        "contract": lock.contract,
        "key": key,
        "before": before,
        "after": later,
    })
}

/// Puts a cell that is changed behind these, and of another one nothing.
fn push_change(
    alloc: Global,
    signed: bool,
    values: &mut Vec<Json>,
    lock: Lock,
    before: Option<u64>,
    later: Option<u64>,
) -> Result<(), AllocError>
    ensures { OnOk result (map view values.new.items ≡ map view values.old.items ++ change_item signed lock before later) }
{
    if is_same(before, later) {
        return Ok(());
    }
    let change = change_of(alloc, signed, lock, before, later)?;
    values.push(change)?;
    Ok(())
}

/// The cells at these locks that are changed, keys and numbers signed or not.
pub fn changes_of(
    alloc: Global,
    signed: bool,
    locks: &[Held],
    before: &Cells,
    later: &Cells,
) -> Result<Json, AllocError>
    ensures { IfOk result (λ v. view v ≡ array_of (change_items signed before.now.cells later.now.cells (pairs locks.now))) }
{
    let mut values = Vec::new(alloc);
    for held in locks {
        let lock = held.lock;
        push_change(
            alloc,
            signed,
            &mut values,
            lock,
            before.get(lock),
            later.get(lock),
        )?;
    }
    Ok(Json::from(values))
}

#[tactic(auto, unfolding(crate::specs::EffectsJson::effects_data))]
fn effects_of(
    alloc: Global,
    signed: bool,
    executed: &Executed,
    before: &Cells,
    later: &Cells,
) -> Result<Json, AllocError>
    ensures { IfOk result (λ v. view v ≡ effects_data signed (record { receipt = executed.now.receipt; touched = executed.now.touched }) before.now.cells later.now.cells) }
{
    let held = executed.touched.lock_modes();
    let members = Map::new(alloc);
    let members = with_member(alloc, members, "locks", locks_of(alloc, signed, held)?)?;
    let changes = changes_of(alloc, signed, held, before, later)?;
    let members = with_member(alloc, members, "changes", changes)?;
    let members = with_receipt(alloc, members, executed.receipt)?;
    Ok(Json::from(members))
}

/// The line of a call that was executed over the cells `before` and left the cells `later`: an object with its receipt, the locks that it asked for with
/// their modes, and the cells at them that it changed, keys and numbers of cells signed or not.
pub(crate) fn effects_line_of(
    alloc: Global,
    signed: bool,
    executed: &Executed,
    before: &Cells,
    later: &Cells,
) -> Result<String, AllocError>
    ensures { IfOk result (λ text. IsLineOf (IsJson (effects_data signed (record { receipt = executed.now.receipt; touched = executed.now.touched }) before.now.cells later.now.cells)) (string_bytes text)) }
{
    let value = effects_of(alloc, signed, executed, before, later)?;
    value_line(alloc, &value)
}
