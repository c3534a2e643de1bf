//! One call alone over a world: its receipt, and the cells that it asked for.

ghost use Rattle.std.specs.Prelude.{◌≡◌, ◌≤◌, IfOk, IfErr, length, map};
ghost use Rattle.lock_profile.specs.Groups.{pair_of, pairs};
ghost use Rattle.world.specs.Views.{world_view};
ghost use Rattle.embed.specs.Given.{IsEffect, IsEffectOf, Runs, change_at};
ghost use Rattle.embed.specs.Refusals.{IfRefused, LacksCall, RefusesCalled};

use crate::failure::{Failure, Subject, refused};
use crate::inputs::{calls_of, world_of};
use call::Call;
use lock_profile::Held;
use serial::execute;
use spec_execution::an_execution_has_a_read_write_set;
use spec_ledger::{Lock, Mode, Receipt, Version};
use std::alloc::{AllocError, Global};
use storage::Cells;
use world::World;
use wtypes::NoMemory;

/// A cell that a call asked for.
#[derive(Clone, Copy, Debug, PartialEq, Eq)]
pub struct Change {
    /// The lock that guards it.
    pub lock: Lock,
    /// The join of the modes that the call asked for.
    pub mode: Mode,
    /// What the cell held, if it was there.
    pub before: Option<u64>,
    /// What it holds then, if it is there.
    pub later: Option<u64>,
}

/// What a call alone came to.
#[derive(Debug, Drop)]
pub struct Effects {
    /// Its receipt.
    pub receipt: Receipt,
    /// Each cell that it asked for, in the order of locks.
    pub changes: Vec<Change>,
}

/// The cell at a lock that a call asked for, before and after it.
fn change_at(held: Held, before: &Cells, later: &Cells) -> Change
    ensures { result ≡ change_at before.now.cells later.now.cells (pair_of held) }
{
    Change {
        lock: held.lock,
        mode: held.mode,
        before: before.get(held.lock),
        later: later.get(held.lock),
    }
}

/// The cells at these locks, before and after a call.
fn changes_at(
    alloc: Global,
    locks: &[Held],
    before: &Cells,
    later: &Cells,
) -> Result<Vec<Change>, AllocError>
    ensures { IfOk result (λ all. all.items ≡ map (change_at before.now.cells later.now.cells) (pairs locks.now)) }
{
    let mut all = Vec::new(alloc);
    for held in locks {
        all.push(change_at(*held, before, later))?;
    }
    Ok(all)
}

/// What a call comes to over the cells of a world, by the rules of version 2. The world is as it was.
fn effects_of(alloc: Global, world: &World, call: &Call) -> Result<Effects, NoMemory>
    ensures { IfOk result (λ e. IsEffect (world_view world.now) call.now e.receipt e.changes.items) }
{
    an_execution_has_a_read_write_set();
    let before = world.cells();
    before.use_invariant();
    let mut later = before.copy(alloc)?;
    let executed = execute(alloc, world.contracts(), call, &mut later, Version::Two)?;
    let changes = changes_at(alloc, executed.touched.lock_modes(), before, &later)?;
    Ok(Effects {
        receipt: executed.receipt,
        changes,
    })
}

/// The failure of a list that has no call of this number.
fn lack_call(alloc: Global, calls: &[Call], number: u32) -> Failure
    requires { length calls.now ≤ number }
    ensures { IfRefused result (LacksCall calls.now number) }
{
    let count = calls.len();
    refused(
        Subject::Calls,
        3,
        Some(count as u64),
        format!(in alloc;
            "calls: there is no call {number}, since the text has {count}; name one below that, from 0"
        ),
    )
}

/// What the call of this number of a list comes to alone over the cells of a world; or that there is none.
fn run_listed(alloc: Global, world: &World, calls: &[Call], number: u32) -> Result<Effects, Failure>
    ensures ran { IfOk result (λ e. IsEffectOf (world_view world.now) number e.receipt e.changes.items calls.now) }
    ensures refused { IfErr result (λ f. IfRefused f (LacksCall calls.now number)) }
{
    let Some(call) = calls.get(number as usize) else {
        return Err(lack_call(alloc, calls, number));
    };
    let effects = effects_of(alloc, world, call)?;
    Ok(effects)
}

/// What the call of this number of a text comes to alone over the cells of a world.
///
/// # Errors
///
/// Why the bytes spell no world, or the text no calls; that there is no such call; or memory was refused.
pub fn call_alone(
    alloc: Global,
    world: &[u8],
    calls: &[u8],
    number: u32,
) -> Result<Effects, Failure>
    ensures ran { IfOk result (λ e. Runs world.now calls.now number e.receipt e.changes.items) }
    ensures refused { IfErr result (λ f. IfRefused f (RefusesCalled world.now calls.now number)) }
{
    let before = world_of(alloc, world)?;
    let list = calls_of(alloc, calls)?;
    run_listed(alloc, &before, &list, number)
}
