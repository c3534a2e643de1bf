//! The turns that the modes of a block have in its order.

ghost use Rattle.std.specs.Prelude.{◌≡◌, ◌<◌, ◌^◌, IfOk, length, map};
ghost use Rattle.std.specs.FinMap.{entries};
ghost use Rattle.spec_block.specs.Worlds.{held_in, profiles_in};
ghost use Rattle.lock_profile.specs.Groups.{pairs};
ghost use Rattle.wblock_picture.specs.Drawings.{AreTakenTurns, Take};

use block::Position;
use lock_profile::{Held, Profile, Touched, turns};
use schedule::turns_agree;
use spec_ledger::Entry;
use std::alloc::Global;
use wtypes::NoMemory;

/// The locks of a profile with their modes.
fn held_of(alloc: Global, entries: &[Entry]) -> Result<Vec<Held>, NoMemory>
    ensures { IfOk result (λ held. pairs held.items ≡ held_in entries.now) }
{
    let mut held = Vec::new(alloc);
    for entry in entries {
        held.push(Held {
            lock: entry.lock,
            mode: entry.mode,
        })?;
    }
    Ok(held)
}

/// What a position takes: the map of its locks to their modes.
fn taken_by(alloc: Global, position: &Position) -> Result<Touched, NoMemory>
    ensures { IfOk result (λ touched. entries touched ≡ held_in position.now.profile) }
{
    let profile = position.profile();
    profile.use_invariant();
    let held = held_of(alloc, profile.entries())?;
    let Some(touched) = Touched::from_sorted(held) else {
        unreachable!()
    };
    Ok(touched)
}

/// What each position takes.
fn all_taken(alloc: Global, positions: &[Position]) -> Result<Vec<Touched>, NoMemory>
    ensures each { IfOk result (λ touched. length touched.items ≡ length positions.now) }
    ensures taken { IfOk result (λ touched. Take (profiles_in positions.now) touched.items) }
{
    let mut touched = Vec::new(alloc);
    for position in positions {
        touched.push(taken_by(alloc, position)?)?;
    }
    Ok(touched)
}

/// The profiles of positions with the turns that their modes have in this order, whatever turns they publish.
pub(crate) fn turns_taken(alloc: Global, positions: &[Position]) -> Result<Vec<Profile>, NoMemory>
    requires { length positions.now < 2 ^ 16 }
    ensures { IfOk result (λ profiles. AreTakenTurns (profiles_in positions.now) profiles.items) }
{
    let touched = all_taken(alloc, positions)?;
    let profiles = turns(alloc, &touched)?;
    turns_agree();
    Ok(profiles)
}
