//! The wave of each position: the length of the longest path to it.

ghost use Rattle.std.specs.Prelude.{◌≡◌, ◌<◌, ◌^◌, ℕ, length, slice_index, IfOk, OnOk};
ghost use Rattle.std.specs.BTreeMap.{get};
ghost use Rattle.std.specs.List.{Contains};
ghost use Rattle.spec_ledger.specs.declared.Entry.{Entry};
ghost use Rattle.spec_block.specs.Schedule.{AreApart, HaveTurns, IsWave};
ghost use Rattle.lock_profile.specs.LockTurns.{turn_cmp};
ghost use Rattle.schedule.specs.Waves.{least_of, AreRaised, IsGreatest};

use lock_profile::{LockTurn, Profile};
use spec_ledger::Entry;
use std::alloc::Allocator;
use std::collections::BTreeMap;
use wtypes::NoMemory;

/// The least wave that is left to who has a lock at this turn.
fn least_at<A: Allocator>(least: &BTreeMap<LockTurn, u32, A>, at: LockTurn) -> u32
    ensures { result ≡ least_of (get turn_cmp least.now) at }
{
    match least.get(&at) {
        None => 0,
        Some(wave) => *wave,
    }
}

/// The wave of a position with these entries: the greatest of those that are left to it.
fn wave_of<A: Allocator>(least: &BTreeMap<LockTurn, u32, A>, entries: &[Entry]) -> u32
    ensures { IsGreatest (least_of (get turn_cmp least.now)) entries.now result }
{
    let mut wave = 0;
    for entry in entries {
        let own = LockTurn {
            lock: entry.lock,
            turn: entry.turn as u64,
        };
        let left = least_at(least, own);
        if wave < left {
            wave = left;
        }
    }
    wave
}

/// Leaves no wave below this one to those that have the next turn at the locks of these entries.
fn raise<A: Allocator + Copy>(
    least: &mut BTreeMap<LockTurn, u32, A>,
    entries: &[Entry],
    wave: u32,
) -> Result<(), NoMemory>
    requires { (e : Entry) → Contains entries.now e → e.turn < 2 ^ 16 }
    ensures { OnOk result (AreRaised entries.now wave (least_of (get turn_cmp least.old)) (least_of (get turn_cmp least.new))) }
{
    for entry in entries {
        let next = LockTurn {
            lock: entry.lock,
            turn: entry.turn as u64 + 1,
        };
        if least_at(least, next) < wave {
            least.insert(next, wave)?;
        }
    }
    Ok(())
}

/// The wave of each position of these profiles, the length of the longest path to it. Positions of one wave go together at every lock.
///
/// # Errors
///
/// The allocator refused memory.
pub fn waves_of<A: Allocator + Copy>(
    alloc: A,
    profiles: &[Profile<A>],
) -> Result<Vec<u32, A>, NoMemory>
    requires few { length profiles.now < 2 ^ 16 }
    requires turns { HaveTurns profiles.now }
    ensures each_wave { IfOk result (λ waves. length waves.items ≡ length profiles.now) }
    ensures waves { IfOk result (λ waves. (i : ℕ) → i < length profiles.now → IsWave profiles.now i (slice_index waves.items i)) }
    ensures together { IfOk result (λ waves. (i j : ℕ) → i < j → j < length profiles.now → slice_index waves.items i ≡ slice_index waves.items j → ¬ (AreApart profiles.now i j)) }
{
    spec_block::paths_join();
    let mut least = BTreeMap::new(alloc);
    let mut waves = Vec::new(alloc);
    for profile in profiles {
        profile.use_invariant();
        let entries = profile.entries();
        let wave = wave_of(&least, entries);
        raise(&mut least, entries, wave + 1)?;
        waves.push(wave)?;
    }
    Ok(waves)
}
