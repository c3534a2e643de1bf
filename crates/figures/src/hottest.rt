//! The locks that the most positions hold.

ghost use Rattle.std.specs.Prelude.{◌≡◌, ◌⊎◌, ◌<◌, ◌≤◌, ◌^◌, ◌↔◌, ◌+◌, ℕ, Some, None, IfOk, OnOk, IfSome, IsSome, IsTrue, length, if◌then◌else◌};
ghost use Rattle.std.specs.BTreeMap.{get};
ghost use Rattle.std.specs.List.{Contains};
ghost use Rattle.spec_ledger.specs.declared.Lock.{Lock as TheLock};
ghost use Rattle.spec_ledger.specs.Cells.{lock_cmp};
ghost use Rattle.lock_profile.specs.Turns.{IsProfile};
ghost use Rattle.spec_block.specs.Worlds.{profiles_in};
ghost use Rattle.figures.specs.Hottest.{holders, AreHottest, IsHotter, IsShared};
ghost use Rattle.figures.specs.Counting.{held_by, number_at, AreFirst, IsBehind, IsBetter, IsNext, IsSooner, IsTold};
ghost use Rattle.figures.specs.declared.hottest.SharedLock.{SharedLock as TheShared};

use records::Position;
use spec_ledger::{Entry, Lock};
use std::alloc::Global;
use std::cmp::Ordering;
use std::collections::BTreeMap;
use wtypes::NoMemory;

/// A lock that several positions hold.
#[derive(Clone, Copy, Debug, PartialEq, Eq)]
pub struct SharedLock {
    /// The lock.
    pub lock: Lock,
    /// How many positions hold it.
    pub positions: u32,
}

/// The most locks that are told.
pub const MOST_HOTTEST: usize = 10;

/// How many of the positions so far hold a lock.
fn number_of(counts: &BTreeMap<Lock, u32>, lock: Lock) -> u32
    ensures { result ≡ number_at (get lock_cmp counts.now) lock }
{
    match counts.get(&lock) {
        None => 0,
        Some(count) => *count,
    }
}

/// Counts one more position with these entries.
fn count_entries(counts: &mut BTreeMap<Lock, u32>, entries: &[Entry]) -> Result<(), NoMemory>
    requires room { (lock : TheLock) → number_at (get lock_cmp counts.old) lock < 2 ^ 16 }
    requires profile { IsProfile entries.now }
    ensures { OnOk result ((lock : TheLock) → number_at (get lock_cmp counts.new) lock ≡ number_at (get lock_cmp counts.old) lock + held_by lock entries.now) }
{
    for entry in entries {
        let count = number_of(counts, entry.lock);
        counts.insert(entry.lock, count + 1)?;
    }
    Ok(())
}

/// How many positions hold each lock.
fn counts_of(alloc: Global, positions: &[Position]) -> Result<BTreeMap<Lock, u32>, NoMemory>
    requires { length positions.now < 2 ^ 16 }
    ensures { IfOk result (λ counts. (lock : TheLock) → number_at (get lock_cmp counts) lock ≡ holders (profiles_in positions.now) lock) }
{
    let mut counts = BTreeMap::new(alloc);
    for position in positions {
        let profile = position.profile();
        profile.use_invariant();
        count_entries(&mut counts, profile.entries())?;
    }
    Ok(counts)
}

/// Puts those of these entries' locks that several positions hold at the end.
fn push_shared(
    shared: &mut Vec<SharedLock>,
    counts: &BTreeMap<Lock, u32>,
    entries: &[Entry],
) -> Result<(), NoMemory>
    ensures { OnOk result ((s : TheShared) → Contains shared.new.items s ↔ (Contains shared.old.items s ⊎ IsTold (number_at (get lock_cmp counts.now)) entries.now s)) }
{
    for entry in entries {
        let positions = number_of(counts, entry.lock);
        if positions >= 2 {
            shared.push(SharedLock {
                lock: entry.lock,
                positions,
            })?;
        }
    }
    Ok(())
}

/// The locks that several positions hold, in any order and as often as they are held.
fn shared_of(
    alloc: Global,
    positions: &[Position],
    counts: &BTreeMap<Lock, u32>,
) -> Result<Vec<SharedLock>, NoMemory>
    requires { (lock : TheLock) → number_at (get lock_cmp counts.now) lock ≡ holders (profiles_in positions.now) lock }
    ensures { IfOk result (λ shared. (s : TheShared) → Contains shared.items s ↔ IsShared (profiles_in positions.now) s) }
{
    let mut shared = Vec::new(alloc);
    for position in positions {
        push_shared(&mut shared, counts, position.profile().entries())?;
    }
    Ok(shared)
}

/// Whether the first lock is told before the second.
fn is_hotter(a: SharedLock, b: SharedLock) -> bool
    ensures { IsTrue result ↔ IsHotter a b }
{
    if a.positions == b.positions {
        matches!(a.lock.cmp(&b.lock), Ordering::Less)
    } else {
        b.positions < a.positions
    }
}

/// Whether a lock is told after the last one.
fn is_behind(last: Option<SharedLock>, s: SharedLock) -> bool
    ensures { IsTrue result ↔ IsBehind last s }
{
    match last {
        None => true,
        Some(before) => is_hotter(before, s),
    }
}

/// Whether a lock comes sooner than the best so far.
fn is_sooner(best: Option<SharedLock>, s: SharedLock) -> bool
    ensures { IsTrue result ↔ IsSooner best s }
{
    match best {
        None => true,
        Some(other) => is_hotter(s, other),
    }
}

/// The sooner of the best so far and of a lock that is told after the last one.
fn better(last: Option<SharedLock>, best: Option<SharedLock>, s: SharedLock) -> Option<SharedLock>
    ensures { IsBetter last best s result }
{
    if !is_behind(last, s) {
        return best;
    }
    if !is_sooner(best, s) {
        return best;
    }
    Some(s)
}

/// The hottest of these locks behind the last one.
fn next_hottest(shared: &[SharedLock], last: Option<SharedLock>) -> Option<SharedLock>
    ensures { IsNext shared.now last result }
{
    let mut best = None;
    for s in shared {
        best = better(last, best, *s);
    }
    best
}

/// The ten hottest of these locks, the hottest first, each once.
fn first_ten(alloc: Global, shared: &[SharedLock]) -> Result<Vec<SharedLock>, NoMemory>
    ensures { IfOk result (λ list. AreFirst shared.now list.items) }
{
    let mut hottest = Vec::new(alloc);
    let mut last = None;
    for _ in 0..MOST_HOTTEST {
        let Some(next) = next_hottest(shared, last) else {
            return Ok(hottest);
        };
        hottest.push(next)?;
        last = Some(next);
    }
    Ok(hottest)
}

/// The ten locks that the most positions hold, the hottest first.
pub(crate) fn hottest_of(alloc: Global, positions: &[Position]) -> Result<Vec<SharedLock>, NoMemory>
    requires { length positions.now < 2 ^ 16 }
    ensures { IfOk result (λ list. AreHottest (profiles_in positions.now) list.items) }
{
    let counts = counts_of(alloc, positions)?;
    let shared = shared_of(alloc, positions, &counts)?;
    first_ten(alloc, &shared)
}
