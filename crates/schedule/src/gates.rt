//! The gates of an order: one before each turn of a lock, which the positions with the turn before hold shut.

ghost use Rattle.std.specs.Prelude.{◌≡◌, ◌∷◌, [], ◌++◌, ◌+◌, ◌<◌, ◌^◌, ◌↔◌, ◌⊎◌, ℕ, Some, None, length, OnOk, IfOk, if◌then◌else◌};
ghost use Rattle.std.specs.BTreeMap.{get};
ghost use Rattle.std.specs.Ordering.{eq_by_cmp};
ghost use Rattle.std.specs.List.{Contains};
ghost use Rattle.spec_ledger.specs.declared.Entry.{Entry};
ghost use Rattle.lock_profile.specs.Turns.{IsProfile};
ghost use Rattle.spec_block.specs.Schedule.{HaveTurns};
ghost use Rattle.lock_profile.specs.declared.lock_turn.LockTurn.{LockTurn};
ghost use Rattle.schedule.specs.Graph.{AreGates, gathered};
ghost use Rattle.lock_profile.specs.LockTurns.{turn_cmp};
ghost use Rattle.schedule.specs.Turns.{behind_turn, AreHeld, AreNumbered, IsAt, IsHeld, IsHolder};

use crate::numbers::{Numbers, rising};
use lock_profile::{LockTurn, Profile};
use spec_ledger::Entry;
use std::alloc::{Allocator, Global};
use std::collections::BTreeMap;
use wtypes::NoMemory;

/// The gates of an order. A gate stands before each turn of a lock: the positions with that turn stand behind it, and those with the
/// turn before hold it shut until they have ended. So an edge goes from each that holds a gate shut to each behind it, and the
/// two lists have a number for each entry of a profile.
#[derive(Drop)]
pub(crate) struct Gates<A: Allocator = Global> {
    /// By position the gates that it holds shut.
    pub(crate) holds: Vec<Numbers<A>, A>,
    /// By gate the positions behind it.
    pub(crate) behind: Vec<Numbers<A>, A>,
}

/// The gate before a turn. One that has no gate gets the next number, and no position stands behind it.
fn gate_of<A: Allocator + Copy>(
    alloc: A,
    numbers: &mut BTreeMap<LockTurn, u32, A>,
    behind: &mut Vec<Numbers<A>, A>,
    positions: u32,
    at: LockTurn,
) -> Result<u32, NoMemory>
    requires { AreNumbered (get turn_cmp numbers.old) behind.old.items positions }
    ensures numbered { OnOk result (AreNumbered (get turn_cmp numbers.new) behind.new.items positions) }
    ensures own { IfOk result (λ gate. get turn_cmp numbers.new at ≡ Some gate) }
    ensures same { OnOk result ((q : LockTurn) → behind_turn (get turn_cmp numbers.new) behind.new.items q ≡ behind_turn (get turn_cmp numbers.old) behind.old.items q) }
{
    if let Some(gate) = numbers.get(&at) {
        return Ok(*gate);
    }
    let count = behind.len();
    if count >= u32::MAX as usize {
        return Err(NoMemory);
    }
    let gate = count as u32;
    numbers.insert(at, gate)?;
    behind.push(Numbers::new(alloc))?;
    Ok(gate)
}

/// Sets a position behind the gate before a turn.
fn put<A: Allocator + Copy>(
    alloc: A,
    numbers: &mut BTreeMap<LockTurn, u32, A>,
    behind: &mut Vec<Numbers<A>, A>,
    at: LockTurn,
    position: u32,
) -> Result<(), NoMemory>
    requires few { position < 2 ^ 16 }
    requires numbered { AreNumbered (get turn_cmp numbers.old) behind.old.items (position + 1) }
    requires after { (j : ℕ) → Contains (behind_turn (get turn_cmp numbers.old) behind.old.items at) j → j < position }
    ensures numbered { OnOk result (AreNumbered (get turn_cmp numbers.new) behind.new.items (position + 1)) }
    ensures put { OnOk result ((q : LockTurn) → behind_turn (get turn_cmp numbers.new) behind.new.items q ≡ (if eq_by_cmp turn_cmp at q then behind_turn (get turn_cmp numbers.old) behind.old.items at ++ position ∷ [] else behind_turn (get turn_cmp numbers.old) behind.old.items q)) }
{
    let gate = gate_of(alloc, numbers, behind, position + 1, at)?;
    behind[gate as usize].push(position)?;
    Ok(())
}

/// Sets a position behind the gates before the turns of its entries.
fn put_profile<A: Allocator + Copy>(
    alloc: A,
    numbers: &mut BTreeMap<LockTurn, u32, A>,
    behind: &mut Vec<Numbers<A>, A>,
    entries: &[Entry],
    position: u32,
) -> Result<(), NoMemory>
    requires few { position < 2 ^ 16 }
    requires profile { IsProfile entries.now }
    requires numbered { AreNumbered (get turn_cmp numbers.old) behind.old.items position }
    ensures numbered { OnOk result (AreNumbered (get turn_cmp numbers.new) behind.new.items (position + 1)) }
    ensures put { OnOk result ((q : LockTurn) (p : ℕ) → Contains (behind_turn (get turn_cmp numbers.new) behind.new.items q) p ↔ (Contains (behind_turn (get turn_cmp numbers.old) behind.old.items q) p ⊎ ((p ≡ position) × IsAt q entries.now))) }
{
    for entry in entries {
        let at = LockTurn {
            lock: entry.lock,
            turn: entry.turn as u64,
        };
        put(alloc, numbers, behind, at, position)?;
    }
    Ok(())
}

/// The positions behind each gate, and the number of the gate before each turn that a position has.
fn behind_of<A: Allocator + Copy>(
    alloc: A,
    numbers: &mut BTreeMap<LockTurn, u32, A>,
    profiles: &[Profile<A>],
) -> Result<Vec<Numbers<A>, A>, NoMemory>
    requires few { length profiles.now < 2 ^ 16 }
    requires none { (q : LockTurn) → get turn_cmp numbers.old q ≡ None }
    ensures numbered { IfOk result (λ behind. AreNumbered (get turn_cmp numbers.new) behind.items (length profiles.now)) }
    ensures holders { IfOk result (λ behind. (q : LockTurn) (p : ℕ) → Contains (behind_turn (get turn_cmp numbers.new) behind.items q) p ↔ IsHolder profiles.now q p) }
{
    let mut behind = Vec::new(alloc);
    for (position, profile) in profiles.iter().enumerate() {
        profile.use_invariant();
        put_profile(
            alloc,
            numbers,
            &mut behind,
            profile.entries(),
            position as u32,
        )?;
    }
    Ok(behind)
}

/// The gates before the next turns at the locks of these entries, in any order.
fn next_gates<A: Allocator + Copy>(
    alloc: A,
    numbers: &BTreeMap<LockTurn, u32, A>,
    entries: &[Entry],
) -> Result<Vec<u32, A>, NoMemory>
    requires { (e : Entry) → Contains entries.now e → e.turn < 2 ^ 16 }
    ensures { IfOk result (λ list. (gate : ℕ) → Contains list.items gate ↔ IsHeld (get turn_cmp numbers.now) entries.now gate) }
{
    let mut list = Vec::new(alloc);
    for entry in entries {
        let next = LockTurn {
            lock: entry.lock,
            turn: entry.turn as u64 + 1,
        };
        if let Some(gate) = numbers.get(&next) {
            list.push(*gate)?;
        }
    }
    Ok(list)
}

/// The gates that each position holds shut.
fn holds_of<A: Allocator + Copy>(
    alloc: A,
    numbers: &BTreeMap<LockTurn, u32, A>,
    profiles: &[Profile<A>],
) -> Result<Vec<Numbers<A>, A>, NoMemory>
    requires few { length profiles.now < 2 ^ 16 }
    requires turns { HaveTurns profiles.now }
    ensures { IfOk result (λ holds. AreHeld profiles.now (get turn_cmp numbers.now) holds.items (length profiles.now)) }
{
    let mut holds = Vec::new(alloc);
    for profile in profiles {
        profile.use_invariant();
        let gates = next_gates(alloc, numbers, profile.entries())?;
        holds.push(Numbers::from_list(rising(gates)))?;
    }
    Ok(holds)
}

/// The gates of these profiles.
pub(crate) fn gates_of<A: Allocator + Copy>(
    alloc: A,
    profiles: &[Profile<A>],
) -> Result<Gates<A>, NoMemory>
    requires few { length profiles.now < 2 ^ 16 }
    requires turns { HaveTurns profiles.now }
    ensures { IfOk result (λ gates. AreGates profiles.now gates.holds.items gates.behind.items) }
{
    let mut numbers = BTreeMap::new(alloc);
    let behind = behind_of(alloc, &mut numbers, profiles)?;
    let holds = holds_of(alloc, &numbers, profiles)?;
    Ok(Gates { holds, behind })
}

/// The positions behind these gates, as often as they stand there.
pub(crate) fn all_behind<A: Allocator + Copy>(
    alloc: A,
    behind: &[Numbers<A>],
    gates: &[u32],
) -> Result<Vec<u32, A>, NoMemory>
    requires { (gate : ℕ) → Contains gates.now gate → gate < length behind.now }
    ensures { IfOk result (λ list. list.items ≡ gathered behind.now gates.now) }
{
    let mut list = Vec::new(alloc);
    for gate in gates {
        list.extend_from_slice(behind[*gate as usize].as_slice())?;
    }
    Ok(list)
}

/// The same lists once more.
fn copy_of<A: Allocator + Copy>(
    alloc: A,
    lists: &[Numbers<A>],
) -> Result<Vec<Numbers<A>, A>, NoMemory>
    ensures { IfOk result (λ copy. copy.items ≡ lists.now) }
{
    let mut copy = Vec::new(alloc);
    for numbers in lists {
        copy.push(numbers.copy(alloc)?)?;
    }
    Ok(copy)
}

impl<A: Allocator + Copy> Gates<A> {
    /// The same gates once more.
    pub(crate) fn copy(&self, alloc: A) -> Result<Self, NoMemory>
        ensures holds { IfOk result (λ copy. copy.holds.items ≡ self.now.holds.items) }
        ensures behind { IfOk result (λ copy. copy.behind.items ≡ self.now.behind.items) }
    {
        let holds = copy_of(alloc, &self.holds)?;
        let behind = copy_of(alloc, &self.behind)?;
        Ok(Gates { holds, behind })
    }
}
