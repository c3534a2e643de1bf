//! The greatest weight of a path to each position.

ghost use Rattle.std.specs.Prelude.{◌≡◌, ◌<◌, ◌≤◌, ◌^◌, ◌↔◌, ◌+◌, ◌∷◌, [], ℕ, Some, None, IfOk, OnOk, IfSome, IsSome, IsTrue, length, slice_index, MatchOption};
ghost use Rattle.std.specs.BTreeMap.{get};
ghost use Rattle.std.specs.Option.{is_some};
ghost use Rattle.lock_profile.specs.declared.lock_turn.LockTurn.{LockTurn};
ghost use Rattle.lock_profile.specs.LockTurns.{after, turn_cmp, turn_of};
ghost use Rattle.figures.specs.Turns.{AreRaised, IsBefore, IsBest, IsPast, IsRaisedAt};
ghost use Rattle.spec_block.specs.Worlds.{profiles_in};
ghost use Rattle.figures.specs.Chains.{AreForward, AreHeaviest};

use lock_profile::{LockTurn, own_turn};
use records::Position;
use spec_ledger::Entry;
use std::alloc::Global;
use std::collections::BTreeMap;
use wtypes::NoMemory;

/// The greatest sum of a position so far that has this turn, if there is one.
fn sum_at(sums: &BTreeMap<LockTurn, u128>, at: LockTurn) -> Option<u128>
    ensures { result ≡ get turn_cmp sums.now at }
{
    match sums.get(&at) {
        None => None,
        Some(sum) => Some(*sum),
    }
}

/// The greatest sum of a position so far with the turn before this one, or 0 where there is none.
fn sum_before(sums: &BTreeMap<LockTurn, u128>, at: LockTurn) -> u128
    ensures { IsBefore (get turn_cmp sums.now) at result }
{
    if at.turn == 0 {
        return 0;
    }
    let before = LockTurn {
        lock: at.lock,
        turn: at.turn - 1,
    };
    match sum_at(sums, before) {
        None => 0,
        Some(sum) => sum,
    }
}

/// The greatest sum of the positions so far from which edges come to one with these entries, or 0 where there are none.
fn best_before(sums: &BTreeMap<LockTurn, u128>, entries: &[Entry]) -> u128
    ensures { IsBest (get turn_cmp sums.now) entries.now result }
{
    let mut best = 0;
    for entry in entries {
        let sum = sum_before(sums, own_turn(*entry));
        if best < sum {
            best = sum;
        }
    }
    best
}

/// Whether a position so far has the turn after this entry's.
fn is_past(sums: &BTreeMap<LockTurn, u128>, entry: Entry) -> bool
    ensures { result ≡ is_some (get turn_cmp sums.now (after (turn_of entry))) }
{
    let next = LockTurn {
        lock: entry.lock,
        turn: entry.turn as u64 + 1,
    };
    sum_at(sums, next).is_some()
}

/// Whether an edge goes back from a position with these entries to one so far.
fn goes_back(sums: &BTreeMap<LockTurn, u128>, entries: &[Entry]) -> bool
    ensures { IsTrue result ↔ IsPast (get turn_cmp sums.now) entries.now }
{
    for entry in entries {
        if is_past(sums, *entry) {
            return true;
        }
    }
    false
}

/// Leaves no sum below this one at a turn.
fn raise_at(sums: &mut BTreeMap<LockTurn, u128>, at: LockTurn, sum: u128) -> Result<(), NoMemory>
    ensures { OnOk result (IsRaisedAt at sum (get turn_cmp sums.old) (get turn_cmp sums.new)) }
{
    if let Some(old) = sum_at(sums, at) {
        if sum <= old {
            return Ok(());
        }
    }
    sums.insert(at, sum)?;
    Ok(())
}

/// Leaves no sum below this one at the turns of these entries.
fn raise(sums: &mut BTreeMap<LockTurn, u128>, entries: &[Entry], sum: u128) -> Result<(), NoMemory>
    ensures { OnOk result (AreRaised entries.now sum (get turn_cmp sums.old) (get turn_cmp sums.new)) }
{
    for entry in entries {
        raise_at(sums, own_turn(*entry), sum)?;
    }
    Ok(())
}

/// What a position weighs.
fn weight_at(weights: &[u64], at: usize) -> u64
    requires { at < length weights.now }
    ensures is { result ≡ slice_index weights.now at }
    ensures small { result < 2 ^ 64 }
{
    weights[at]
}

/// For each position the greatest weight of a path to it, where each edge goes forward in the order. It takes n log n steps for n
/// entries in all.
pub(crate) fn sums_of(
    alloc: Global,
    positions: &[Position],
    weights: &[u64],
) -> Result<Option<Vec<u128>>, NoMemory>
    requires few { length positions.now < 2 ^ 16 }
    requires each { length weights.now ≡ length positions.now }
    ensures forward { IfOk result (λ sums. IsSome sums ↔ AreForward (profiles_in positions.now)) }
    ensures each { IfOk result (λ sums. IfSome sums (λ list. length list.items ≡ length positions.now)) }
    ensures sums { IfOk result (λ sums. IfSome sums (AreHeaviest (profiles_in positions.now) weights.now)) }
{
    let mut sums = BTreeMap::new(alloc);
    let mut list = Vec::new(alloc);
    for (at, position) in positions.iter().enumerate() {
        let profile = position.profile();
        profile.use_invariant();
        let entries = profile.entries();
        if goes_back(&sums, entries) {
            return Ok(None);
        }
        let weight = weight_at(weights, at);
        let sum = best_before(&sums, entries) + weight as u128;
        raise(&mut sums, entries, sum)?;
        list.push(sum)?;
    }
    Ok(Some(list))
}
