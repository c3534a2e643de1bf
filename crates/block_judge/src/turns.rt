//! Whether the turns of a block are those of its modes in its order.

ghost use Rattle.std.specs.Prelude.{◌≡◌, ◌≤◌, ◌<◌, ◌^◌, ◌↔◌, ℕ, All, IfErr, IfNone, IfOk, IfSome, IsTrue, List, OnOk, Some, if◌then◌else◌, length};
ghost use Rattle.std.specs.BTreeMap.{get};
ghost use Rattle.std.specs.Ordering.{eq_by_cmp};
ghost use Rattle.spec_ledger.specs.Cells.{lock_cmp};
ghost use Rattle.lock_profile.specs.Groups.{turn_next};
ghost use Rattle.lock_profile.specs.Turns.{IsProfile};
ghost use Rattle.spec_block.specs.Worlds.{Call as TheCall, World as TheWorld, profiles_of, profiles_in};
ghost use Rattle.spec_block.specs.Schedule.{HaveTurns};
ghost use Rattle.spec_block.specs.Verdicts.{HasOtherTurns, HoldsOf, IsLeast};
ghost use Rattle.block_judge.specs.Latest.{latest};
ghost use Rattle.block_judge.specs.Judging.{IfRejected, IsFirstFrom, NoneFrom};

use crate::reason::{JudgeRefusal, Reason};
use block::{Block, Position};
use lock_profile::Group;
use spec_ledger::{Entry, Lock, goes_with};
use std::alloc::Allocator;
use std::collections::BTreeMap;
use wtypes::NoMemory;

/// Whether an entry has the turn of a holder that comes after the last group of its lock.
fn follows(last: Option<Group>, entry: Entry) -> bool
    ensures { IsTrue result ↔ (entry.turn ≡ turn_next last entry.mode) }
{
    match last {
        None => entry.turn == 0,
        Some(group) if goes_with(group.mode, entry.mode) => entry.turn == group.turn,
        Some(group) => entry.turn > group.turn && entry.turn - group.turn == 1,
    }
}

/// Writes the group that an entry is in, and gives the one that was the last of its lock.
fn replace<A: Allocator + Copy>(
    groups: &mut BTreeMap<Lock, Group, A>,
    entry: Entry,
) -> Result<Option<Group>, NoMemory>
    ensures last { IfOk result (λ last. last ≡ get lock_cmp groups.old entry.lock) }
    ensures groups { OnOk result ((q : Lock) → get lock_cmp groups.new q ≡ (if eq_by_cmp lock_cmp entry.lock q then Some (record { mode = entry.mode; turn = entry.turn }) else get lock_cmp groups.old q)) }
{
    let group = Group {
        mode: entry.mode,
        turn: entry.turn,
    };
    match groups.insert(entry.lock, group) {
        Ok(last) => Ok(last),
        Err(_) => Err(NoMemory),
    }
}

/// Whether the entries of a position have the turns of holders that come after the last groups of their locks. Where they do, the groups that they are in are the last.
fn have_turns<A: Allocator + Copy>(
    groups: &mut BTreeMap<Lock, Group, A>,
    entries: &[Entry],
) -> Result<bool, NoMemory>
    requires { IsProfile entries.now }
    ensures turns { IfOk result (λ have. IsTrue have ↔ All (λ e. e.turn ≡ turn_next (get lock_cmp groups.old e.lock) e.mode) entries.now) }
    ensures groups { IfOk result (λ have. IsTrue have → (q : Lock) → get lock_cmp groups.new q ≡ latest q entries.now (get lock_cmp groups.old q)) }
{
    for entry in entries {
        let last = replace(groups, *entry)?;
        if !follows(last, *entry) {
            return Ok(false);
        }
    }
    Ok(true)
}

/// The least position with an entry that has another turn than its mode gives it in the order.
fn first_other<A: Allocator + Copy>(
    alloc: A,
    positions: &[Position<A>],
) -> Result<Option<u32>, NoMemory>
    requires few { length positions.now < 2 ^ 32 }
    ensures other { IfOk result (λ found. IfSome found (IsLeast (HasOtherTurns (profiles_in positions.now)))) }
    ensures same { IfOk result (λ found. IfNone found (HaveTurns (profiles_in positions.now))) }
{
    let mut groups = BTreeMap::new(alloc);
    for (at, position) in positions.iter().enumerate() {
        let profile = position.profile();
        profile.use_invariant();
        if !have_turns(&mut groups, profile.entries())? {
            return Ok(Some(at as u32));
        }
    }
    Ok(None)
}

/// Judges the turns of a block.
///
/// # Errors
///
/// The turns are others (reason 7); or memory was refused.
pub fn judge_turns<A: Allocator + Copy>(alloc: A, block: &Block<A>) -> Result<(), JudgeRefusal>
    requires { length (profiles_of block.now) ≤ 65535 }
    ensures rejected { (world : TheWorld) (calls : List TheCall) (fuel : ℕ) → NoneFrom (HoldsOf world calls fuel block.now) 1 7 → IfErr result (λ unfit. IfRejected unfit (IsFirstFrom (HoldsOf world calls fuel block.now) 1)) }
    ensures passed { OnOk result ((world : TheWorld) (calls : List TheCall) (fuel : ℕ) → NoneFrom (HoldsOf world calls fuel block.now) 1 7 → NoneFrom (HoldsOf world calls fuel block.now) 1 8) }
    ensures turns { OnOk result (HaveTurns (profiles_of block.now)) }
{
    match first_other(alloc, block.positions())? {
        Some(position) => Err(JudgeRefusal::Rejected(Reason::BadTurns(position))),
        None => Ok(()),
    }
}
