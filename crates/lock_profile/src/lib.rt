//! The lock profiles of a published order: each lock that a call held, with its mode and its turn (Dickerson, Gazzillo, Herlihy,
//! Koskinen, "Adding Concurrency to Smart Contracts", PODC 2017, section 4).
#![tactic(auto)]

ghost use Rattle.std.specs.Prelude.{◌≡◌, ◌+◌, ◌<◌, ◌≤◌, ◌^◌, ◌↔◌, ℕ, None, OnOk, IfOk, IfSome, IsSome, length, drop, ◌++◌, IsTrue};
ghost use Rattle.std.specs.Ordering.{is_lt};
ghost use Rattle.std.specs.FinMap as finite;
ghost use Rattle.spec_ledger.specs.Cells.{lock_cmp};
ghost use Rattle.lock_profile.specs.Turns.{AreTurns, IsProfile};
ghost use Rattle.lock_profile.specs.Groups.{turn_next, pairs, is_below_next, is_next_above, group_there, entry_next, numbered, all_held, AllFit, turns_after, turns_from, with_turns};

mod laws;
mod lock_turn;

pub use laws::neighbours_decide;
pub use lock_turn::{LockTurn, own_turn};
use spec_ledger::{Entry, Lock, Mode, goes_with};
use std::alloc::{Allocator, Global};
use std::cmp::Ordering;
use std::marker::Model;
use wtypes::NoMemory;

/// A lock that a call holds.
#[derive(Clone, Copy, Debug, PartialEq, Eq)]
pub struct Held {
    /// The lock.
    pub lock: Lock,
    /// The join of the modes that the call asked for.
    pub mode: Mode,
}

/// The locks that a call touched, each once with its mode. Contracts see a finite map from locks to modes.
#[derive(Drop)]
pub struct Touched<A: Allocator = Global> {
    held: Vec<Held, A>,
}

impl<A: Allocator> Model for Touched<A> {
    ghost use Rattle.std.specs.Prelude.{T};
    ghost use Rattle.std.specs.FinMap.{from_sorted, is_sorted};
    ghost use Rattle.spec_ledger.specs.Cells.{lock_cmp};
    ghost use Rattle.spec_ledger.specs.Modes.{Modes as TheModes};
    ghost use Rattle.spec_ledger.specs.Codes.{coded_modes};
    ghost use Rattle.lock_profile.specs.Groups.{pairs};

    ghost Value = { TheModes };

    ghost coded = { coded_modes };

    ghost view = { λ t. from_sorted (pairs t.held.items) };

    ghost invariant = { λ t. T (is_sorted lock_cmp (pairs t.held.items)) };
}

impl<A: Allocator> Touched<A> {
    /// The map of these locks to their modes. There is none if the locks do not strictly rise.
    pub fn from_sorted(held: Vec<Held, A>) -> Option<Self>
        ensures there { IsSome result ↔ IsTrue (finite.is_sorted lock_cmp (pairs held.items)) }
        ensures entries { IfSome result (λ touched. finite.entries touched ≡ pairs held.items) }
    {
        if locks_rise(&held) {
            Some(Touched { held })
        } else {
            None
        }
    }

    /// The locks with their modes, in lock order.
    pub fn lock_modes(&self) -> &[Held]
        ensures { pairs result.now ≡ finite.entries self.now }
    {
        &self.held
    }
}

/// A call's locks with their modes and turns, each lock once, in lock order. Contracts see the list of entries.
#[derive(Drop)]
pub struct Profile<A: Allocator = Global> {
    entries: Vec<Entry, A>,
}

impl<A: Allocator> Model for Profile<A> {
    ghost use Rattle.std.specs.Prelude.{List};
    ghost use Rattle.std.specs.Coded.{coded_list};
    ghost use Rattle.spec_ledger.specs.declared.Entry.{Entry as TheEntry};
    ghost use Rattle.spec_ledger.specs.contracts.Entry as entry;
    ghost use Rattle.lock_profile.specs.Turns.{IsProfile};

    ghost Value = { List TheEntry };

    ghost coded = { coded_list entry.the_row.coded };

    ghost view = { λ p. p.entries.items };

    ghost invariant = { λ p. IsProfile p.entries.items };
}

impl<A: Allocator> Profile<A> {
    /// The profile of these entries. There is none if their locks do not strictly rise.
    pub fn from_sorted(entries: Vec<Entry, A>) -> Option<Self>
        ensures there { IsSome result ↔ IsProfile entries.items }
        ensures is { IfSome result (λ profile. profile ≡ entries.items) }
    {
        if entries_rise(&entries) {
            Some(Profile { entries })
        } else {
            None
        }
    }

    /// The entries in lock order.
    pub fn entries(&self) -> &[Entry]
        ensures { result.now ≡ self.now }
    {
        &self.entries
    }

    /// What the type keeps: the locks strictly rise.
    pub fn use_invariant(&self)
        ensures { IsProfile self.now }
    {
        let _entries = &self.entries;
    }
}

impl<A: Allocator + Copy> Profile<A> {
    /// The same profile once more.
    pub fn copy(&self, alloc: A) -> Result<Self, NoMemory>
        ensures { IfOk result (λ copy. copy ≡ self.now) }
    {
        self.use_invariant();
        let entries = Vec::from_slice(alloc, self.entries())?;
        Ok(Profile { entries })
    }
}

fn is_below(a: Lock, b: Lock) -> bool
    ensures { result ≡ is_lt (lock_cmp a b) }
{
    matches!(a.cmp(&b), Ordering::Less)
}

fn first_rises(held: &[Held]) -> bool
    ensures { result ≡ is_below_next held.now }
{
    match held {
        [one, next, ..] => is_below(one.lock, next.lock),
        _ => true,
    }
}

fn locks_rise(held: &[Held]) -> bool
    ensures { result ≡ finite.is_sorted lock_cmp (pairs held.now) }
{
    let mut rest = held;
    while let [_, more @ ..] = rest {
        if !first_rises(rest) {
            return false;
        }
        rest = more;
    }
    true
}

fn first_entry_rises(entries: &[Entry]) -> bool
    ensures { result ≡ is_next_above entries.now }
{
    match entries {
        [one, next, ..] => is_below(one.lock, next.lock),
        _ => true,
    }
}

fn entries_rise(entries: &[Entry]) -> bool
    ensures { IsTrue result ↔ IsProfile entries.now }
{
    let mut rest = entries;
    while let [_, more @ ..] = rest {
        if !first_entry_rises(rest) {
            return false;
        }
        rest = more;
    }
    true
}

/// The last group of a lock's holders so far.
#[derive(Clone, Copy, Debug, PartialEq, Eq)]
pub struct Group {
    /// How its last holder holds the lock.
    pub mode: Mode,
    /// The number of groups before it.
    pub turn: u32,
}

/// A lock that a call of an order holds.
#[derive(Clone, Copy, Debug, PartialEq, Eq)]
pub struct Holder {
    /// The lock.
    pub lock: Lock,
    /// How the call holds it.
    pub mode: Mode,
    /// How many locks the order's calls hold before it.
    pub number: usize,
}

/// The last group of a lock's holders, where the holder before has this entry and no later lock is below its own.
fn group_at(before: Option<Entry>, lock: Lock) -> Option<Group>
    ensures { result ≡ group_there before lock }
{
    match before {
        Some(entry) => {
            if entry.lock.cmp(&lock).is_eq() {
                Some(Group {
                    mode: entry.mode,
                    turn: entry.turn,
                })
            } else {
                None
            }
        }
        None => None,
    }
}

/// The turn of a holder that comes after a lock's last group.
fn next_turn(last: Option<Group>, mode: Mode) -> u32
    requires { turn_next last mode < 2 ^ 32 }
    ensures { result ≡ turn_next last mode }
{
    match last {
        None => 0,
        Some(group) => {
            if goes_with(group.mode, mode) {
                group.turn
            } else {
                group.turn + 1
            }
        }
    }
}

/// The entry of a holder that comes after this one in the order of locks.
fn next_entry(before: Option<Entry>, holder: Holder) -> Entry
    requires { turn_next (group_there before holder.lock) holder.mode < 2 ^ 32 }
    ensures { result ≡ entry_next before holder }
{
    Entry {
        lock: holder.lock,
        mode: holder.mode,
        turn: next_turn(group_at(before, holder.lock), holder.mode),
    }
}

/// Adds the holders of a call.
fn add_holders<A: Allocator + Copy>(
    holders: &mut Vec<Holder, A>,
    held: &[Held],
) -> Result<(), NoMemory>
    ensures { OnOk result (holders.new.items ≡ holders.old.items ++ numbered (length holders.old.items) (pairs held.now)) }
{
    for one in held {
        let number = holders.len();
        holders.push(Holder {
            lock: one.lock,
            mode: one.mode,
            number,
        })?;
    }
    Ok(())
}

/// The holders of an order, in its order.
fn all_holders<A: Allocator + Copy>(
    alloc: A,
    touched: &[Touched<A>],
) -> Result<Vec<Holder, A>, NoMemory>
    ensures { IfOk result (λ holders. holders.items ≡ numbered 0 (all_held touched.now)) }
{
    let mut holders = Vec::new(alloc);
    for one in touched {
        add_holders(&mut holders, one.lock_modes())?;
    }
    Ok(holders)
}

/// Writes the turns of holders in the order of locks at their numbers.
fn write_turns(turns: &mut [u32], holders: &[Holder])
    requires { AllFit None holders.now (length turns.old) }
    ensures { turns.new ≡ turns_after None holders.now turns.old }
{
    let mut before = None;
    for holder in holders {
        let entry = next_entry(before, *holder);
        turns[holder.number] = entry.turn;
        before = Some(entry);
    }
}

/// The turns of an order's holders, in its order.
fn turns_in_order<A: Allocator + Copy>(
    alloc: A,
    touched: &[Touched<A>],
) -> Result<Vec<u32, A>, NoMemory>
    requires { length touched.now < 2 ^ 16 }
    ensures { IfOk result (λ turns. turns.items ≡ turns_from (λ _. None) (all_held touched.now)) }
{
    let mut holders = all_holders(alloc, touched)?;
    let mut turns = Vec::from_elem(alloc, 0, holders.len())?;
    holders.sort_by_key(|holder| holder.lock)?;
    write_turns(&mut turns, &holders);
    Ok(turns)
}

/// The entries of a call whose turns begin at this place.
fn entries_with<A: Allocator + Copy>(
    alloc: A,
    held: &[Held],
    turns: &[u32],
    start: usize,
) -> Result<Vec<Entry, A>, NoMemory>
    requires { start + length held.now ≤ length turns.now }
    ensures { IfOk result (λ entries. entries.items ≡ with_turns (pairs held.now) (drop start turns.now)) }
{
    let mut entries = Vec::new(alloc);
    let mut place = start;
    for one in held {
        entries.push(Entry {
            lock: one.lock,
            mode: one.mode,
            turn: turns[place],
        })?;
        place += 1;
    }
    Ok(entries)
}

/// The profile of a call whose turns begin at this place.
fn profile_with<A: Allocator + Copy>(
    alloc: A,
    touched: &Touched<A>,
    turns: &[u32],
    start: usize,
) -> Result<Profile<A>, NoMemory>
    requires { start + length (finite.entries touched.now) ≤ length turns.now }
    ensures { IfOk result (λ profile. profile ≡ with_turns (finite.entries touched.now) (drop start turns.now)) }
{
    let entries = entries_with(alloc, touched.lock_modes(), turns, start)?;
    Ok(Profile { entries })
}

/// The profiles of a published order, of which each map is what the call at its position touched. The turn of a lock counts the
/// groups before the call's own, from 0: holders that follow one another and all have Read, or all have Add, are one group, and
/// each Excl is a group alone. It takes n log n steps for n locks in all.
pub fn turns<A: Allocator + Copy>(
    alloc: A,
    touched: &[Touched<A>],
) -> Result<Vec<Profile<A>, A>, NoMemory>
    requires { length touched.now < 2 ^ 16 }
    ensures { IfOk result (λ profiles. AreTurns touched.now profiles.items) }
{
    let turns = turns_in_order(alloc, touched)?;
    let mut profiles = Vec::new(alloc);
    let mut start = 0;
    for one in touched {
        let profile = profile_with(alloc, one, &turns, start)?;
        start += one.lock_modes().len();
        profiles.push(profile)?;
    }
    Ok(profiles)
}
