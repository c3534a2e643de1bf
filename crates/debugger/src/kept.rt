// States that are kept, so that going back makes few turns again.
ghost use Rattle.std.specs.Prelude.{ℕ, ◌≡◌, ◌+◌, ◌*◌, ◌<◌, ◌≤◌, [], All, vec_len, IsSome, Ok, true, false, OnOk};
ghost use Rattle.interp.specs.MachineViews.{ending};
ghost use Rattle.debugger.specs.Keeping.{IsOfRun, AreKept, AreSpaced, last_turns, next_turns, IsEarlier, IsNearest};

use crate::cursor::{Cursor, copy, make_turn};
use spec_ledger::NoMemory;
use std::alloc::Allocator;

/// The most states that are kept beside the first and the present one.
pub const MOST_KEPT: usize = 64;

// The turns between the first states that are kept.
const FIRST_DISTANCE: u64 = 1_024;

/// States of a run, at most 64: those after each multiple of the distance, up to the last that was kept. Where 64 are kept and
/// one more is due, every other one is dropped and the distance doubles. So the distance is 1,024 turns, or at most a 32nd of the
/// turns before the last.
#[derive(Drop)]
pub struct Kept<'a, A: Allocator + Copy> {
    /// The states.
    pub cursors: Vec<Cursor<'a, A>, A>,
    /// The turns before the last of them. 0 where there is none.
    pub last: u64,
    /// The turns between two states.
    pub distance: u64,
}

/// No states.
pub fn none_kept<'a, A: Allocator + Copy>(alloc: A) -> Kept<'a, A>
    ensures none { result.cursors.items ≡ [] }
    ensures last { result.last ≡ 0 }
    ensures distance { result.distance ≡ 1024 }
{
    Kept {
        cursors: Vec::new(alloc),
        last: 0,
        distance: FIRST_DISTANCE,
    }
}

// Keeps the state, where it is the next one to keep. Where 64 are kept, every other one is dropped, and the next one to keep
// stands further on.
fn keep<'a, A: Allocator + Copy>(
    alloc: A,
    here: &Cursor<'a, A>,
    cursor: &Cursor<'a, A>,
    kept: &mut Kept<'a, A>,
) -> Result<(), NoMemory>
    requires cursor { IsOfRun here.now cursor.now }
    requires kept { AreKept here.now kept.old }
    requires reached { cursor.now.machine.used ≤ next_turns kept.old }
    ensures kept { AreKept here.now kept.new }
    ensures reached { OnOk result (cursor.now.machine.used < next_turns kept.new) }
    ensures further { next_turns kept.old ≤ next_turns kept.new }
{
    let turns = cursor.machine.used();
    if turns < kept.last || turns - kept.last < kept.distance {
        return Ok(());
    }
    if kept.cursors.len() < MOST_KEPT {
        kept.cursors.push(copy(alloc, cursor)?)?;
        kept.last = turns;
    } else {
        thin(here, &mut kept.cursors);
        kept.distance *= 2;
    }
    Ok(())
}

// Drops every other one of 64 states, the first among them.
fn thin<'a, A: Allocator + Copy>(here: &Cursor<'a, A>, cursors: &mut Vec<Cursor<'a, A>, A>)
    requires all { All (IsOfRun here.now) cursors.old.items }
    requires full { vec_len cursors.old ≡ 64 }
    ensures all { All (IsOfRun here.now) cursors.new.items }
    ensures half { vec_len cursors.new ≡ 32 }
    ensures last { last_turns 0 cursors.new.items ≡ last_turns 0 cursors.old.items }
    ensures spaced { (d : ℕ) → AreSpaced d 0 cursors.old.items → AreSpaced (2 * d) 0 cursors.new.items }
{
    let _turns = here.machine.used();
    for index in 0..MOST_KEPT / 2 {
        cursors.remove(index);
    }
}

/// Makes a turn, unless the run has ended, and keeps the state after it where that is due. Answers whether it made one.
///
/// # Errors
///
/// Memory was refused. The state is lost.
pub fn turn_and_keep<'a, A: Allocator + Copy>(
    alloc: A,
    here: &Cursor<'a, A>,
    cursor: &mut Cursor<'a, A>,
    kept: &mut Kept<'a, A>,
) -> Result<bool, NoMemory>
    requires cursor { IsOfRun here.now cursor.old }
    requires kept { AreKept here.now kept.old }
    requires reached { cursor.old.machine.used < next_turns kept.old }
    ensures cursor { OnOk result (IsOfRun here.now cursor.new) }
    ensures made { result ≡ Ok true → cursor.new.machine.used ≡ cursor.old.machine.used + 1 }
    ensures ended { result ≡ Ok false → IsSome (ending cursor.old.machine) × (cursor.new ≡ cursor.old) }
    ensures kept { AreKept here.now kept.new }
    ensures reached { OnOk result (cursor.new.machine.used < next_turns kept.new) }
    ensures further { next_turns kept.old ≤ next_turns kept.new }
{
    let made = make_turn(cursor)?;
    if made {
        keep(alloc, here, cursor, kept)?;
    }
    Ok(made)
}

/// The last of these states that stands at most so many turns from the start, or else the first one.
pub fn nearest<'b, 'a, A: Allocator + Copy>(
    first: &'b Cursor<'a, A>,
    here: &Cursor<'a, A>,
    others: &'b [Cursor<'a, A>],
    turns: u64,
) -> &'b Cursor<'a, A>
    requires first { IsEarlier here.now turns first.now }
    requires others { All (IsOfRun here.now) others.now }
    ensures earlier { IsEarlier here.now turns result.now }
    ensures near { IsNearest first.now others.now turns result.now }
{
    let mut best = first;
    for cursor in others {
        if cursor.machine.used() > turns {
            return best;
        }
        best = cursor;
    }
    best
}
