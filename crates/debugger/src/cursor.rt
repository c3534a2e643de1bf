// A call that runs alone over cells, after some of its turns.
ghost use Rattle.std.specs.Prelude.{◌≡◌, ◌+◌, ◌<◌, ◌≤◌, ◌⊎◌, Ok, true, false, None, IsSome, IfOk, IfErr, OnOk};
ghost use Rattle.spec_execution.specs.Run.{opening};
ghost use Rattle.interp.specs.Callee.{setting_view};
ghost use Rattle.interp.specs.Progress.{Progress, GoesOn, IsLeftNext, depth_of};
ghost use Rattle.interp.specs.MachineViews.{ending};
ghost use Rattle.interp.specs.Starting.{IsRefusedFor, HasPlace, wrong_in};
ghost use Rattle.debugger.specs.Cursors.{IsAt, IsOpened, IsSameRun, IsCopy, IsInTurn};

use crate::Contract;
use crate::undo::{Undo, act, copy_undo, enter, leave, nothing_noted};
use call::Call;
use interp::machine::Machine;
use interp::start::StartRefusal;
use interp::turns::Turn;
use spec_ledger::{NoMemory, Version};
use std::alloc::Allocator;
use storage::Cells;

/// A call between two of its turns.
#[derive(Drop)]
pub struct Cursor<'a, A: Allocator + Copy> {
    /// Its machine.
    pub machine: Machine<'a, A>,
    /// The cells, after the operations that it has asked for, but for those of levels that were dropped.
    pub cells: Cells<A>,
    /// What takes the open levels back.
    pub undo: Undo<A>,
    /// The cells at the start.
    pub start: &'a Cells<A>,
}

/// The call before its first turn, by the rules of this version.
///
/// # Errors
///
/// Why the call does not start.
pub fn open<'a, A: Allocator + Copy>(
    alloc: A,
    contracts: &'a [Contract<A>],
    start: &'a Cells<A>,
    call: &'a Call,
    version: Version,
) -> Result<Cursor<'a, A>, StartRefusal>
    ensures opened { IfOk result (λ cursor. IsOpened (setting_view version contracts.now) call.now start.now.cells cursor) }
    ensures at { IfOk result (λ cursor. IsAt cursor) }
    ensures refused { IfErr result (λ refusal. IsRefusedFor refusal (opening (setting_view version contracts.now) call.now)) }
    ensures place { IfErr result (λ refusal. HasPlace (wrong_in (setting_view version contracts.now) call.now) refusal) }
{
    let machine = Machine::start_as(alloc, contracts, call, version)?;
    match start.copy(alloc) {
        Ok(cells) => Ok(Cursor {
            machine,
            cells,
            undo: nothing_noted(alloc),
            start,
        }),
        Err(NoMemory) => Err(StartRefusal::NoMemory),
    }
}

/// The same state, with memory of its own.
///
/// # Errors
///
/// Memory was refused.
pub fn copy<'a, A: Allocator + Copy>(
    alloc: A,
    cursor: &Cursor<'a, A>,
) -> Result<Cursor<'a, A>, NoMemory>
    ensures { IfOk result (λ copy. IsCopy cursor.now copy) }
{
    Ok(Cursor {
        machine: cursor.machine.copy()?,
        cells: cursor.cells.copy(alloc)?,
        undo: copy_undo(alloc, &cursor.undo)?,
        start: cursor.start,
    })
}

// Makes the charged reduction of a turn, and the free ones up to the next level that is left.
fn begin_turn<'a, A: Allocator + Copy>(cursor: &mut Cursor<'a, A>) -> Result<(), NoMemory>
    requires at { IsAt cursor.old }
    requires goes_on { ending cursor.old.machine ≡ None }
    ensures turn { OnOk result (IsInTurn cursor.old.machine cursor.new) }
    ensures start { OnOk result (cursor.new.start.now ≡ cursor.old.start.now) }
{
    match cursor.machine.next() {
        Turn::Stepped => Ok(()),
        Turn::Host(op) => {
            let reply = act(&mut cursor.cells, &mut cursor.undo, op)?;
            cursor.machine.answer(reply);
            Ok(())
        }
        Turn::Enter => enter(&mut cursor.undo),
        Turn::NoMemory => Err(NoMemory),
        Turn::Leave(_) => unreachable!(),
        Turn::Done(_) => unreachable!(),
    }
}

// Leaves the innermost level, which is left next.
fn leave_level<'a, A: Allocator + Copy>(cursor: &mut Cursor<'a, A>) -> Result<(), NoMemory>
    requires goes_on { GoesOn cursor.old.machine.status }
    requires left { IsLeftNext cursor.old.machine }
    ensures turn { OnOk result ((first : Progress) → IsInTurn first cursor.old → IsInTurn first cursor.new) }
    ensures start { OnOk result (cursor.new.start.now ≡ cursor.old.start.now) }
    ensures goes_on { OnOk result (GoesOn cursor.new.machine.status) }
    ensures less { OnOk result (depth_of cursor.old.machine ≡ depth_of cursor.new.machine + 1) }
{
    match cursor.machine.next() {
        Turn::Leave(keep) => leave(&mut cursor.cells, &mut cursor.undo, keep),
        Turn::NoMemory => Err(NoMemory),
        Turn::Stepped => unreachable!(),
        Turn::Host(_) => unreachable!(),
        Turn::Enter => unreachable!(),
        Turn::Done(_) => unreachable!(),
    }
}

// Goes on with a turn to its end, over the levels that are left in it.
fn end_turn<'a, A: Allocator + Copy>(cursor: &mut Cursor<'a, A>) -> Result<(), NoMemory>
    requires { GoesOn cursor.old.machine.status }
    ensures turn { OnOk result ((first : Progress) → IsInTurn first cursor.old → IsInTurn first cursor.new) }
    ensures start { OnOk result (cursor.new.start.now ≡ cursor.old.start.now) }
    ensures whole { OnOk result (¬ IsLeftNext cursor.new.machine) }
{
    while cursor.machine.is_leaving() {
        leave_level(cursor)?;
    }
    Ok(())
}

/// Makes a turn, unless the run has ended. Answers whether it made one.
///
/// # Errors
///
/// Memory was refused. The state is lost.
pub fn make_turn<'a, A: Allocator + Copy>(cursor: &mut Cursor<'a, A>) -> Result<bool, NoMemory>
    requires { IsAt cursor.old }
    ensures at { OnOk result (IsAt cursor.new) }
    ensures same { OnOk result (IsSameRun cursor.old cursor.new) }
    ensures made { result ≡ Ok true → cursor.new.machine.used ≡ cursor.old.machine.used + 1 }
    ensures ended { result ≡ Ok false → IsSome (ending cursor.old.machine) × (cursor.new ≡ cursor.old) }
{
    if cursor.machine.ending().is_some() {
        return Ok(false);
    }
    begin_turn(cursor)?;
    end_turn(cursor)?;
    Ok(true)
}

/// Makes so many turns, or as many as there are, and answers how many.
///
/// # Errors
///
/// Memory was refused. The state is lost.
pub fn make_turns<'a, A: Allocator + Copy>(
    cursor: &mut Cursor<'a, A>,
    count: u64,
) -> Result<u64, NoMemory>
    requires { IsAt cursor.old }
    ensures at { OnOk result (IsAt cursor.new) }
    ensures same { OnOk result (IsSameRun cursor.old cursor.new) }
    ensures made { IfOk result (λ made. cursor.new.machine.used ≡ cursor.old.machine.used + made) }
    ensures most { IfOk result (λ made. made ≤ count) }
    ensures all { IfOk result (λ made. (made ≡ count) ⊎ IsSome (ending cursor.new.machine)) }
{
    for made in 0..count {
        if !make_turn(cursor)? {
            return Ok(made);
        }
    }
    Ok(count)
}
