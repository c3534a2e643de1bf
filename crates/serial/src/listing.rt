// The read-write set that touches come to.
ghost use Rattle.std.specs.Prelude.{◌≡◌, ◌++◌, IfOk, if◌then◌else◌, map};
ghost use Rattle.std.specs.FinMap.{entries};
ghost use Rattle.spec_ledger.specs.Cells.{number, subtracted};
ghost use Rattle.spec_execution.specs.ReadWriteSets.{access_at, use_of};
ghost use Rattle.serial.specs.Touches.{access_of, found_in, later_in, modes_of};

use crate::touches::Touch;
use lock_profile::{Held, Touched};
use spec_execution::Access;
use spec_ledger::{CellKey, Kind, Lock, Mode, NoMemory};
use std::alloc::Allocator;
use std::collections::BTreeMap;

fn place(lock: Lock) -> CellKey
    ensures contract { result.contract ≡ lock.contract }
    ensures key { result.key ≡ lock.key }
{
    CellKey {
        contract: lock.contract,
        key: lock.key,
    }
}

fn use_of(kind: Kind, mode: Mode) -> Mode
    ensures { result ≡ use_of kind mode }
{
    match (kind, mode) {
        (Kind::Map, Mode::Add) => Mode::Excl,
        (Kind::Map | Kind::Counter, _) => mode,
    }
}

/// By how much a counter grew, modulo 2^64.
fn growth(before: Option<u64>, later: Option<u64>) -> u64
    ensures { result ≡ number (subtracted (number before) later) }
{
    later.unwrap_or(0).wrapping_sub(before.unwrap_or(0))
}

/// What was done with the cell of a touch, whose changes stand or do not.
fn access(lock: Lock, touch: Touch, stand: bool) -> Access
    ensures { result ≡ access_of stand (lock, touch) }
{
    let found = touch.found;
    let later = if stand { touch.later } else { found };
    match use_of(lock.kind, touch.mode) {
        Mode::Read => Access::Read(lock, found),
        Mode::Add => Access::Added(place(lock), growth(found, later)),
        Mode::Excl => Access::Replaced(lock, found, later),
    }
}

/// Puts what was done with the cells of touches behind other accesses, in the order of locks, and answers the locks with their modes. The changes stand, or
/// do not.
pub(crate) fn list<A: Allocator + Copy>(
    alloc: A,
    touches: BTreeMap<Lock, Touch, A>,
    stand: bool,
    accesses: &mut Vec<Access, A>,
) -> Result<Touched<A>, NoMemory>
    ensures touched { IfOk result (λ touched. touched ≡ modes_of touches.entries) }
    ensures accesses { IfOk result (λ touched. accesses.new.items ≡ accesses.old.items ++ map (access_at (found_in touches.entries) (if stand then later_in touches.entries else found_in touches.entries)) (entries touched)) }
{
    let mut held = Vec::new(alloc);
    for (lock, touch) in touches {
        accesses.push(access(lock, touch, stand))?;
        held.push(Held {
            lock,
            mode: touch.mode,
        })?;
    }
    match Touched::from_sorted(held) {
        Some(touched) => Ok(touched),
        None => unreachable!(),
    }
}
