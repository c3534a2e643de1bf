// The locks that a call asked for.
ghost use Rattle.std.specs.Prelude.{◌≡◌, ◌++◌, ◌∷◌, [], T, true, false, IfOk, OnOk};
ghost use Rattle.std.specs.Ordering.{eq_by_cmp, is_lt};
ghost use Rattle.std.specs.FinMap as finite;
ghost use Rattle.spec_ledger.specs.Cells.{lock_cmp};
ghost use Rattle.spec_ledger.specs.Modes.{touched};
ghost use Rattle.lock_profile.specs.Groups.{pair_of, pairs};
ghost use Rattle.serial.specs.Asking.{DoNotFall, DoNotFallFrom, ask_of, asked_all, asked_for, asks, asks_with, modes_in, with_last};

use crate::playing::empty_list;
use abstract_locks::join_to;
use lock_profile::{Held, Touched};
use spec_ledger::{Lock, NoMemory, Op, TraceStep};
use std::alloc::Allocator;
use std::cmp::Ordering;
use storage::{lock, mode};

/// Adds what an operation asks for.
fn ask<A: Allocator + Copy>(asked: &mut Vec<Held, A>, op: Op) -> Result<(), NoMemory>
    ensures { OnOk result (pairs asked.new.items ≡ pairs asked.old.items ++ ask_of op ∷ []) }
{
    asked.push(Held {
        lock: lock(op),
        mode: mode(op),
    })?;
    Ok(())
}

/// Adds what a step asks for: a mark asks for nothing.
fn ask_at<A: Allocator + Copy>(asked: &mut Vec<Held, A>, step: TraceStep) -> Result<(), NoMemory>
    ensures { OnOk result (pairs asked.new.items ≡ asks_with (pairs asked.old.items) step) }
{
    match step {
        TraceStep::Did(op, _) => ask(asked, op),
        TraceStep::Opened | TraceStep::Kept | TraceStep::Dropped => Ok(()),
    }
}

/// Fills the list with what the operations of a trace ask for, first to last, in place of what it holds.
fn ask_all<A: Allocator + Copy>(
    asked: &mut Vec<Held, A>,
    trace: &[TraceStep],
) -> Result<(), NoMemory>
    ensures { OnOk result (pairs asked.new.items ≡ asks trace.now) }
{
    empty_list(asked);
    for step in trace {
        ask_at(asked, *step)?;
    }
    Ok(())
}

fn is_same_lock(a: Lock, b: Lock) -> bool
    ensures { result ≡ eq_by_cmp lock_cmp a b }
{
    matches!(a.cmp(&b), Ordering::Equal)
}

/// Holds one lock more, behind those held and the last one, and answers which is the last one now. Where it is that of the last one, its mode is
/// joined to that one's.
fn hold<A: Allocator + Copy>(
    held: &mut Vec<Held, A>,
    last: Held,
    one: Held,
) -> Result<Held, NoMemory>
    requires rises { T (finite.is_sorted lock_cmp (with_last held.old.items last)) }
    requires behind { is_lt (lock_cmp one.lock last.lock) ≡ false }
    ensures modes { IfOk result (λ next. modes_in (with_last held.new.items next) ≡ asked_for (modes_in (with_last held.old.items last)) (pair_of one)) }
    ensures rises { IfOk result (λ next. T (finite.is_sorted lock_cmp (with_last held.new.items next))) }
    ensures lock { IfOk result (λ next. next.lock ≡ one.lock) }
{
    if is_same_lock(last.lock, one.lock) {
        return Ok(Held {
            lock: last.lock,
            mode: join_to(one.mode, Some(last.mode)),
        });
    }
    held.push(last)?;
    Ok(one)
}

/// Holds locks that do not fall, behind those held and the last one, and answers which is the last one now.
fn hold_all<A: Allocator + Copy>(
    held: &mut Vec<Held, A>,
    mut last: Held,
    rest: &[Held],
) -> Result<Held, NoMemory>
    requires rises { T (finite.is_sorted lock_cmp (with_last held.old.items last)) }
    requires behind { DoNotFallFrom last.lock rest.now }
    ensures modes { IfOk result (λ now. modes_in (with_last held.new.items now) ≡ asked_all (modes_in (with_last held.old.items last)) (pairs rest.now)) }
    ensures rises { IfOk result (λ now. T (finite.is_sorted lock_cmp (with_last held.new.items now))) }
{
    for one in rest {
        let next = hold(held, last, *one)?;
        last = next;
    }
    Ok(last)
}

/// Locks that do not fall, each once with the join of its modes.
fn joined<A: Allocator + Copy>(alloc: A, asked: &[Held]) -> Result<Vec<Held, A>, NoMemory>
    requires { DoNotFall asked.now }
    ensures modes { IfOk result (λ held. modes_in (pairs held.items) ≡ asked_all finite.empty (pairs asked.now)) }
    ensures rises { IfOk result (λ held. T (finite.is_sorted lock_cmp (pairs held.items))) }
{
    let mut held = Vec::new(alloc);
    let Some((first, rest)) = asked.split_first() else {
        return Ok(held);
    };
    let last = hold_all(&mut held, *first, rest)?;
    held.push(last)?;
    Ok(held)
}

/// The map of locks that rise to their modes.
fn map_of<A: Allocator + Copy>(held: Vec<Held, A>) -> Touched<A>
    requires { finite.is_sorted lock_cmp (pairs held.items) ≡ true }
    ensures { result ≡ modes_in (pairs held.items) }
{
    match Touched::from_sorted(held) {
        Some(touched) => touched,
        None => unreachable!(),
    }
}

/// Each lock that a trace asks for, with the join of its modes. It takes n log n steps for n operations.
///
/// # Errors
///
/// Memory was refused.
pub fn touched_by<A: Allocator + Copy>(
    alloc: A,
    trace: &[TraceStep],
) -> Result<Touched<A>, NoMemory>
    ensures { IfOk result (λ locks. locks ≡ touched trace.now) }
{
    let mut asked = Vec::new(alloc);
    touched_in(alloc, &mut asked, trace)
}

/// The same, in the room of a list. What it holds before and after says nothing.
pub(crate) fn touched_in<A: Allocator + Copy>(
    alloc: A,
    asked: &mut Vec<Held, A>,
    trace: &[TraceStep],
) -> Result<Touched<A>, NoMemory>
    ensures { IfOk result (λ locks. locks ≡ touched trace.now) }
{
    ask_all(asked, trace)?;
    asked.sort_by_key(|one| one.lock)?;
    let held = joined(alloc, asked.as_slice())?;
    Ok(map_of(held))
}
