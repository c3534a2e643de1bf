// Abstract locks of calls that run at once (Dickerson, Gazzillo, Herlihy, Koskinen, "Adding Concurrency to Smart Contracts", PODC 2017, section 3).
#![tactic(auto)]

ghost use Rattle.std.specs.Prelude.{◌≡◌, ◌+◌, ◌-◌, ◌<◌, ◌≤◌, ℕ, ◌↔◌, IsTrue, IfOk, OnOk, OnErr, Err, length, slice_set, replicate};
ghost use Rattle.std.specs.FinMap as finite;
ghost use Rattle.spec_ledger.specs.Modes.{join, join_held};
ghost use Rattle.abstract_locks.specs.Table.{AllShare, asked, others, row_at};
ghost use Rattle.abstract_locks.specs.HeldLocks.{MayJoin, count_in, held_once};

mod holder;
mod holders;
mod sharing;

use holders::Holders;
use sharing::{Shared, Sharing, let_all_go};
use spec_ledger::{Mode, goes_with};
use std::alloc::{Allocator, Global};
use std::marker::Model;
use storage::{Lock, NoMemory};
use thiserror::Error;

/// The mode that covers both: equal modes give that mode, different ones `Excl`.
pub fn join(a: Mode, b: Mode) -> Mode
    ensures { result ≡ join a b }
{
    match (a, b) {
        (Mode::Read, Mode::Read) => Mode::Read,
        (Mode::Add, Mode::Add) => Mode::Add,
        _ => Mode::Excl,
    }
}

/// A mode joined to what is held already, if anything is.
pub fn join_to(mode: Mode, held: Option<Mode>) -> Mode
    ensures { result ≡ join_held mode held }
{
    match held {
        None => mode,
        Some(held) => join(mode, held),
    }
}

/// How many others hold a lock that these many hold, the asker with them if it holds it.
fn count_others(shared: Option<Shared>, held: Option<Mode>) -> u64
    requires { held_once held ≤ count_in shared }
    ensures { result ≡ count_in shared - held_once held }
{
    match (shared, held) {
        (None, _) => 0,
        (Some(shared), None) => shared.count,
        (Some(shared), Some(_)) => shared.count - 1,
    }
}

/// Whether a mode goes with that of the others that hold a lock.
fn may_join(shared: Option<Shared>, others: u64, joined: Mode) -> bool
    ensures { IsTrue result ↔ MayJoin shared others joined }
{
    match shared {
        None => true,
        Some(shared) => others == 0 || goes_with(joined, shared.mode),
    }
}

/// Why a lock is not taken.
#[derive(Clone, Copy, Debug, PartialEq, Eq, Error)]
pub enum LockRefusal {
    /// Another call holds the lock in a mode that does not go with the one asked for, joined to the one held.
    #[error("another call holds the lock in a mode that does not go with the one asked for")]
    Conflict,
    /// Memory was refused.
    #[error("memory was refused")]
    NoMemory,
}

/// The modes that each call holds. A lock is taken in time logarithmic in the number of locks and in that of the calls that hold one, without a look at the other calls. Memory is taken for what is held alone, however many calls there are.
#[derive(Drop)]
pub struct Table<A: Allocator = Global> {
    holders: Holders<A>,
    locks: Sharing<A>,
}

impl<A: Allocator> Model for Table<A> {
    ghost use Rattle.std.specs.Prelude.{List, length, ◌<◌, ◌^◌};
    ghost use Rattle.std.specs.Coded.{coded_list};
    ghost use Rattle.spec_ledger.specs.Modes.{Modes as TheModes};
    ghost use Rattle.spec_ledger.specs.Codes.{coded_modes};
    ghost use Rattle.abstract_locks.specs.HeldLocks.{AreShared};

    ghost Value = { List TheModes };

    ghost coded = { coded_list coded_modes };

    ghost view = { λ t. t.holders };

    ghost invariant = { λ t. AreShared t.locks t.holders × (length t.holders < 2 ^ 32) };
}

impl<A: Allocator + Copy> Table<A> {
    /// A table of this many calls, none of which holds a lock.
    pub fn open(alloc: A, calls: u32) -> Result<Self, NoMemory>
        ensures { IfOk result (λ table. table ≡ replicate calls finite.empty) }
    {
        Ok(Table {
            holders: Holders::new(alloc, calls),
            locks: Sharing::new(alloc),
        })
    }

    /// Takes a lock for a call, or refuses it where another call's mode does not go with it.
    pub fn take(&mut self, call: u32, lock: Lock, mode: Mode) -> Result<(), LockRefusal>
        requires { call < length self.old }
        ensures ok { OnOk result (self.new ≡ slice_set self.old call (asked (row_at self.old call) lock mode)) }
        ensures granted { OnOk result (AllShare (row_at self.old call) lock mode (others self.old call)) }
        ensures conflict { (result ≡ Err LockRefusal.Conflict) ↔ ¬ (AllShare (row_at self.old call) lock mode (others self.old call)) }
        ensures err { OnErr result (self.new ≡ self.old) }
    {
        let held = self.holders.mode(call, lock);
        let shared = self.locks.at(lock);
        let joined = join_to(mode, held);
        let others = count_others(shared, held);
        if !may_join(shared, others, joined) {
            return Err(LockRefusal::Conflict);
        }
        let next = Shared {
            mode: joined,
            count: others + 1,
        };
        let Ok(()) = self.locks.put(lock, next) else {
            return Err(LockRefusal::NoMemory);
        };
        let Ok(()) = self.holders.hold(call, lock, joined) else {
            self.locks.put_back(lock, shared);
            return Err(LockRefusal::NoMemory);
        };
        Ok(())
    }

    /// Whether a call may take a lock: whether the mode asked for, joined to the one that it holds, goes with what each other call holds.
    pub fn may_take(&self, call: u32, lock: Lock, mode: Mode) -> bool
        requires { call < length self.now }
        ensures { IsTrue result ↔ AllShare (row_at self.now call) lock mode (others self.now call) }
    {
        let held = self.holders.mode(call, lock);
        let shared = self.locks.at(lock);
        let joined = join_to(mode, held);
        let others = count_others(shared, held);
        may_join(shared, others, joined)
    }

    /// Lets all of a call's locks go.
    pub fn release(&mut self, call: u32)
        requires { call < length self.old }
        ensures { self.new ≡ slice_set self.old call finite.empty }
    {
        let held = self.holders.take_out(call);
        let_all_go(&mut self.locks, held);
    }
}
