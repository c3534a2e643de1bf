// What the holders of each lock have in common.
ghost use Rattle.std.specs.Prelude.{◌≡◌, ℕ, ◌<◌, ◌∷◌, ◌++◌, List, IsSome, Some, OnOk, OnErr};
ghost use Rattle.std.specs.FinMap as finite;
ghost use Rattle.spec_ledger.specs.Cells.{set_at};
ghost use Rattle.spec_ledger.specs.Modes.{Modes};
ghost use Rattle.abstract_locks.specs.HeldLocks.{AreShared, HasHolder, one_less};

use crate::holder::Holder;
use spec_ledger::Mode;
use std::alloc::{Allocator, Global};
use std::collections::BTreeMap;
use std::marker::Model;
use storage::{Lock, NoMemory};

/// The mode of a lock's holders, and how many they are.
#[derive(Clone, Copy, Debug, PartialEq, Eq)]
pub(crate) struct Shared {
    pub(crate) mode: Mode,
    pub(crate) count: u64,
}

/// The locks that are held.
#[derive(Drop)]
pub(crate) struct Sharing<A: Allocator = Global> {
    map: BTreeMap<Lock, Shared, A>,
}

impl<A: Allocator> Model for Sharing<A> {
    ghost use Rattle.std.specs.FinMap.{from_entries};
    ghost use Rattle.abstract_locks.specs.HeldLocks.{Sharings, coded_sharings};

    ghost Value = { Sharings };

    ghost coded = { coded_sharings };

    ghost view = { λ s. from_entries s.map.entries };
}

impl<A: Allocator + Copy> Sharing<A> {
    pub(crate) fn new(alloc: A) -> Self
        ensures { result ≡ finite.empty }
    {
        Sharing {
            map: BTreeMap::new(alloc),
        }
    }

    /// What a lock's holders have in common, if it has any.
    pub(crate) fn at(&self, lock: Lock) -> Option<Shared>
        ensures { result ≡ finite.get self.now lock }
    {
        match self.map.get(&lock) {
            None => None,
            Some(shared) => Some(*shared),
        }
    }

    /// Writes what a lock's holders have in common.
    pub(crate) fn put(&mut self, lock: Lock, shared: Shared) -> Result<(), NoMemory>
        ensures ok { OnOk result (self.new ≡ finite.insert self.old lock shared) }
        ensures err { OnErr result (self.new ≡ self.old) }
    {
        let Ok(_) = self.map.insert(lock, shared) else {
            return Err(NoMemory);
        };
        Ok(())
    }

    /// Writes or drops the entry of a lock that has one, which takes no memory.
    pub(crate) fn put_back(&mut self, lock: Lock, former: Option<Shared>)
        requires { IsSome (finite.get self.old lock) }
        ensures { self.new ≡ set_at self.old lock former }
    {
        match former {
            None => {
                self.map.remove(&lock);
            }
            Some(shared) => match self.map.insert(lock, shared) {
                Ok(_) => (),
                Err(_) => unreachable!(),
            },
        }
    }

    /// A lock has one holder less.
    pub(crate) fn let_go(&mut self, lock: Lock)
        requires { HasHolder (finite.get self.old lock) }
        ensures { self.new ≡ set_at self.old lock (one_less (finite.get self.old lock)) }
    {
        if let Some(shared) = self.at(lock) {
            let left = if shared.count == 1 {
                None
            } else {
                Some(Shared {
                    mode: shared.mode,
                    count: shared.count - 1,
                })
            };
            self.put_back(lock, left);
        }
    }
}

/// Lets go of all that a call holds, whoever the other calls are.
pub(crate) fn let_all_go<A: Allocator + Copy>(locks: &mut Sharing<A>, mut held: Holder<A>)
    requires { (before : List Modes) × (later : List Modes) × AreShared locks.old (before ++ held ∷ later) }
    ensures { (before later : List Modes) → AreShared locks.old (before ++ held ∷ later) → AreShared locks.new (before ++ finite.empty ∷ later) }
{
    while let Some(lock) = held.let_one_go() {
        locks.let_go(lock);
    }
}
