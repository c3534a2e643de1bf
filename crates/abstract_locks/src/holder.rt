// What one call holds.
ghost use Rattle.std.specs.Prelude.{◌≡◌, ◌<◌, Some, IsSome, IfSome, IfNone, OnOk, OnErr};
ghost use Rattle.std.specs.FinMap as finite;

use spec_ledger::Mode;
use std::alloc::{Allocator, Global};
use std::collections::BTreeMap;
use std::marker::Model;
use storage::{Lock, NoMemory};

/// The locks of a call, each with the join of the modes that it asked for.
#[derive(Drop)]
pub(crate) struct Holder<A: Allocator = Global> {
    held: BTreeMap<Lock, Mode, A>,
}

impl<A: Allocator> Model for Holder<A> {
    ghost use Rattle.std.specs.FinMap.{from_entries};
    ghost use Rattle.spec_ledger.specs.Modes.{Modes as TheModes};
    ghost use Rattle.spec_ledger.specs.Codes.{coded_modes};

    ghost Value = { TheModes };

    ghost coded = { coded_modes };

    ghost view = { λ h. from_entries h.held.entries };
}

impl<A: Allocator + Copy> Holder<A> {
    pub(crate) fn new(alloc: A) -> Self
        ensures { result ≡ finite.empty }
    {
        Holder {
            held: BTreeMap::new(alloc),
        }
    }

    /// How the call holds a lock.
    pub(crate) fn mode(&self, wanted: Lock) -> Option<Mode>
        ensures { result ≡ finite.get self.now wanted }
    {
        match self.held.get(&wanted) {
            None => None,
            Some(mode) => Some(*mode),
        }
    }

    /// Holds a lock in a mode.
    pub(crate) fn hold(&mut self, lock: Lock, mode: Mode) -> Result<(), NoMemory>
        ensures ok { OnOk result (self.new ≡ finite.insert self.old lock mode) }
        ensures err { OnErr result (self.new ≡ self.old) }
    {
        let Ok(_) = self.held.insert(lock, mode) else {
            return Err(NoMemory);
        };
        Ok(())
    }

    /// Lets one lock go, if any is held.
    pub(crate) fn let_one_go(&mut self) -> Option<Lock>
        ensures held { IfSome result (λ lock. IsSome (finite.get self.old lock)) }
        ensures gone { IfSome result (λ lock. self.new ≡ finite.remove self.old lock) }
        ensures none { IfNone result (self.old ≡ finite.empty) }
    {
        let Some((lock, _)) = self.held.pop_first() else {
            return None;
        };
        Some(lock)
    }
}
