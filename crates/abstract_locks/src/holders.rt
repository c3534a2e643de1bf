// What each of many calls holds.
ghost use Rattle.std.specs.Prelude.{◌≡◌, ◌<◌, OnOk, OnErr, length, slice_set, replicate};
ghost use Rattle.std.specs.FinMap as finite;
ghost use Rattle.abstract_locks.specs.Table.{row_at};

use crate::holder::Holder;
use spec_ledger::Mode;
use std::alloc::{Allocator, Global};
use std::collections::BTreeMap;
use std::marker::Model;
use storage::{Lock, NoMemory};

/// The holders of those calls that hold something, and how many calls there are. A call that holds nothing takes no memory.
#[derive(Drop)]
pub(crate) struct Holders<A: Allocator = Global> {
    alloc: A,
    calls: u32,
    held: BTreeMap<u32, Holder<A>, A>,
}

impl<A: Allocator> Model for Holders<A> {
    ghost use Rattle.std.specs.Prelude.{List};
    ghost use Rattle.std.specs.Coded.{coded_list};
    ghost use Rattle.spec_ledger.specs.Modes.{Modes as TheModes};
    ghost use Rattle.spec_ledger.specs.Codes.{coded_modes};
    ghost use Rattle.abstract_locks.specs.Calls.{EachHolds, rows_of};

    ghost Value = { List TheModes };

    ghost coded = { coded_list coded_modes };

    ghost view = { λ h. rows_of h.held h.calls };

    ghost invariant = { λ h. EachHolds h.held };
}

impl<A: Allocator + Copy> Holders<A> {
    /// This many calls, none of which holds a lock.
    pub(crate) fn new(alloc: A, calls: u32) -> Self
        ensures { result ≡ replicate calls finite.empty }
    {
        Holders {
            alloc,
            calls,
            held: BTreeMap::new(alloc),
        }
    }

    /// How a call holds a lock.
    pub(crate) fn mode(&self, call: u32, lock: Lock) -> Option<Mode>
        requires { call < length self.now }
        ensures { result ≡ finite.get (row_at self.now call) lock }
    {
        match self.held.get(&call) {
            None => None,
            Some(holder) => holder.mode(lock),
        }
    }

    /// A call holds a lock in a mode.
    pub(crate) fn hold(&mut self, call: u32, lock: Lock, mode: Mode) -> Result<(), NoMemory>
        requires { call < length self.old }
        ensures ok { OnOk result (self.new ≡ slice_set self.old call (finite.insert (row_at self.old call) lock mode)) }
        ensures err { OnErr result (self.new ≡ self.old) }
    {
        if let Some(holder) = self.held.get_mut(&call) {
            return holder.hold(lock, mode);
        }
        let mut holder = Holder::new(self.alloc);
        holder.hold(lock, mode)?;
        let Ok(_) = self.held.insert(call, holder) else {
            return Err(NoMemory);
        };
        Ok(())
    }

    /// Takes out all that a call holds.
    pub(crate) fn take_out(&mut self, call: u32) -> Holder<A>
        requires { call < length self.old }
        ensures value { result ≡ row_at self.old call }
        ensures gone { self.new ≡ slice_set self.old call finite.empty }
    {
        match self.held.remove(&call) {
            None => Holder::new(self.alloc),
            Some(holder) => holder,
        }
    }
}
