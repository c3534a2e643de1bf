//! A turn at a lock.

ghost use Rattle.std.specs.Prelude.{◌≡◌};
ghost use Rattle.lock_profile.specs.LockTurns.{turn_of};

use spec_ledger::{Entry, Lock};

/// A turn at a lock, by the lock and then by the turn. It has room for the turn after that of any entry.
#[derive(Clone, Copy, Debug, PartialEq, Eq, PartialOrd, Ord)]
pub struct LockTurn {
    /// The lock.
    pub lock: Lock,
    /// The number of groups before it.
    pub turn: u64,
}

/// The turn that an entry has.
pub fn own_turn(entry: Entry) -> LockTurn
    ensures { result ≡ turn_of entry }
{
    LockTurn {
        lock: entry.lock,
        turn: entry.turn as u64,
    }
}
