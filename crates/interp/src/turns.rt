// What a turn comes to, and how far a run is.

use spec_ledger::{Op, Outcome};
use wtypes::TrapCode;

/// What a turn came to.
#[derive(Clone, Copy, Debug, PartialEq, Eq)]
pub enum Turn {
    /// One charged reduction and the free ones that follow it, up to the next level that is left.
    Stepped,
    /// The charged reduction of a call of an import, which asks the host for this operation.
    Host(Op),
    /// The charged reduction of an `ask` that enters a level, and the free ones that follow it.
    Enter,
    /// The innermost level is left, with what it changed where this is true, else without it, and the level around it goes
    /// on. No turn was made.
    Leave(bool),
    /// Memory was refused. The machine goes no further.
    NoMemory,
    /// The run has ended. No turn was made.
    Done(Outcome),
}

/// How far a run is.
#[derive(Clone, Copy, Debug, PartialEq, Eq)]
pub enum Status {
    /// An instruction is to come, or the innermost level is at its end and this was not told yet.
    Running,
    /// The innermost level trapped, and this was not told yet.
    Fallen(TrapCode),
    /// The host was asked for this operation.
    Asking(Op),
    /// The fuel is out, and the levels inside the outer one are left, one after another.
    Closing,
    /// The run has ended, and this was told.
    Ended(Outcome),
    /// Memory was refused.
    NoMemory,
}
