//! The one way over a machine's turns. Who runs a call goes from one wish to the next, an operation of storage or a level that is entered or left, and answers each operation.

ghost use Rattle.std.specs.Prelude.{IfOk, IfSome, OnErr, None, Ok, ◌≡◌};
ghost use Rattle.interp.specs.Progress.{IsFree, IsProgress, IsSameCall};
ghost use Rattle.serial.specs.MachineProgress.{HasComeTo, HasEnded, HasLacked};

use interp::machine::Machine;
use interp::turns::Turn;
use spec_ledger::{NoMemory, Op};
use std::alloc::Allocator;

/// What a run asks of the book that keeps its storage.
#[derive(Clone, Copy, Debug, PartialEq, Eq)]
pub enum HostRequest {
    /// An operation, whose reply the run waits for.
    Do(Op),
    /// A level was entered: what is done from here on is taken back if it traps.
    Enter,
    /// The innermost level was left, with what it did where this is true, else without it.
    Leave(bool),
}

/// Makes turns until the run asks the book for something, and answers it. `None` where the run has ended.
///
/// # Errors
///
/// Memory was refused to a turn. The machine makes no further one.
#[inline(always)]
pub fn next_request<'a, A: Allocator + Copy>(
    machine: &mut Machine<'a, A>,
) -> Result<Option<HostRequest>, NoMemory>
    requires { IsFree machine.old.status }
    ensures asks { IfOk result (λ o. IfSome o (λ wish. HasComeTo machine.old wish machine.new)) }
    ensures ended { result ≡ Ok None → HasEnded machine.old machine.new }
    ensures on_run { IsProgress machine.new }
    ensures no_memory { OnErr result (HasLacked machine.old machine.new) }
{
    match machine.turn_on() {
        Turn::Host(op) => Ok(Some(HostRequest::Do(op))),
        Turn::Enter => Ok(Some(HostRequest::Enter)),
        Turn::Leave(keep) => Ok(Some(HostRequest::Leave(keep))),
        Turn::Done(_) => Ok(None),
        Turn::NoMemory => Err(NoMemory),
        Turn::Stepped => unreachable!(),
    }
}
