//! Machines that are run turn by turn or to their end, over a host that replies the same whatever the key.

ghost use Rattle.std.specs.Prelude.{IfOk};
ghost use Rattle.interp.specs.Progress.{IsFree};
ghost use Rattle.spec_execution.specs.Run.{IsReply};

use crate::refused::Refused;
use call::Call;
use interp::machine::Machine;
use interp::turns::Turn;
use link::deployed::Deployed;
use spec_ledger::{Op, Reply, Version};
use std::alloc::{Allocator, Global};

/// The most turns that are made of a call.
const MOST_TURNS: u32 = 1_000_000;

/// What the host replies, whatever the key.
fn reply_to(op: Op) -> Reply
    ensures { IsReply op result }
{
    match op {
        Op::Get(_) => Reply::I64(3),
        Op::Has(_) => Reply::I32(1),
        Op::Put(_, _) => Reply::Nothing,
        Op::Del(_) => Reply::I32(0),
        Op::Add(_, _) => Reply::Nothing,
        Op::Total(_) => Reply::I64(12),
    }
}

/// Makes a turn, with the reply of the host where it was asked: 3 to `get`, 1 to `has`, 0 to `del` and 12 to `total`, whatever the key.
pub fn make_turn<'a, A: Allocator + Copy>(machine: &mut Machine<'a, A>) -> Turn
    requires { IsFree machine.old.status }
    ensures { IsFree machine.new.status }
{
    let turn = machine.next();
    match turn {
        Turn::Stepped => {}
        Turn::Enter => {}
        Turn::Leave(_) => {}
        Turn::Host(op) => machine.answer(reply_to(op)),
        Turn::NoMemory => {}
        Turn::Done(_) => {}
    }
    turn
}

/// Makes the turns up to the next operation or the end in one call, with the reply of the host where it was asked.
pub(crate) fn turn_on<'a>(machine: &mut Machine<'a, Global>) -> Turn
    requires { IsFree machine.old.status }
    ensures { IsFree machine.new.status }
{
    let turn = machine.turn_on();
    match turn {
        Turn::Stepped => {}
        Turn::Enter => {}
        Turn::Leave(_) => {}
        Turn::Host(op) => machine.answer(reply_to(op)),
        Turn::NoMemory => {}
        Turn::Done(_) => {}
    }
    turn
}

/// Makes the same turns one by one.
pub(crate) fn turn_on_by_one<'a>(machine: &mut Machine<'a, Global>) -> Turn
    requires { IsFree machine.old.status }
    ensures { IsFree machine.new.status }
{
    'turns: for _ in 0..MOST_TURNS {
        match make_turn(machine) {
            Turn::Stepped => {}
            stop => return stop,
        }
    }
    Turn::Stepped
}

/// Makes turns up to the end.
pub(crate) fn play<'a>(machine: &mut Machine<'a, Global>)
    requires { IsFree machine.old.status }
    ensures { IsFree machine.new.status }
{
    'turns: for _ in 0..MOST_TURNS {
        if let Turn::Done(_) = make_turn(machine) {
            return;
        }
    }
}

/// The machine of a call by the rules of a version, of version 2 where none is named.
pub(crate) fn started<'a>(
    alloc: Global,
    contracts: &'a [Deployed<Global>],
    call: &'a Call,
    version: Option<Version>,
) -> Result<Machine<'a, Global>, Refused>
    ensures { IfOk result (λ m. IsFree m.status) }
{
    match version {
        None => Ok(Machine::start(alloc, contracts, call)?),
        Some(version) => Ok(Machine::start_as(alloc, contracts, call, version)?),
    }
}

/// The machine of a call, which has no end before its first turn.
pub(crate) fn unfinished<'a>(
    alloc: Global,
    contracts: &'a [Deployed<Global>],
    call: &'a Call,
) -> Result<Machine<'a, Global>, Refused>
    ensures { IfOk result (λ m. IsFree m.status) }
{
    match started(alloc, contracts, call, None)?.finish() {
        Ok(_) => Err(Refused::Early),
        Err(machine) => Ok(machine),
    }
}
