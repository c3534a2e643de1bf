// How a function begins, and how a run ends that memory is refused to.
ghost use Rattle.std.specs.Prelude.{◌≡◌, ◌≤◌, length};
ghost use Rattle.interp.specs.Machine.{progress, HasStarted, HasBegun};
ghost use Rattle.interp.specs.Progress.{IsSameCall};
ghost use Rattle.interp.specs.Run.{seen, IsKept, IsBegun, IsFirst, IsToCall};

use crate::run::Run;
use crate::turns::{Status, Turn};
use interp_state::calls::enter;
use interp_state::waiting::settle_all;
use spec_ledger::NoMemory;
use std::alloc::Allocator;
use wtypes::TrapCode;

// A level begins: the start function is called, or else the entry, where the module has none.
#[inline(always)]
pub(crate) fn start_run<'a, A: Allocator + Copy>(run: &mut Run<'a, A>) -> Turn
    requires first { IsFirst run.old }
    ensures kept { IsKept run.new }
    ensures begun { HasBegun (seen run.old) result (seen run.new) }
    ensures same { result ≡ Turn.NoMemory → IsSameCall (progress (seen run.old)) (progress (seen run.new)) }
{
    match run.lent.module.start {
        Some(start) => start_function(run, start),
        None => {
            settle_all(&mut run.parts, &mut run.waiting);
            Turn::Stepped
        }
    }
}

// A function of the module is called.
#[inline(always)]
pub(crate) fn start_function<'a, A: Allocator + Copy>(run: &mut Run<'a, A>, func: u32) -> Turn
    requires call { IsToCall run.old func }
    requires defined { length run.old.lent.hosts.now ≤ func }
    ensures kept { IsKept run.new }
    ensures turn { HasStarted (seen run.old) func result (seen run.new) }
    ensures same { result ≡ Turn.NoMemory → IsSameCall (progress (seen run.old)) (progress (seen run.new)) }
{
    match enter(run.alloc, &run.lent, func, &mut run.parts) {
        Ok(true) => {
            settle_all(&mut run.parts, &mut run.waiting);
            run.status = Status::Running;
            Turn::Stepped
        }
        Ok(false) => {
            run.status = Status::Fallen(TrapCode::CallDepth);
            Turn::Stepped
        }
        Err(_) => give_up(run),
    }
}

// Memory was refused: what is open is let go.
#[inline(always)]
pub(crate) fn give_up<'a, A: Allocator + Copy>(run: &mut Run<'a, A>) -> Turn
    requires beginning { IsBegun run.old }
    ensures kept { IsKept run.new }
    ensures no_memory { run.new.status ≡ Status.NoMemory }
    ensures turn { result ≡ Turn.NoMemory }
    ensures same { IsSameCall (progress (seen run.old)) (progress (seen run.new)) }
{
    run.parts.entries.clear();
    run.parts.depth = 0;
    run.parts.code = &[];
    run.status = Status::NoMemory;
    Turn::NoMemory
}
