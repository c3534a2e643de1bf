// Calls of imports.
ghost use Rattle.std.specs.Prelude.{◌≡◌, ◌<◌, length};
ghost use Rattle.interp.specs.HostRequests.{effect_of_code};
ghost use Rattle.interp.specs.Machine.{progress, HasAskedFor};
ghost use Rattle.interp.specs.Progress.{IsSameCall};
ghost use Rattle.interp.specs.Run.{seen, IsKept, IsToCall, IsWished};

use crate::functions::give_up;
use crate::levels::ask_contract;
use crate::replies::{HostEffect, effect_for};
use crate::run::Run;
use crate::turns::{Status, Turn};
use interp_state::values::push;
use interp_state::waiting::settle_all;
use spec_ledger::{NoMemory, Op};
use std::alloc::Allocator;
use wtypes::Value;

// An import is called: the run waits for the reply to an operation, a level is entered or refused, or the last answer is given.
#[inline(always)]
pub(crate) fn ask<'a, A: Allocator + Copy>(run: &mut Run<'a, A>, func: u32) -> Turn
    requires call { IsToCall run.old func }
    requires hosted { func < length run.old.lent.hosts.now }
    ensures kept { IsKept run.new }
    ensures turn { HasAskedFor (seen run.old) func result (seen run.new) }
    ensures same { result ≡ Turn.NoMemory → IsSameCall (progress (seen run.old)) (progress (seen run.new)) }
{
    let host = run.lent.hosts[func as usize];
    run.asked = func;
    match effect_for(run.lent.number, host, &run.parts.stack) {
        HostEffect::Of(op) => ask_host(run, op),
        HostEffect::Ask(number, export, argument) => ask_contract(run, number, export, argument),
        HostEffect::Answer => give_answer(run),
    }
}

// The host is asked for an operation.
#[inline(always)]
fn ask_host<'a, A: Allocator + Copy>(run: &mut Run<'a, A>, op: Op) -> Turn
    requires call { IsToCall run.old run.old.asked }
    requires wished { IsWished run.old (effect_of_code (HostEffect.Of op)) }
    ensures kept { IsKept run.new }
    ensures turn { HasAskedFor (seen run.old) run.old.asked result (seen run.new) }
    ensures same { result ≡ Turn.NoMemory → IsSameCall (progress (seen run.old)) (progress (seen run.new)) }
{
    if run.trace.reserve(1 + run.outer.len()).is_err() {
        run.status = Status::NoMemory;
        return Turn::NoMemory;
    }
    run.status = Status::Asking(op);
    Turn::Host(op)
}

// `answer` gives the value of the last `ask` of this level.
#[inline(never)]
fn give_answer<'a, A: Allocator + Copy>(run: &mut Run<'a, A>) -> Turn
    requires call { IsToCall run.old run.old.asked }
    requires wished { IsWished run.old (effect_of_code HostEffect.Answer) }
    ensures kept { IsKept run.new }
    ensures turn { HasAskedFor (seen run.old) run.old.asked result (seen run.new) }
    ensures same { result ≡ Turn.NoMemory → IsSameCall (progress (seen run.old)) (progress (seen run.new)) }
{
    match push(&mut run.parts.stack, Value::I64(run.answer)) {
        Ok(()) => {
            settle_all(&mut run.parts, &mut run.waiting);
            run.status = Status::Running;
            Turn::Stepped
        }
        Err(_) => give_up(run),
    }
}
