// Levels that are entered and left.
ghost use Rattle.std.specs.Prelude.{◌≡◌, ◌<◌, ◌≤◌, ◌+◌, ◌-◌, ◌^◌, ◌∷◌, [], false, length, vec_len, vec_capacity, IfOk};
ghost use Rattle.spec_execution.specs.Levels.{trap_status};
ghost use Rattle.interp.specs.HostRequests.{effect_of_code};
ghost use Rattle.interp.specs.declared.replies.HostEffect.{HostEffect};
ghost use Rattle.interp.specs.Machine.{progress, HasAskedFor, HasRoom, IsLeaving, IsToClose};
ghost use Rattle.wtypes.specs.declared.Value.TheVariants as value;
ghost use Rattle.interp.specs.Progress.{HasLeft, IsSameCall, mark_of};
ghost use Rattle.interp.specs.Run.{seen, IsKept, restored_run, IsToCall, IsWished, IsToEnter, HasPushed, IsFreshLevel};
ghost use Rattle.interp_state.specs.Waiting.{IsEntry};
ghost use Rattle.link.specs.Parts.{hosts_of};
ghost use Rattle.instance.specs.Views.{contract_of};

use crate::functions::{give_up, start_run};
use crate::replies::{record_step, take_status};
use crate::run::{Level, Run};
use crate::turns::{Status, Turn};
use instance::{Instance, asked_entry, open_instance};
use interp_state::callee::Callee;
use interp_state::parts::Parts;
use interp_state::waiting::{prepare, settle_all};
use link::deployed::Deployed;
use spec_ledger::{NoMemory, TraceStep, Version};
use std::alloc::{AllocError, Allocator};
use std::mem;
use wtypes::{TrapCode, Value};

// `ask` enters a level, or goes on with the status that says why it does not.
#[inline(never)]
pub(crate) fn ask_contract<'a, A: Allocator + Copy>(
    run: &mut Run<'a, A>,
    number: u32,
    export: u32,
    argument: i64,
) -> Turn
    requires call { IsToCall run.old run.old.asked }
    requires wished { IsWished run.old (effect_of_code (HostEffect.Ask number export argument)) }
    ensures kept { IsKept run.new }
    ensures turn { HasAskedFor (seen run.old) run.old.asked result (seen run.new) }
    ensures same { result ≡ Turn.NoMemory → IsSameCall (progress (seen run.old)) (progress (seen run.new)) }
{
    match asked_entry(run.contracts, run.outer.len(), number, export) {
        Ok((deployed, entry)) => enter_level(run, number, deployed, entry, argument),
        Err(status) => {
            take_status(&mut run.parts.stack, status);
            run.answer = 0;
            settle_all(&mut run.parts, &mut run.waiting);
            run.status = Status::Running;
            Turn::Stepped
        }
    }
}

// A level is entered: all that it needs of memory is taken before anything changes.
fn enter_level<'a, A: Allocator + Copy>(
    run: &mut Run<'a, A>,
    number: u32,
    deployed: &'a Deployed<A>,
    entry: u32,
    argument: i64,
) -> Turn
    requires call { IsToCall run.old run.old.asked }
    requires enters { IsToEnter run.old number deployed.now entry argument }
    ensures kept { IsKept run.new }
    ensures turn { HasAskedFor (seen run.old) run.old.asked result (seen run.new) }
    ensures same { result ≡ Turn.NoMemory → IsSameCall (progress (seen run.old)) (progress (seen run.new)) }
{
    if run.entered == u32::MAX {
        return give_up(run);
    }
    let Ok(fresh) = open_level(run.alloc, run.version, number, deployed, entry, argument) else {
        return give_up(run);
    };
    match make_room(&mut run.trace, &mut run.outer) {
        Ok(()) => {
            push_level(run, fresh);
            match start_run(run) {
                Turn::Stepped => Turn::Enter,
                Turn::NoMemory => Turn::NoMemory,
                _ => unreachable!(),
            }
        }
        Err(_) => give_up(run),
    }
}

// The innermost level waits, and a fresh one is the innermost.
fn push_level<'a, A: Allocator + Copy>(run: &mut Run<'a, A>, fresh: Level<'a, A>)
    requires few { run.old.entered < 2 ^ 32 - 1 }
    requires marks { vec_len run.old.trace + (vec_len run.old.outer + 2) ≤ vec_capacity run.old.trace }
    requires place { vec_len run.old.outer < vec_capacity run.old.outer }
    ensures { HasPushed run.old fresh.entry run.new }
{
    record_step(&mut run.trace, TraceStep::Opened);
    run.entered += 1;
    run.outer.push_reserved(Level {
        lent: mem::replace(&mut run.lent, fresh.lent),
        argument: mem::replace(&mut run.argument, fresh.argument),
        parts: mem::replace(&mut run.parts, fresh.parts),
        waiting: mem::replace(&mut run.waiting, fresh.waiting),
        asked: run.asked,
        answer: mem::replace(&mut run.answer, fresh.answer),
    });
    run.status = Status::Running;
}

// Room for a level more: for what is kept of it, for its mark and the one that leaves it, and for those of the others.
fn make_room<'a, A: Allocator + Copy>(
    trace: &mut Vec<TraceStep, A>,
    outer: &mut Vec<Level<'a, A>, A>,
) -> Result<(), AllocError>
    ensures trace { trace.new.items ≡ trace.old.items }
    ensures outer { outer.new.items ≡ outer.old.items }
    ensures marks { IfOk result (λ _. vec_len trace.new + (vec_len outer.new + 2) ≤ vec_capacity trace.new) }
    ensures place { IfOk result (λ _. vec_len outer.new < vec_capacity outer.new) }
{
    trace.reserve(2 + outer.len())?;
    outer.reserve(1)
}

// A fresh level of this contract, whose entry waits.
fn open_level<'a, A: Allocator + Copy>(
    alloc: A,
    version: Version,
    number: u32,
    deployed: &'a Deployed<A>,
    entry: u32,
    argument: i64,
) -> Result<Level<'a, A>, NoMemory>
    requires entry { IsEntry (contract_of version number deployed.now) entry (value.I64 argument ∷ []) }
    requires defined { length (hosts_of deployed.now) ≤ entry }
    ensures { IfOk result (λ level. IsFreshLevel version number deployed.now entry argument level) }
{
    let lent = Callee {
        number,
        module: deployed.module(),
        hosts: deployed.hosts(),
        version,
    };
    let instance = open_instance(alloc, version, deployed)?;
    let waiting = prepare(alloc, &lent, entry, &[Value::I64(argument)])?;
    Ok(Level {
        lent,
        argument: Some(argument),
        parts: no_parts(alloc, instance),
        waiting: Some(waiting),
        asked: 0,
        answer: 0,
    })
}

// Parts with nothing open.
pub(crate) fn no_parts<'a, A: Allocator + Copy>(alloc: A, instance: Instance<'a, A>) -> Parts<'a, A>
    ensures instance { result.instance ≡ instance.entry }
    ensures code { result.code.now ≡ [] }
    ensures entries { result.entries.items ≡ [] }
    ensures depth { result.depth ≡ 0 }
    ensures stack { result.stack.items ≡ [] }
    ensures locals { result.locals.items ≡ [] }
{
    Parts {
        code: &[],
        entries: Vec::new(alloc),
        depth: 0,
        stack: Vec::new(alloc),
        locals: Vec::new(alloc),
        instance,
        spare: Vec::new(alloc),
    }
}

// How many items a list holds at most whose room the next call uses. A longer one is given back.
const MOST_KEPT: usize = 2_048;

// Empties a list, and gives its room back where that is large.
pub(crate) fn empty_list<T: Drop, A: Allocator>(list: &mut Vec<T, A>)
    ensures { list.new.items ≡ [] }
{
    list.clear();
    list.shrink_to(MOST_KEPT);
}

// Leaves nothing open in parts, which are then of this instance. The room of their lists stays.
pub(crate) fn empty_parts<'a, A: Allocator + Copy>(
    parts: &mut Parts<'a, A>,
    instance: Instance<'a, A>,
)
    ensures instance { parts.new.instance ≡ instance.entry }
    ensures code { parts.new.code.now ≡ [] }
    ensures entries { parts.new.entries.items ≡ [] }
    ensures depth { parts.new.depth ≡ 0 }
    ensures stack { parts.new.stack.items ≡ [] }
    ensures locals { parts.new.locals.items ≡ [] }
{
    parts.code = &[];
    parts.entries.clear();
    parts.depth = 0;
    empty_list(&mut parts.stack);
    empty_list(&mut parts.locals);
    parts.instance = instance;
}

// The innermost level is left, and the one around it goes on with this status and this answer.
#[inline(never)]
pub(crate) fn leave<'a, A: Allocator + Copy>(
    run: &mut Run<'a, A>,
    status: u8,
    answer: i64,
    keep: bool,
) -> Turn
    requires kept { IsKept run.old }
    requires leaving { IsLeaving (seen run.old) status answer keep }
    requires room { HasRoom Status.Running (length run.old.outer.items) run.old.trace }
    ensures kept { IsKept run.new }
    ensures told { result ≡ Turn.Leave keep }
    ensures turn { HasLeft (progress (seen run.old)) keep (progress (seen run.new)) }
{
    let level = run.outer.take_last();
    record_step(&mut run.trace, mark(keep));
    restore(run, level);
    run.answer = answer;
    take_status(&mut run.parts.stack, status);
    settle_all(&mut run.parts, &mut run.waiting);
    run.status = Status::Running;
    Turn::Leave(keep)
}

// The fuel is out, and the innermost level is left.
#[inline(never)]
pub(crate) fn close<'a, A: Allocator + Copy>(run: &mut Run<'a, A>) -> Turn
    requires kept { IsKept run.old }
    requires closes { IsToClose (seen run.old) }
    requires room { HasRoom Status.Running (length run.old.outer.items) run.old.trace }
    ensures kept { IsKept run.new }
    ensures told { result ≡ Turn.Leave false }
    ensures turn { HasLeft (progress (seen run.old)) false (progress (seen run.new)) }
{
    let level = run.outer.take_last();
    record_step(&mut run.trace, TraceStep::Dropped);
    restore(run, level);
    run.status = Status::Closing;
    Turn::Leave(false)
}

// A level that has waited is the innermost one again.
fn restore<'a, A: Allocator + Copy>(run: &mut Run<'a, A>, level: Level<'a, A>)
    ensures { run.new ≡ restored_run run.old level.entry }
{
    run.lent = level.lent;
    run.argument = level.argument;
    run.parts = level.parts;
    run.waiting = level.waiting;
    run.asked = level.asked;
    run.answer = level.answer;
}

// How a level is left, in a trace.
fn mark(keep: bool) -> TraceStep
    ensures { result ≡ mark_of keep }
{
    if keep {
        TraceStep::Kept
    } else {
        TraceStep::Dropped
    }
}

// What an `ask` gives where the level that it entered traps.
pub(crate) fn status_of(code: TrapCode) -> u8
    ensures { result ≡ trap_status code }
{
    match code {
        TrapCode::Unreachable => 1,
        TrapCode::DivideByZero => 2,
        TrapCode::IntegerOverflow => 3,
        TrapCode::MemoryOutOfBounds => 4,
        TrapCode::ElementOutOfTable => 5,
        TrapCode::EmptyElement => 6,
        TrapCode::TypeMismatch => 7,
        TrapCode::CallDepth => 8,
    }
}
