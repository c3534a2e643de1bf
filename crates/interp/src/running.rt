// Turns: the charged reduction of an instruction with the free ones that follow, and what is told at an end.
ghost use Rattle.std.specs.Prelude.{◌≡◌, ◌≢◌, ◌<◌, true, false, [], length};
ghost use Rattle.interp.specs.HostRequests.{number_of};
ghost use Rattle.interp.specs.Machine.{progress, HasRoom, IsShut};
ghost use Rattle.interp.specs.Progress.{NextIs, IsToStop, IsSameCall, MayTakeMemory, WantsMemory, IsTold, IsFree, LastIs};
ghost use Rattle.interp.specs.Run.{seen, IsKept};
ghost use Rattle.interp.specs.Turns.{AreSteps, HasTurned};

use crate::functions::{give_up, start_function};
use crate::imports::ask;
use crate::levels::{close, leave, status_of};
use crate::run::Run;
use crate::turns::{Status, Turn};
use interp_state::plain::After;
use interp_state::waiting::settle_all;
use interp_steps::steps::execute;
use interp_steps::straight_line::run_straight_line;
use spec_ledger::{NoMemory, Outcome};
use std::alloc::Allocator;
use wtypes::{TrapCode, Value};

// Makes a turn, where the run has not ended.
#[inline(always)]
pub(crate) fn next_turn<'a, A: Allocator + Copy>(run: &mut Run<'a, A>) -> Turn
    requires kept { IsKept run.old }
    requires free { IsFree run.old.status }
    ensures kept { IsKept run.new }
    ensures turn { NextIs (progress (seen run.old)) result (progress (seen run.new)) }
    ensures told { IsTold (progress (seen run.old)) result (progress (seen run.new)) }
    ensures no_memory { result ≡ Turn.NoMemory → WantsMemory (progress (seen run.old)) run.old.status }
    ensures same { result ≡ Turn.NoMemory → IsSameCall (progress (seen run.old)) (progress (seen run.new)) }
{
    match run.status {
        Status::Running => make_turn(run),
        _ => tell(run),
    }
}

// Makes turns up to the first that does not step.
pub(crate) fn turn_on<'a, A: Allocator + Copy>(run: &mut Run<'a, A>) -> Turn
    requires kept { IsKept run.old }
    requires free { IsFree run.old.status }
    ensures kept { IsKept run.new }
    ensures turned { HasTurned (progress (seen run.old)) result (progress (seen run.new)) }
    ensures stops { result ≢ Turn.Stepped }
{
    'turns: loop {
        match run.status {
            Status::Running => match make_turns(run) {
                Turn::Stepped => {}
                Turn::Host(op) => return Turn::Host(op),
                Turn::Enter => return Turn::Enter,
                Turn::Leave(keep) => return Turn::Leave(keep),
                Turn::NoMemory => return Turn::NoMemory,
                Turn::Done(outcome) => return Turn::Done(outcome),
            },
            _ => return tell(run),
        }
    }
}

// The run goes on: it makes turns up to the first after which this is not sure. Between two of them nothing is asked but
// whether code and fuel are left, and behind a call whether it trapped.
#[inline(always)]
fn make_turns<'a, A: Allocator + Copy>(run: &mut Run<'a, A>) -> Turn
    requires kept { IsKept run.old }
    requires running { run.old.status ≡ Status.Running }
    ensures kept { IsKept run.new }
    ensures turned { HasTurned (progress (seen run.old)) result (progress (seen run.new)) }
{
    'turns: loop {
        if run.parts.code.is_empty() {
            return end_level(run);
        }
        if run.used == run.call.fuel() {
            return run_out(run);
        }
        if run_straight_line_on(run) {
            continue;
        }
        match execute(&run.lent, &mut run.parts) {
            Ok(After::Ran) => {
                run.used += 1;
                settle_all(&mut run.parts, &mut run.waiting);
            }
            Ok(After::Fell(code)) => {
                run.used += 1;
                run.status = Status::Fallen(code);
                return Turn::Stepped;
            }
            Ok(After::Calls(f)) => {
                run.used += 1;
                if (f as usize) < run.lent.hosts.len() {
                    return ask(run, f);
                }
                match start_function(run, f) {
                    Turn::Stepped => match run.status {
                        Status::Running => {}
                        _ => return Turn::Stepped,
                    },
                    turn => return turn,
                }
            }
            Err(_) => return give_up(run),
        }
    }
}

// The run goes on, an instruction is to come, and there is fuel for it: it makes turns at once, and tells whether the run
// has to be looked at again: its code or its fuel may be at an end.
#[inline(always)]
fn run_straight_line_on<'a, A: Allocator + Copy>(run: &mut Run<'a, A>) -> bool
    requires kept { IsKept run.old }
    requires running { run.old.status ≡ Status.Running }
    requires some { run.old.parts.code.now ≢ [] }
    requires left { run.old.used ≢ run.old.call.now.fuel }
    ensures kept { IsKept run.new }
    ensures running { run.new.status ≡ Status.Running }
    ensures steps { AreSteps (progress (seen run.old)) (progress (seen run.new)) }
    ensures more { result ≡ true → run.old.used < run.new.used }
    ensures some { result ≡ false → run.new.parts.code.now ≢ [] }
    ensures left { result ≡ false → run.new.used ≢ run.new.call.now.fuel }
{
    let made = run_straight_line(&run.lent, &mut run.parts, run.call.fuel() - run.used);
    if made == 0 {
        return false;
    }
    run.used += made;
    settle_all(&mut run.parts, &mut run.waiting);
    run.parts.code.is_empty() || run.used == run.call.fuel()
}

// The run goes on: it makes a turn, or it is found at its end.
#[inline(always)]
fn make_turn<'a, A: Allocator + Copy>(run: &mut Run<'a, A>) -> Turn
    requires kept { IsKept run.old }
    requires running { run.old.status ≡ Status.Running }
    ensures kept { IsKept run.new }
    ensures turn { NextIs (progress (seen run.old)) result (progress (seen run.new)) }
    ensures no_memory { result ≡ Turn.NoMemory → MayTakeMemory (progress (seen run.old)) }
    ensures same { result ≡ Turn.NoMemory → IsSameCall (progress (seen run.old)) (progress (seen run.new)) }
{
    if run.parts.code.is_empty() {
        return end_level(run);
    }
    if run.used == run.call.fuel() {
        return run_out(run);
    }
    match execute(&run.lent, &mut run.parts) {
        Ok(After::Ran) => {
            run.used += 1;
            settle_all(&mut run.parts, &mut run.waiting);
            Turn::Stepped
        }
        Ok(After::Fell(code)) => {
            run.used += 1;
            run.status = Status::Fallen(code);
            Turn::Stepped
        }
        Ok(After::Calls(f)) => {
            run.used += 1;
            if (f as usize) < run.lent.hosts.len() {
                ask(run, f)
            } else {
                start_function(run, f)
            }
        }
        Err(_) => give_up(run),
    }
}

// The fuel is out, and an instruction is to come.
#[inline(always)]
fn run_out<'a, A: Allocator + Copy>(run: &mut Run<'a, A>) -> Turn
    requires kept { IsKept run.old }
    requires running { run.old.status ≡ Status.Running }
    requires some { run.old.parts.code.now ≢ [] }
    requires out { run.old.used ≡ run.old.call.now.fuel }
    ensures done { result ≢ Turn.NoMemory }
    ensures kept { IsKept run.new }
    ensures turn { NextIs (progress (seen run.old)) result (progress (seen run.new)) }
{
    tell_out_of_fuel(run)
}

// Tells how the run ended, or that memory was refused. It is a function of its own so that the turns before pay nothing for it.
#[inline(always)]
fn tell<'a, A: Allocator + Copy>(run: &mut Run<'a, A>) -> Turn
    requires kept { IsKept run.old }
    requires free { IsFree run.old.status }
    requires stopped { run.old.status ≢ Status.Running }
    ensures kept { IsKept run.new }
    ensures turn { NextIs (progress (seen run.old)) result (progress (seen run.new)) }
    ensures told { IsTold (progress (seen run.old)) result (progress (seen run.new)) }
    ensures no_memory { result ≡ Turn.NoMemory → WantsMemory (progress (seen run.old)) run.old.status }
    ensures same { result ≡ Turn.NoMemory → IsSameCall (progress (seen run.old)) (progress (seen run.new)) }
{
    match run.status {
        Status::Ended(outcome) => Turn::Done(outcome),
        Status::NoMemory => Turn::NoMemory,
        Status::Asking(_) => unreachable!(),
        Status::Fallen(code) => tell_trap(run, code),
        Status::Closing => tell_out_of_fuel(run),
        Status::Running => unreachable!(),
    }
}

// The innermost level has trapped: it is left, or else the run has ended.
#[inline(never)]
fn tell_trap<'a, A: Allocator + Copy>(run: &mut Run<'a, A>, code: TrapCode) -> Turn
    requires kept { IsKept run.old }
    requires fallen { run.old.status ≡ Status.Fallen code }
    ensures done { result ≢ Turn.NoMemory }
    ensures kept { IsKept run.new }
    ensures turn { NextIs (progress (seen run.old)) result (progress (seen run.new)) }
    ensures told { LastIs result (Outcome.Trapped code) (seen run.old).outer }
{
    if run.outer.is_empty() {
        run.status = Status::Ended(Outcome::Trapped(code));
        Turn::Done(Outcome::Trapped(code))
    } else {
        leave(run, status_of(code), 0, false)
    }
}

// The fuel is out: the innermost level is left, or else the run has ended.
#[inline(never)]
fn tell_out_of_fuel<'a, A: Allocator + Copy>(run: &mut Run<'a, A>) -> Turn
    requires kept { IsKept run.old }
    requires shut { IsShut (seen run.old) }
    requires stops { IsToStop (progress (seen run.old)) run.old.status }
    requires room { HasRoom Status.Running (length run.old.outer.items) run.old.trace }
    ensures done { result ≢ Turn.NoMemory }
    ensures kept { IsKept run.new }
    ensures turn { NextIs (progress (seen run.old)) result (progress (seen run.new)) }
    ensures told { LastIs result Outcome.OutOfFuel (seen run.old).outer }
{
    if run.outer.is_empty() {
        run.status = Status::Ended(Outcome::OutOfFuel);
        Turn::Done(Outcome::OutOfFuel)
    } else {
        close(run)
    }
}

// The innermost level is at its end.
#[inline(always)]
fn end_level<'a, A: Allocator + Copy>(run: &mut Run<'a, A>) -> Turn
    requires kept { IsKept run.old }
    requires running { run.old.status ≡ Status.Running }
    requires at_end { run.old.parts.code.now ≡ [] }
    ensures done { result ≢ Turn.NoMemory }
    ensures kept { IsKept run.new }
    ensures turn { NextIs (progress (seen run.old)) result (progress (seen run.new)) }
{
    if run.outer.is_empty() {
        give_result(run)
    } else {
        let answer = number(run.parts.stack.last().copied());
        leave(run, 0, answer, true)
    }
}

// The number of a value, 0 where there is none.
fn number(value: Option<Value>) -> i64
    ensures { result ≡ number_of value }
{
    match value {
        Some(Value::I32(x)) => x as i64,
        Some(Value::I64(x)) => x,
        None => 0,
    }
}

// The run has ended, with what is left.
#[inline(always)]
fn give_result<'a, A: Allocator + Copy>(run: &mut Run<'a, A>) -> Turn
    requires kept { IsKept run.old }
    requires running { run.old.status ≡ Status.Running }
    requires at_end { run.old.parts.code.now ≡ [] }
    requires outermost { run.old.outer.items ≡ [] }
    ensures done { result ≢ Turn.NoMemory }
    ensures kept { IsKept run.new }
    ensures turn { NextIs (progress (seen run.old)) result (progress (seen run.new)) }
{
    let outcome = Outcome::Returned(run.parts.stack.last().copied());
    run.status = Status::Ended(outcome);
    Turn::Done(outcome)
}
