//! A worker's run of a position's call, over the cells that the workers share.

ghost use Rattle.std.specs.Prelude.{◌≡◌, ◌<◌, ◌≤◌, ◌^◌, Ok, true, false, IfOk, IfSome, OnOk, length};
ghost use Rattle.spec_execution.specs.Run.{IsReply};
ghost use Rattle.interp.specs.Callee.{setting_view};
ghost use Rattle.interp.specs.Progress.{IsFree, IsSameCall};
ghost use Rattle.serial.specs.MachineProgress.{MayGoOn, IsEnded};
ghost use Rattle.validator.specs.PositionRuns.{IsMade, IsRunIn};
ghost use Rattle.validator.specs.Jobs.{IsJob};

use crate::job::{Job, PositionResult, PositionRun};
use crate::profile::allows;
use call::Call;
use in_order::Task;
use interp::finished::Finished;
use interp::machine::Machine;
use link::deployed::Deployed as Contract;
use lock_profile::Profile;
use pace::{Pace, Step, acquire, must_stop_at};
use serial::{Begun, HostRequest, begin, next_request};
use spec_ledger::{NoMemory, Op, Reply, Version};
use std::alloc::Allocator;
use std::sync::{Mutex, Wait};
use storage::{Ahead, returned};

/// Why a run is not made.
#[derive(Drop)]
enum Stop {
    /// It asked for an operation outside its profile.
    Outside,
    /// Memory was refused.
    NoMemory,
    /// The pace stopped the worker.
    Stopped,
}

/// A position, the number of its call, what the call may ask for, the cells that it is run over, and who is told.
#[derive(Drop)]
struct AttemptContext<'s, A: Allocator, P: Pace> {
    position: u32,
    number: u32,
    profile: &'s Profile<A>,
    ahead: &'s Mutex<Ahead<A>>,
    pace: &'s P,
}

/// Does an operation for a position, under the lock of the cells.
fn act<A: Allocator + Copy>(
    rt: &impl Wait,
    ahead: &Mutex<Ahead<A>>,
    position: u32,
    op: Op,
) -> Result<Reply, Stop>
    ensures { IfOk result (λ reply. IsReply op reply) }
{
    let mut ahead = acquire(rt, ahead);
    match ahead.act(position as usize, op) {
        Ok(Some(reply)) => Ok(reply),
        Ok(None) => Err(Stop::Outside),
        Err(_) => Err(Stop::NoMemory),
    }
}

/// Does an operation that is within the profile, and tells the pace before it, which may stop the worker.
fn ask<A: Allocator + Copy, R: Wait, P: Pace>(
    rt: &R,
    place: &AttemptContext<'_, A, P>,
    n: u64,
    op: Op,
) -> Result<Reply, Stop>
    ensures { IfOk result (λ reply. IsReply op reply) }
{
    let step = Step::Op {
        call: place.number,
        n,
    };
    if must_stop_at(place.pace, step) {
        return Err(Stop::Stopped);
    }
    if !allows(place.profile, op) {
        return Err(Stop::Outside);
    }
    act(rt, place.ahead, place.position, op)
}

/// Notes how many operations a position has done where a level is entered.
fn enter<A: Allocator + Copy, R: Wait, P: Pace>(
    rt: &R,
    place: &AttemptContext<'_, A, P>,
    marks: &mut Vec<usize, A>,
) -> Result<(), Stop> {
    let mark = acquire(rt, place.ahead).count(place.position as usize);
    match marks.push(mark) {
        Ok(()) => Ok(()),
        Err(_) => Err(Stop::NoMemory),
    }
}

/// Leaves the innermost level of a position, which the last mark is of: what was done in it stands, or is taken back under the lock of the cells.
fn leave<A: Allocator + Copy, R: Wait, P: Pace>(
    rt: &R,
    place: &AttemptContext<'_, A, P>,
    marks: &mut Vec<usize, A>,
    keep: bool,
) {
    let Some(mark) = marks.pop() else {
        return;
    };
    if keep {
        return;
    }
    acquire(rt, place.ahead).take_back_to(place.position as usize, mark);
}

/// Goes on to the next operation, or to the next level that is entered or left, and does it. Answers whether there was one.
fn do_next<'a, A: Allocator + Copy, R: Wait, P: Pace>(
    rt: &R,
    place: &AttemptContext<'_, A, P>,
    machine: &mut Machine<'a, A>,
    marks: &mut Vec<usize, A>,
    asked: &mut u64,
) -> Result<bool, Stop>
    requires free { IsFree machine.old.status }
    requires limit { machine.old.call.fuel < 2 ^ 64 }
    requires asked { asked.old ≤ machine.old.used }
    ensures same { OnOk result (IsSameCall machine.old machine.new) }
    ensures goes_on { result ≡ Ok true → MayGoOn machine.old machine.new }
    ensures ended { result ≡ Ok false → IsEnded machine.new.status }
    ensures asked { OnOk result (asked.new ≤ machine.new.used) }
{
    match next_request(machine) {
        Ok(Some(HostRequest::Do(op))) => {
            let reply = ask(rt, place, *asked, op)?;
            machine.answer(reply);
            *asked += 1;
            Ok(true)
        }
        Ok(Some(HostRequest::Enter)) => {
            enter(rt, place, marks)?;
            Ok(true)
        }
        Ok(Some(HostRequest::Leave(keep))) => {
            leave(rt, place, marks, keep);
            Ok(true)
        }
        Ok(None) => Ok(false),
        Err(NoMemory) => Err(Stop::NoMemory),
    }
}

/// Runs a call that starts to its end.
fn run<'a, A: Allocator + Copy, R: Wait, P: Pace>(
    rt: &R,
    alloc: A,
    place: &AttemptContext<'_, A, P>,
    mut machine: Machine<'a, A>,
) -> Result<Finished<'a, A>, Stop>
    requires free { IsFree machine.status }
    requires limit { machine.call.fuel < 2 ^ 64 }
    ensures setting { IfOk result (λ finished. finished.setting ≡ machine.entry.setting) }
    ensures call { IfOk result (λ finished. finished.call ≡ machine.entry.call) }
{
    let mut asked = 0;
    // how many operations there were where each open level was entered, the innermost last
    let mut marks = Vec::new(alloc);
    'operations: while do_next(rt, place, &mut machine, &mut marks, &mut asked)? {}
    match machine.finish() {
        Ok(finished) => Ok(finished),
        Err(_) => unreachable!(),
    }
}

/// Runs the call of a number to its end.
fn play<'a, A: Allocator + Copy, R: Wait, P: Pace>(
    rt: &R,
    job: &Job<'_, 'a, A, P>,
    place: &AttemptContext<'_, A, P>,
    number: u32,
) -> Result<Finished<'a, A>, Stop>
    requires { number < length job.now.ordered.task.calls.now }
    ensures { IfOk result (IsRunIn job.now number) }
{
    let alloc = job.ordered.alloc;
    let Task {
        contracts,
        calls,
        version,
    } = job.ordered.task;
    let call = &calls[number as usize];
    let _limit = call.fuel();
    match begin(alloc, contracts, call, version) {
        Ok(Begun::Ended(finished)) => Ok(finished),
        Ok(Begun::Runs(machine)) => run(rt, alloc, place, machine),
        Err(NoMemory) => Err(Stop::NoMemory),
    }
}

/// Whether what a call did stands: where it was run to its end, and returned.
fn stands<A: Allocator + Copy>(played: &Result<Finished<'_, A>, Stop>) -> bool {
    match played {
        Ok(finished) => returned(finished.outcome()),
        Err(_) => false,
    }
}

/// Runs the call of a position over the cells that the workers share, as far as its profile has them, and ends what it did: that stands only where
/// the call returned. There is no run where the call asks for what is not in its profile, or where the pace stops the worker.
pub(crate) fn attempt<'a, A: Allocator + Copy, R: Wait, P: Pace>(
    rt: &R,
    job: &Job<'_, 'a, A, P>,
    ahead: &Mutex<Ahead<A>>,
    position: u32,
) -> Result<PositionResult<'a, A>, NoMemory>
    requires { IsJob job.now }
    ensures { IfOk result (λ came. IfSome came.run (IsMade job.now)) }
{
    let at = position as usize;
    let order = job.ordered.order;
    let trial = job.trial;
    let positions = trial.block.positions();
    if at >= order.len() || at >= positions.len() {
        return Ok(PositionResult {
            run: None,
            stops: false,
        });
    }
    let number = order[at];
    let step = Step::Attempt {
        call: number,
        nth: 0,
    };
    if must_stop_at(job.ordered.pace, step) {
        return Ok(PositionResult {
            run: None,
            stops: true,
        });
    }
    let place = AttemptContext {
        position,
        number,
        profile: positions[at].profile(),
        ahead,
        pace: job.ordered.pace,
    };
    let played = play(rt, job, &place, number);
    acquire(rt, ahead).end(at, stands(&played));
    match played {
        Ok(finished) => Ok(PositionResult {
            run: Some(PositionRun { position, finished }),
            stops: false,
        }),
        Err(Stop::Outside) => Ok(PositionResult {
            run: None,
            stops: false,
        }),
        Err(Stop::Stopped) => Ok(PositionResult {
            run: None,
            stops: true,
        }),
        Err(Stop::NoMemory) => Err(NoMemory),
    }
}
