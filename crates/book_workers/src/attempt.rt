// One attempt at a call.
ghost use Rattle.std.specs.Prelude.{◌≡◌, ◌↔◌, ◌<◌, ◌≤◌, ◌^◌, Ok, true, false, IfOk, OnOk, IfSome, length};
ghost use Rattle.spec_execution.specs.Run.{IsReply};
ghost use Rattle.spec_ledger.specs.declared.Version.TheVariants.{Two};
ghost use Rattle.interp.specs.Callee.{setting_view};
ghost use Rattle.interp.specs.Progress.{IsFree, IsSameCall};
ghost use Rattle.serial.specs.MachineProgress.{MayGoOn, IsEnded};
ghost use Rattle.serial.specs.Runs.{IsRunOf};
ghost use Rattle.book_workers.specs.CommittedRuns.{IsCommitted};

use crate::Intake;
use crate::admission::AdmissionLimit;
use boost::book::{BeginRefusal, CommitRefusal, EnterRefusal, OpRefusal, Run};
use call::Call;
use interp::finished::Finished;
use interp::machine::Machine;
use link::deployed::Deployed as Contract;
use lock_profile::Touched;
use pace::{Pace, Step, must_stop_at};
use serial::{Begun, HostRequest, begin, next_request, touched_by};
use shards::{NoGate, Shards, Ticket};
use spec_ledger::{NoMemory, Op, Reply, Version};
use std::alloc::Allocator;
use std::sync::Wait;

/// What the workers share.
#[derive(Drop)]
pub struct Job<'s, 'a, A: Allocator, P: Pace> {
    /// Whose memory they take.
    pub alloc: A,
    /// The contracts.
    pub contracts: &'a [Contract<A>],
    /// The calls.
    pub calls: &'a [Call],
    /// The book that they share.
    pub book: &'s Shards<'s, NoGate, A>,
    /// Where they draw calls, and reserve their limits.
    pub intake: &'s Intake<A>,
    /// What is told each step, and may stop a worker there.
    pub pace: &'s P,
    /// How often a call is tried.
    pub tries: u32,
    /// How many attempts may run at once.
    pub admission: &'s AdmissionLimit,
}

/// A run that was committed.
#[derive(Drop)]
pub struct CommittedRun<'a, A: Allocator> {
    /// The position that the book answered.
    pub position: u32,
    /// The number of the call.
    pub call: u32,
    /// The run.
    pub finished: Finished<'a, A>,
    /// The locks that it asked for, each with the join of its modes.
    pub touched: Touched<A>,
}

/// What a call came to.
#[derive(Drop)]
pub(crate) struct CallResult<'a, A: Allocator> {
    /// Its run, where it was committed.
    pub(crate) run: Option<CommittedRun<'a, A>>,
    /// Whether the pace stopped the worker.
    pub(crate) stops: bool,
}

/// Why an attempt is not committed.
#[derive(Drop)]
enum Stop {
    /// The book refused.
    Refused,
    /// Memory was refused.
    NoMemory,
    /// The pace stopped the worker.
    Stopped,
}

/// Why an attempt stops at an operation that was refused, where the pace stops the worker or does not. Out of memory is told
/// in either case.
fn stop_at(refusal: OpRefusal, stops: bool) -> Stop
    ensures memory { (result ≡ Stop.NoMemory) ↔ (refusal ≡ OpRefusal.NoMemory) }
    ensures stopped { result ≡ Stop.Stopped → stops ≡ true }
{
    match refusal {
        OpRefusal::NoMemory => Stop::NoMemory,
        OpRefusal::Conflict | OpRefusal::Stale => {
            if stops { Stop::Stopped } else { Stop::Refused }
        }
    }
}

/// Asks the book for an operation, and tells the pace before it, and after a refusal.
fn ask<A: Allocator + Copy, R: Wait, P: Pace>(
    rt: &R,
    job: &Job<'_, '_, A, P>,
    ticket: &mut Ticket<A>,
    call: u32,
    n: u64,
    op: Op,
) -> Result<Reply, Stop>
    ensures { IfOk result (λ reply. IsReply op reply) }
{
    if must_stop_at(job.pace, Step::Op { call, n }) {
        return Err(Stop::Stopped);
    }
    match job.book.op(rt, ticket, op) {
        Ok(reply) => Ok(reply),
        Err(refusal) => {
            let stops = must_stop_at(job.pace, Step::Refused { call });
            Err(stop_at(refusal, stops))
        }
    }
}

/// Enters a level in the book.
fn enter<A: Allocator + Copy, R: Wait, P: Pace>(
    rt: &R,
    job: &Job<'_, '_, A, P>,
    ticket: &mut Ticket<A>,
) -> Result<(), Stop> {
    match job.book.enter(rt, ticket) {
        Ok(()) => Ok(()),
        Err(EnterRefusal::NoMemory) => Err(Stop::NoMemory),
        Err(EnterRefusal::Stale) => Err(Stop::Refused),
    }
}

/// Leaves the innermost level in the book: what was done in it stands, or is taken back.
fn leave<A: Allocator + Copy, R: Wait, P: Pace>(
    rt: &R,
    job: &Job<'_, '_, A, P>,
    ticket: &mut Ticket<A>,
    keep: bool,
) -> Result<(), Stop> {
    match job.book.leave(rt, ticket, keep) {
        Ok(()) => Ok(()),
        Err(_) => Err(Stop::Refused),
    }
}

/// Goes on to the next operation, or to the next level that is entered or left, and asks the book for it. Answers whether there was one. The pace
/// is told of operations alone.
fn ask_next<'a, A: Allocator + Copy, R: Wait, P: Pace>(
    rt: &R,
    job: &Job<'_, 'a, A, P>,
    ticket: &mut Ticket<A>,
    call: u32,
    machine: &mut Machine<'a, A>,
    asked: &mut u64,
) -> Result<bool, Stop>
    requires free { IsFree machine.old.status }
    requires limit { machine.old.call.fuel < 2 ^ 64 }
    requires asked { asked.old ≤ machine.old.used }
    ensures same { OnOk result (IsSameCall machine.old machine.new) }
    ensures goes_on { result ≡ Ok true → MayGoOn machine.old machine.new }
    ensures ended { result ≡ Ok false → IsEnded machine.new.status }
    ensures asked { OnOk result (asked.new ≤ machine.new.used) }
{
    match next_request(machine) {
        Ok(Some(HostRequest::Do(op))) => {
            let reply = ask(rt, job, ticket, call, *asked, op)?;
            machine.answer(reply);
            *asked += 1;
            Ok(true)
        }
        Ok(Some(HostRequest::Enter)) => {
            enter(rt, job, ticket)?;
            Ok(true)
        }
        Ok(Some(HostRequest::Leave(keep))) => {
            leave(rt, job, ticket, keep)?;
            Ok(true)
        }
        Ok(None) => Ok(false),
        Err(NoMemory) => Err(Stop::NoMemory),
    }
}

/// Runs a call that starts to its end.
fn run<'a, A: Allocator + Copy, R: Wait, P: Pace>(
    rt: &R,
    job: &Job<'_, 'a, A, P>,
    ticket: &mut Ticket<A>,
    call: u32,
    mut machine: Machine<'a, A>,
) -> Result<Finished<'a, A>, Stop>
    requires free { IsFree machine.status }
    requires limit { machine.call.fuel < 2 ^ 64 }
    ensures setting { IfOk result (λ finished. finished.setting ≡ machine.entry.setting) }
    ensures call { IfOk result (λ finished. finished.call ≡ machine.entry.call) }
{
    let mut asked = 0;
    'operations: while ask_next(rt, job, ticket, call, &mut machine, &mut asked)? {}
    match machine.finish() {
        Ok(finished) => Ok(finished),
        Err(_) => unreachable!(),
    }
}

/// Runs a live attempt to its end.
fn play<'a, A: Allocator + Copy, R: Wait, P: Pace>(
    rt: &R,
    job: &Job<'_, 'a, A, P>,
    ticket: &mut Ticket<A>,
    number: u32,
) -> Result<Finished<'a, A>, Stop>
    requires { number < length job.now.calls.now }
    ensures { IfOk result (IsRunOf (setting_view Two job.now.contracts.now) job.now.calls.now number) }
{
    let call = &job.calls[number as usize];
    let _limit = call.fuel();
    match begin(job.alloc, job.contracts, call, Version::Two) {
        Ok(Begun::Ended(finished)) => Ok(finished),
        Ok(Begun::Runs(machine)) => run(rt, job, ticket, number, machine),
        Err(NoMemory) => Err(Stop::NoMemory),
    }
}

/// Commits a live attempt by its run, and undoes it where the pace stops the worker or the book refuses.
fn commit<'a, A: Allocator + Copy, R: Wait, P: Pace>(
    rt: &R,
    job: &Job<'_, 'a, A, P>,
    ticket: Ticket<A>,
    call: u32,
    finished: Finished<'a, A>,
) -> Result<CallResult<'a, A>, Stop>
    requires { IsRunOf (setting_view Two job.now.contracts.now) job.now.calls.now call finished }
    ensures { IfOk result (λ came. IfSome came.run (IsCommitted (setting_view Two job.now.contracts.now) job.now.calls.now)) }
{
    if must_stop_at(job.pace, Step::Commit { call }) {
        job.book.undo(rt, ticket);
        return Err(Stop::Stopped);
    }
    let run = Run {
        trace: finished.trace(),
        outcome: finished.outcome(),
    };
    match job.book.commit(rt, ticket, &run) {
        Ok(position) => {
            let stops = must_stop_at(job.pace, Step::Committed { call });
            let Ok(touched) = touched_by(job.alloc, finished.trace()) else {
                return Err(Stop::NoMemory);
            };
            Ok(CallResult {
                run: Some(CommittedRun {
                    position,
                    call,
                    finished,
                    touched,
                }),
                stops,
            })
        }
        Err((ticket, refusal)) => {
            job.book.undo(rt, ticket);
            match refusal {
                CommitRefusal::Stale | CommitRefusal::Differs => Err(Stop::Refused),
                CommitRefusal::NoMemory => Err(Stop::NoMemory),
            }
        }
    }
}

/// One attempt at a call: its run, where it was committed.
fn attempt<'a, A: Allocator + Copy, R: Wait, P: Pace>(
    rt: &R,
    job: &Job<'_, 'a, A, P>,
    call: u32,
    nth: u32,
) -> Result<CallResult<'a, A>, Stop>
    requires { call < length job.now.calls.now }
    ensures { IfOk result (λ came. IfSome came.run (IsCommitted (setting_view Two job.now.contracts.now) job.now.calls.now)) }
{
    if must_stop_at(job.pace, Step::Attempt { call, nth }) {
        return Err(Stop::Stopped);
    }
    let mut ticket = match job.book.begin(rt, call) {
        Ok(ticket) => ticket,
        Err(BeginRefusal::NoMemory) => return Err(Stop::NoMemory),
        Err(_) => return Err(Stop::Refused),
    };
    match play(rt, job, &mut ticket, call) {
        Ok(finished) => commit(rt, job, ticket, call, finished),
        Err(stop) => {
            job.book.undo(rt, ticket);
            Err(stop)
        }
    }
}

/// Tries a call until it is committed or the pace stops the worker, at most as often as the job says. It has no run where each try
/// was refused.
pub(crate) fn try_call<'a, A: Allocator + Copy, R: Wait, P: Pace>(
    rt: &R,
    job: &Job<'_, 'a, A, P>,
    call: u32,
) -> Result<CallResult<'a, A>, NoMemory>
    requires { call < length job.now.calls.now }
    ensures { IfOk result (λ came. IfSome came.run (IsCommitted (setting_view Two job.now.contracts.now) job.now.calls.now)) }
{
    for nth in 0..job.tries {
        job.admission.begin();
        match attempt(rt, job, call, nth) {
            Ok(came) => {
                job.admission.commit();
                return Ok(came);
            }
            Err(Stop::NoMemory) => {
                job.admission.undo();
                return Err(NoMemory);
            }
            Err(Stop::Stopped) => {
                job.admission.undo();
                return Ok(CallResult {
                    run: None,
                    stops: true,
                });
            }
            Err(Stop::Refused) => job.admission.undo(),
        }
    }
    Ok(CallResult {
        run: None,
        stops: false,
    })
}
