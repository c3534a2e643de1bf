//! The one loop of a call over storage: whoever keeps the storage answers what the run asks for.

ghost use Rattle.std.specs.Prelude.{◌≡◌, ◌<◌, ◌≤◌, ◌^◌, [], List, Ok, true, false, IfOk, OnOk, OnErr};
ghost use Rattle.spec_ledger.specs.declared.TraceStep.{TraceStep};
ghost use Rattle.spec_ledger.specs.declared.TraceStep.TheVariants.{Did, Opened};
ghost use Rattle.spec_execution.specs.Run.{IsReply};
ghost use Rattle.interp.specs.Callee.{setting_view};
ghost use Rattle.interp.specs.Progress.{IsFree, IsSameCall, mark_of};
ghost use Rattle.serial.specs.MachineProgress.{MayGoOn, IsEnded};
ghost use Rattle.serial.specs.Over.{AreSomeLeft, IsLed, LeadsOn, Leaves};

use crate::{Begun, HostRequest, begin, next_request};
use call::Call;
use interp::finished::Finished;
use interp::machine::Machine;
use link::deployed::Deployed as Contract;
use spec_ledger::{NoMemory, Op, Reply, Version};
use std::alloc::Allocator;

/// Storage that a call runs over, with what the call has done so far: cells, a view of cells, or a book that others use at once.
pub trait Storage {
    /// Why an operation or a level is refused.
    type Refusal: Drop;

    /// These steps led from the first to the second.
    ghost led: { Self → List TraceStep → Self → Type 0 };

    /// These steps are what is left, where a further one was refused.
    ghost left: { Self → List TraceStep → Self → Type 0 };

    /// Where nothing was refused they are left, too.
    ghost stay: { (start now : Self) (trace : List TraceStep) → led start trace now → left start trace now };

    /// Does an operation. The call has done so many before.
    fn act(&mut self, asked: u64, op: Op) -> Result<Reply, Self::Refusal>
        requires { IsLed led self.old }
        ensures reply { IfOk result (λ reply. IsReply op reply) }
        ensures on { IfOk result (λ reply. LeadsOn led (Did op reply) self.old self.new) }
        ensures rest { OnErr result (Leaves led left self.old self.new) };

    /// Enters a level.
    fn enter(&mut self) -> Result<(), Self::Refusal>
        requires { IsLed led self.old }
        ensures on { OnOk result (LeadsOn led Opened self.old self.new) }
        ensures rest { OnErr result (Leaves led left self.old self.new) };

    /// Leaves the innermost level: what was done in it stands where this is true, and else is taken back.
    fn leave(&mut self, keep: bool) -> Result<(), Self::Refusal>
        requires { IsLed led self.old }
        ensures on { OnOk result (LeadsOn led (mark_of keep) self.old self.new) }
        ensures rest { OnErr result (Leaves led left self.old self.new) };

    /// The refusal where memory was refused to the call itself.
    fn no_memory() -> Self::Refusal;
}

/// Goes on to the next operation, or to the next level that is entered or left, and has it done. Answers whether there was one.
fn do_next<'a, A: Allocator + Copy, S: Storage>(
    machine: &mut Machine<'a, A>,
    storage: &mut S,
    asked: &mut u64,
) -> Result<bool, S::Refusal>
    requires free { IsFree machine.old.status }
    requires limit { machine.old.call.fuel < 2 ^ 64 }
    requires asked { asked.old ≤ machine.old.used }
    requires led { (start : S) × S.led start machine.old.trace storage.old }
    ensures same { OnOk result (IsSameCall machine.old machine.new) }
    ensures way { OnOk result ((start : S) → S.led start machine.old.trace storage.old → S.led start machine.new.trace storage.new) }
    ensures goes_on { result ≡ Ok true → MayGoOn machine.old machine.new }
    ensures ended { result ≡ Ok false → IsEnded machine.new.status }
    ensures asked { OnOk result (asked.new ≤ machine.new.used) }
    ensures rest { OnErr result ((start : S) → S.led start machine.old.trace storage.old → AreSomeLeft S.left start storage.new) }
{
    let Ok(next) = next_request(machine) else {
        return Err(S::no_memory());
    };
    let Some(wish) = next else {
        return Ok(false);
    };
    match wish {
        HostRequest::Do(op) => {
            let reply = storage.act(*asked, op)?;
            machine.answer(reply);
            *asked += 1;
            Ok(true)
        }
        HostRequest::Enter => {
            storage.enter()?;
            Ok(true)
        }
        HostRequest::Leave(keep) => {
            storage.leave(keep)?;
            Ok(true)
        }
    }
}

/// Runs a call that starts to its end, and leaves the machine there.
pub(crate) fn run_on<'a, A: Allocator + Copy, S: Storage>(
    machine: &mut Machine<'a, A>,
    storage: &mut S,
) -> Result<(), S::Refusal>
    requires free { IsFree machine.old.status }
    requires first { machine.old.trace ≡ [] }
    requires limit { machine.old.call.fuel < 2 ^ 64 }
    requires led { S.led storage.old [] storage.old }
    ensures same { OnOk result (IsSameCall machine.old machine.new) }
    ensures ended { OnOk result (IsEnded machine.new.status) }
    ensures led { OnOk result (S.led storage.old machine.new.trace storage.new) }
    ensures rest { OnErr result (AreSomeLeft S.left storage.old storage.new) }
{
    let mut asked = 0;
    'operations: while do_next(machine, storage, &mut asked)? {}
    Ok(())
}

/// Runs a call that starts to its end.
fn run_over<'a, A: Allocator + Copy, S: Storage>(
    mut machine: Machine<'a, A>,
    storage: &mut S,
) -> Result<Finished<'a, A>, S::Refusal>
    requires free { IsFree machine.status }
    requires first { machine.trace ≡ [] }
    requires limit { machine.call.fuel < 2 ^ 64 }
    requires led { S.led storage.old [] storage.old }
    ensures setting { IfOk result (λ finished. finished.setting ≡ machine.entry.setting) }
    ensures call { IfOk result (λ finished. finished.call ≡ machine.entry.call) }
    ensures led { IfOk result (λ finished. S.led storage.old finished.trace storage.new) }
    ensures rest { OnErr result (AreSomeLeft S.left storage.old storage.new) }
{
    run_on(&mut machine, storage)?;
    match machine.finish() {
        Ok(finished) => Ok(finished),
        Err(_) => unreachable!(),
    }
}

/// Runs a call over storage by the rules of a version. A call without fuel for its first instruction is answered before an instance is made.
///
/// # Errors
///
/// The storage refused a step, or memory was refused.
pub fn play_over<'a, A: Allocator + Copy, S: Storage>(
    alloc: A,
    contracts: &'a [Contract<A>],
    call: &'a Call,
    version: Version,
    storage: &mut S,
) -> Result<Finished<'a, A>, S::Refusal>
    requires { S.led storage.old [] storage.old }
    ensures setting { IfOk result (λ finished. finished.setting ≡ setting_view version contracts.now) }
    ensures call { IfOk result (λ finished. finished.call ≡ call.now) }
    ensures led { IfOk result (λ finished. S.led storage.old finished.trace storage.new) }
    ensures rest { OnErr result (AreSomeLeft S.left storage.old storage.new) }
{
    let _limit = call.fuel();
    match begin(alloc, contracts, call, version) {
        Ok(Begun::Ended(finished)) => Ok(finished),
        Ok(Begun::Runs(machine)) => run_over(machine, storage),
        Err(NoMemory) => Err(S::no_memory()),
    }
}
