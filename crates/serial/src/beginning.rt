//! How the run of a call begins.

ghost use Rattle.std.specs.Prelude.{IfOk};
ghost use Rattle.interp.specs.Callee.{setting_view};
ghost use Rattle.interp.specs.Starting.{LacksFuel};
ghost use Rattle.interp.specs.Progress.{IsProgress, IsStartOf};
ghost use Rattle.serial.specs.Beginning.{IfEnded, IfRuns, IsEmptyRun};

use call::Call;
use interp::finished::Finished;
use interp::machine::Machine;
use link::deployed::Deployed as Contract;
use spec_ledger::{NoMemory, Version};
use std::alloc::Allocator;

/// What a call is once it has begun.
#[derive(Drop)]
pub enum Begun<'a, A: Allocator + Copy> {
    /// It has ended without a turn, since it does not start or has no fuel for its first instruction.
    Ended(Finished<'a, A>),
    /// It runs: its first turn is next.
    Runs(Machine<'a, A>),
}

/// Begins a call by the rules of this version. Where it has no fuel for its first instruction it ends before an instance is made.
///
/// # Errors
///
/// Memory was refused.
#[inline(always)]
pub fn begin<'a, A: Allocator + Copy>(
    alloc: A,
    contracts: &'a [Contract<A>],
    call: &'a Call,
    version: Version,
) -> Result<Begun<'a, A>, NoMemory>
    ensures ended { IfOk result (IfEnded (IsEmptyRun (setting_view version contracts.now) call.now)) }
    ensures start { IfOk result (IfRuns (IsStartOf (setting_view version contracts.now) call.now)) }
    ensures on_run { IfOk result (IfRuns (λ machine. IsProgress machine)) }
    ensures fuel { IfOk result (IfRuns (λ _. ¬ LacksFuel (setting_view version contracts.now) call.now)) }
{
    if let Some(finished) = Finished::without_fuel(alloc, contracts, call, version) {
        return Ok(Begun::Ended(finished));
    }
    match Machine::start_as(alloc, contracts, call, version) {
        Ok(machine) => Ok(Begun::Runs(machine)),
        // Memory was refused where the call opens.
        Err(_) => match Finished::of_rejection(alloc, contracts, call, version) {
            Some(finished) => Ok(Begun::Ended(finished)),
            None => Err(NoMemory),
        },
    }
}
