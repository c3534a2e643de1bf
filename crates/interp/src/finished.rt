// A call that was run to its end.
ghost use Rattle.std.specs.Prelude.{◌≡◌, Some, option_map, IfSome, IfNone};
ghost use Rattle.spec_execution.specs.Run.{opening};
ghost use Rattle.spec_execution.specs.Levels.{asks_in};
ghost use Rattle.interp.specs.FinishedCalls.{IsPlayed, receipt_of};
ghost use Rattle.interp.specs.Starting.{IsOpened, IsRejection, LacksFuel, IsWithoutFuel};
ghost use Rattle.interp.specs.Callee.{setting_view};

use crate::start::{Opened, has_code, open_call};
use call::Call;
use laws_soundness::deployed_calls_are_safe;
use link::deployed::Deployed;
use spec_ledger::{Outcome, Receipt, TraceStep, Version};
use std::alloc::Allocator;
use std::marker::Model;

/// A lent call over lent contracts, by the rules of a version, with the operations that it asked for, their replies, the marks
/// of its levels, its outcome, the fuel that it used and how many levels it entered. That these are a run of the call over the contracts is
/// kept by the type.
#[derive(Drop)]
pub struct Finished<'a, A: Allocator> {
    contracts: &'a [Deployed<A>],
    call: &'a Call,
    trace: Vec<TraceStep, A>,
    outcome: Outcome,
    used: u64,
    asks: u32,
    version: Version,
}

impl<'a, A: Allocator> Model for Finished<'a, A> {
    ghost use Rattle.std.specs.Prelude.{◌≡◌};
    ghost use Rattle.spec_execution.specs.Levels.{asks_in};
    ghost use Rattle.interp.specs.FinishedCalls.{Played, coded_played, IsPlayed};
    ghost use Rattle.interp.specs.Callee.{setting_view};

    ghost Value = { Played };

    ghost coded = { coded_played };

    ghost view = { λ f. record { setting = setting_view f.version f.contracts.now; call = f.call.now; trace = f.trace.items; outcome = f.outcome; used = f.used } };

    ghost invariant = { λ f. IsPlayed (record { setting = setting_view f.version f.contracts.now; call = f.call.now; trace = f.trace.items; outcome = f.outcome; used = f.used }) × (f.asks ≡ asks_in f.trace.items) };
}

impl<'a, A: Allocator + Copy> Finished<'a, A> {
    // The finished call of these parts, which are a run.
    pub(crate) fn of(
        contracts: &'a [Deployed<A>],
        call: &'a Call,
        trace: Vec<TraceStep, A>,
        outcome: Outcome,
        used: u64,
        asks: u32,
        version: Version,
    ) -> Finished<'a, A>
        requires played { IsPlayed (record { setting = setting_view version contracts.now; call = call.now; trace = trace.items; outcome = outcome; used = used }) }
        requires asks { asks ≡ asks_in trace.items }
        ensures { result ≡ record { setting = setting_view version contracts.now; call = call.now; trace = trace.items; outcome = outcome; used = used } }
    {
        Finished {
            contracts,
            call,
            trace,
            outcome,
            used,
            asks,
            version,
        }
    }

    /// The empty run of a call that does not start, with the number of the cause as its outcome. None where the call
    /// opens. Takes no memory.
    pub fn of_rejection(
        alloc: A,
        contracts: &'a [Deployed<A>],
        call: &'a Call,
        version: Version,
    ) -> Option<Finished<'a, A>>
        ensures some { IfSome result (λ f. IsRejection (setting_view version contracts.now) call.now f) }
        ensures none { IfNone result (IsOpened (opening (setting_view version contracts.now) call.now)) }
    {
        match open_call(contracts, call) {
            Ok(_) => None,
            Err(refusal) => {
                let outcome = Outcome::Rejected(refusal.code());
                Some(Finished::of(contracts, call, Vec::new(alloc), outcome, 0, 0, version))
            }
        }
    }

    /// The empty run of a call that has no fuel for its first instruction, and is out of fuel. None where the call has
    /// fuel, does not open, or runs a function first that has no instruction: the start function, where the module has one,
    /// or else the entry. Makes no instance, and takes no memory.
    pub fn without_fuel(
        alloc: A,
        contracts: &'a [Deployed<A>],
        call: &'a Call,
        version: Version,
    ) -> Option<Finished<'a, A>>
        ensures some { IfSome result (λ f. IsWithoutFuel (setting_view version contracts.now) call.now f) }
        ensures none { IfNone result (¬ LacksFuel (setting_view version contracts.now) call.now) }
    {
        if call.fuel() != 0 {
            return None;
        }
        let Ok(Opened { deployed, func }) = open_call(contracts, call) else {
            return None;
        };
        if !has_code(deployed, func) {
            return None;
        }
        deployed_calls_are_safe();
        let trace = Vec::new(alloc);
        Some(Finished::of(contracts, call, trace, Outcome::OutOfFuel, 0, 0, version))
    }

    /// The contracts.
    pub fn contracts(&self) -> &'a [Deployed<A>]
        ensures { setting_view self.now.setting.version result.now ≡ self.now.setting }
    {
        self.contracts
    }

    /// The version whose rules it was run by.
    pub fn version(&self) -> Version
        ensures { result ≡ self.now.setting.version }
    {
        self.version
    }

    /// The call.
    pub fn call(&self) -> &'a Call
        ensures { result.now ≡ self.now.call }
    {
        self.call
    }

    /// What it asked for, first to last: its operations with their replies, and the marks of the levels that it entered and left.
    pub fn trace(&self) -> &[TraceStep]
        ensures { result.now ≡ self.now.trace }
    {
        self.trace.as_slice()
    }

    /// How its run ended.
    pub fn outcome(&self) -> Outcome
        ensures { result ≡ self.now.outcome }
    {
        self.outcome
    }

    /// The fuel that it used.
    pub fn used(&self) -> u64
        ensures { result ≡ self.now.used }
    {
        self.used
    }

    /// How many levels it entered.
    pub fn asks(&self) -> u32
        ensures { result ≡ asks_in self.now.trace }
    {
        self.asks
    }

    /// What it came to: how its run ended, the fuel that it used and how many levels it entered.
    pub fn receipt(&self) -> Receipt
        ensures { result ≡ receipt_of self.now }
    {
        Receipt {
            outcome: self.outcome(),
            used: self.used(),
            asks: self.asks(),
        }
    }

    /// These are a run of the call over the contracts.
    pub fn is_played(&self)
        ensures { IsPlayed self.now }
    {
        let _ = &self.contracts;
    }
}
