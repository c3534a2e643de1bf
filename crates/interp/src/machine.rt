// A machine: a call that runs over lent contracts, a turn at a time.
ghost use Rattle.std.specs.Prelude.{◌≡◌, ◌≢◌, ◌≤◌, length, IfOk, IfErr, OnOk, IfSome, IfNone, MatchResult};
ghost use Rattle.spec_execution.specs.Run.{Opens, opening};
ghost use Rattle.interp.specs.Machine.{progress};
ghost use Rattle.interp.specs.Progress.{NextIs, IsSameCall, WantsMemory, IsTold, IsFree, IsAwaited, HasAnswered, IsFinishOf, IsReceiptOf, IsProgress, IsUnfinished, IsStartOf};
ghost use Rattle.interp.specs.Run.{seen, IsKept};
ghost use Rattle.interp.specs.Turns.{HasTurned};
ghost use Rattle.link.specs.Parts.{hosts_of};
ghost use Rattle.instance.specs.Views.{contract_of};
ghost use Rattle.spec_ledger.specs.declared.Version.TheVariants.{Two};
ghost use Rattle.interp.specs.Callee.{setting_view};
ghost use Rattle.interp.specs.declared.start.StartRefusal.{StartRefusal};

use crate::finished::Finished;
use crate::functions::{give_up, start_run};
use crate::levels::{empty_list, empty_parts, no_parts};
use crate::replies::take_answer;
use crate::run::Run;
use crate::running::{next_turn, turn_on};
use crate::start::{Opened, StartRefusal, open_call, refusal_of};
use crate::turns::{Status, Turn};
use call::Call;
use instance::open_instance;
use interp_state::callee::Callee;
use interp_state::waiting::{prepare, prepare_in};
use laws_soundness::deployed_calls_are_safe;
use link::deployed::Deployed;
use spec_ledger::{Outcome, Receipt, Reply, Version};
use std::alloc::Allocator;
use std::marker::Model;

// What a run that has ended gives.
#[inline(always)]
fn finished<'a, A: Allocator + Copy>(run: Run<'a, A>, outcome: Outcome) -> Finished<'a, A>
    requires kept { IsKept run }
    requires ended { run.status ≡ Status.Ended outcome }
    ensures { IsFinishOf (progress (seen run.entry)) result }
{
    let Run {
        alloc: _,
        contracts,
        version,
        call,
        deployed: _,
        func: _,
        trace,
        used,
        entered,
        status: _,
        lent: _,
        argument: _,
        parts: _,
        waiting: _,
        asked: _,
        answer: _,
        outer: _,
    } = run;
    Finished::of(contracts, call, trace, outcome, used, entered, version)
}

// The machine of a call that opens with this function of this contract, before its first turn, in the place of another call, whatever has come of it. It is refused
// nothing but memory.
fn begin_again<'a, A: Allocator + Copy>(
    run: &mut Run<'a, A>,
    contracts: &'a [Deployed<A>],
    call: &'a Call,
    deployed: &'a Deployed<A>,
    func: u32,
    version: Version,
) -> Result<(), StartRefusal>
    requires kept { IsKept run.old }
    requires opens { opening (setting_view version contracts.now) call.now ≡ Opens (contract_of version call.now.contract deployed.now) func }
    requires defined { length (hosts_of deployed.now) ≤ func }
    ensures kept { IsKept run.new }
    ensures start { OnOk result (IsStartOf (setting_view version contracts.now) call.now (progress (seen run.new))) }
    ensures refused { IfErr result (λ refusal. refusal ≡ StartRefusal.NoMemory) }
{
    deployed_calls_are_safe();
    deployed.is_linked();
    let tree = deployed.module();
    let lent = Callee {
        number: call.contract(),
        module: tree,
        hosts: deployed.hosts(),
        version,
    };
    let instance = open_instance(run.alloc, version, deployed)?;
    let Ok(entry) = prepare_in(run.alloc, &lent, func, call.args(), &mut run.parts) else {
        give_up(run);
        return Err(StartRefusal::NoMemory);
    };
    run.contracts = contracts;
    run.version = version;
    run.call = call;
    run.deployed = deployed;
    run.func = func;
    empty_list(&mut run.trace);
    run.used = 0;
    run.entered = 0;
    run.status = Status::Running;
    run.lent = lent;
    run.argument = None;
    empty_parts(&mut run.parts, instance);
    run.waiting = Some(entry);
    run.asked = 0;
    run.answer = 0;
    run.outer.clear();
    match start_run(run) {
        Turn::Stepped => Ok(()),
        Turn::NoMemory => Err(StartRefusal::NoMemory),
        Turn::Host(_) => unreachable!(),
        Turn::Enter => unreachable!(),
        Turn::Leave(_) => unreachable!(),
        Turn::Done(_) => unreachable!(),
    }
}

// What the call has come to, where its run has ended.
fn receipt_of_run<'a, A: Allocator + Copy>(run: &Run<'a, A>) -> Option<Receipt>
    requires { IsKept run.now }
    ensures some { IfSome result (λ receipt. IsReceiptOf (progress (seen run.now)) receipt) }
    ensures none { IfNone result (IsUnfinished run.now.status) }
{
    match run.status {
        Status::Ended(outcome) => Some(Receipt {
            outcome,
            used: run.used,
            asks: run.entered,
        }),
        Status::Running => None,
        Status::Fallen(_) => None,
        Status::Asking(_) => None,
        Status::Closing => None,
        Status::NoMemory => None,
    }
}

/// A call that runs over lent contracts, a turn at a time.
#[derive(Drop)]
pub struct Machine<'a, A: Allocator + Copy> {
    pub(crate) run: Run<'a, A>,
}

impl<'a, A: Allocator + Copy> Model for Machine<'a, A> {
    ghost use Rattle.interp.specs.Progress.{Progress, coded_progress};

    ghost Value = { Progress };

    ghost coded = { coded_progress };

    ghost use Rattle.interp.specs.Machine.{progress};
    ghost use Rattle.interp.specs.Run.{seen, IsKept};

    ghost view = { λ m. progress (seen m.run) };

    ghost invariant = { λ m. IsKept m.run };
}

impl<'a, A: Allocator + Copy> Machine<'a, A> {
    /// Makes a turn: one charged reduction and the free ones that follow, or its trap. Where a level was entered inside
    /// the outer one and is at its end, has trapped or is out of fuel, it makes none, and leaves the level: so a turn is
    /// told in pieces, first by Stepped or Enter, then by Leave. Where the run has ended it makes none and answers Done. It
    /// answers NoMemory only where an instruction is to come that may take memory and there is fuel for it, and always
    /// after that.
    #[inline(always)]
    pub fn next(&mut self) -> Turn
        requires { IsFree self.old.status }
        ensures turn { NextIs self.old result self.new }
        ensures on_run { IsProgress self.new }
        ensures told { IsTold self.old result self.new }
        ensures no_memory { result ≡ Turn.NoMemory → WantsMemory self.old self.old.status }
        ensures same { result ≡ Turn.NoMemory → IsSameCall self.old self.new }
    {
        next_turn(&mut self.run)
    }

    /// Makes turns, as `next` does, up to the first that does not step, and answers what that one came to.
    pub fn turn_on(&mut self) -> Turn
        requires { IsFree self.old.status }
        ensures turned { HasTurned self.old result self.new }
        ensures stops { result ≢ Turn.Stepped }
        ensures on_run { IsProgress self.new }
    {
        turn_on(&mut self.run)
    }

    /// Goes on with the host's reply to the operation that was asked for. Takes no memory.
    pub fn answer(&mut self, reply: Reply)
        requires { IsAwaited self.old.status reply }
        ensures answered { HasAnswered self.old reply self.new }
        ensures on_run { IsProgress self.new }
    {
        take_answer(&mut self.run, reply)
    }

    /// The finished call, exactly where Done was answered; else the machine.
    #[inline(always)]
    pub fn finish(self) -> Result<Finished<'a, A>, Machine<'a, A>>
        ensures { MatchResult result (IsFinishOf self.entry) (λ m. (m ≡ self.entry) × IsUnfinished self.entry.status) }
    {
        match self.run.status {
            Status::Ended(outcome) => {
                let Machine { run } = self;
                Ok(finished(run, outcome))
            }
            Status::Running => Err(self),
            Status::Fallen(_) => Err(self),
            Status::Asking(_) => Err(self),
            Status::Closing => Err(self),
            Status::NoMemory => Err(self),
        }
    }

    /// What the call has come to, exactly where Done was answered.
    pub fn receipt(&self) -> Option<Receipt>
        ensures some { IfSome result (λ receipt. IsReceiptOf self.now receipt) }
        ensures none { IfNone result (IsUnfinished self.now.status) }
    {
        receipt_of_run(&self.run)
    }
}

impl<'a, A: Allocator + Copy> Machine<'a, A> {
    ghost use Rattle.std.specs.Prelude.{◌≡◌, ◌≤◌, length, IfOk, IfErr, OnOk};
    ghost use Rattle.link.specs.Parts.{hosts_of};
    ghost use Rattle.spec_execution.specs.Run.{opening, Opens};
    ghost use Rattle.spec_ledger.specs.declared.Version.TheVariants.{Two};
    ghost use Rattle.instance.specs.Views.{contract_of};
    ghost use Rattle.interp.specs.Callee.{setting_view};
    ghost use Rattle.interp.specs.Progress.{IsStartOf, IsProgress};
    ghost use Rattle.interp.specs.Starting.{IsRefusedFor, HasPlace, wrong_in};
    ghost use Rattle.interp.specs.declared.start.StartRefusal.{StartRefusal};

    /// The machine of a call before its first turn, by the rules of version 2: `start_as` with it.
    ///
    /// # Errors
    ///
    /// As `start_as`.
    pub fn start(
        alloc: A,
        contracts: &'a [Deployed<A>],
        call: &'a Call,
    ) -> Result<Machine<'a, A>, StartRefusal>
        ensures start { IfOk result (λ m. IsStartOf (setting_view Two contracts.now) call.now m) }
        ensures on_run { IfOk result (λ m. IsProgress m) }
        ensures refused { IfErr result (λ refusal. IsRefusedFor refusal (opening (setting_view Two contracts.now) call.now)) }
        ensures place { IfErr result (λ refusal. HasPlace (wrong_in (setting_view Two contracts.now) call.now) refusal) }
    {
        Machine::start_as(alloc, contracts, call, Version::Two)
    }

    /// The machine of a call before its first turn, by the rules of a version.
    ///
    /// # Errors
    ///
    /// Why the call does not start. Of several causes it is the first of: the contract, the export, the function, the
    /// number of arguments, their types, memory.
    #[inline(always)]
    pub fn start_as(
        alloc: A,
        contracts: &'a [Deployed<A>],
        call: &'a Call,
        version: Version,
    ) -> Result<Machine<'a, A>, StartRefusal>
        ensures start { IfOk result (λ m. IsStartOf (setting_view version contracts.now) call.now m) }
        ensures on_run { IfOk result (λ m. IsProgress m) }
        ensures refused { IfErr result (λ refusal. IsRefusedFor refusal (opening (setting_view version contracts.now) call.now)) }
        ensures place { IfErr result (λ refusal. HasPlace (wrong_in (setting_view version contracts.now) call.now) refusal) }
    {
        match open_call(contracts, call) {
            Ok(Opened { deployed, func }) => {
                Machine::begin(alloc, contracts, call, deployed, func, version)
            }
            Err(refusal) => Err(refusal_of(refusal)),
        }
    }

    /// Starts another call in the place of this one, whatever has come of it, by the rules of a version: it is the machine of that call before its first turn. The
    /// room of its lists serves again, but for that of long ones.
    ///
    /// # Errors
    ///
    /// As `start_as`.
    pub fn start_again(
        &mut self,
        contracts: &'a [Deployed<A>],
        call: &'a Call,
        version: Version,
    ) -> Result<(), StartRefusal>
        ensures start { OnOk result (IsStartOf (setting_view version contracts.now) call.now self.new) }
        ensures on_run { OnOk result (IsProgress self.new) }
        ensures refused { IfErr result (λ refusal. IsRefusedFor refusal (opening (setting_view version contracts.now) call.now)) }
        ensures place { IfErr result (λ refusal. HasPlace (wrong_in (setting_view version contracts.now) call.now) refusal) }
    {
        match open_call(contracts, call) {
            Ok(Opened { deployed, func }) => {
                begin_again(&mut self.run, contracts, call, deployed, func, version)
            }
            Err(refusal) => Err(refusal_of(refusal)),
        }
    }

    // The machine of a call that opens with this function of this contract, before its first turn. It is refused nothing but memory. It answers as `start_as`
    // does, so that the machine is not moved from one answer to the other.
    #[inline(always)]
    fn begin(
        alloc: A,
        contracts: &'a [Deployed<A>],
        call: &'a Call,
        deployed: &'a Deployed<A>,
        func: u32,
        version: Version,
    ) -> Result<Machine<'a, A>, StartRefusal>
        requires opens { opening (setting_view version contracts.now) call.now ≡ Opens (contract_of version call.now.contract deployed.now) func }
        requires defined { length (hosts_of deployed.now) ≤ func }
        ensures start { IfOk result (λ m. IsStartOf (setting_view version contracts.now) call.now m) }
        ensures on_run { IfOk result (λ m. IsProgress m) }
        ensures refused { IfErr result (λ refusal. refusal ≡ StartRefusal.NoMemory) }
    {
        deployed_calls_are_safe();
        deployed.is_linked();
        let tree = deployed.module();
        let instance = open_instance(alloc, version, deployed)?;
        let lent = Callee {
            number: call.contract(),
            module: tree,
            hosts: deployed.hosts(),
            version,
        };
        let entry = prepare(alloc, &lent, func, call.args())?;
        let mut run = Run {
            alloc,
            contracts,
            version,
            call,
            deployed,
            func,
            trace: Vec::new(alloc),
            used: 0,
            entered: 0,
            status: Status::Running,
            lent,
            argument: None,
            parts: no_parts(alloc, instance),
            waiting: Some(entry),
            asked: 0,
            answer: 0,
            outer: Vec::new(alloc),
        };
        match start_run(&mut run) {
            Turn::Stepped => Ok(Machine { run }),
            Turn::NoMemory => Err(StartRefusal::NoMemory),
            Turn::Host(_) => unreachable!(),
            Turn::Enter => unreachable!(),
            Turn::Leave(_) => unreachable!(),
            Turn::Done(_) => unreachable!(),
        }
    }
}
