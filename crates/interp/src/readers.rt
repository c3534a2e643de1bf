// What a debugger reads off a machine.
ghost use Rattle.std.specs.Prelude.{◌≡◌, ◌↔◌, ◌<◌, ◌≤◌, ◌+◌, IfOk, IsTrue, length, vec_len, vec_capacity};
ghost use Rattle.spec_execution.specs.Turns.{state_of};
ghost use Rattle.interp.specs.Machine.{progress};
ghost use Rattle.interp.specs.Run.{seen, IsKept};
ghost use Rattle.interp.specs.Progress.{GoesOn, IsLeftNext};
ghost use Rattle.interp.specs.MachineViews.{is_out, leaves_stack, ending, stack_shown, locals_shown, place_shown, outermost, IsShown, AreReadOf, IsReadOf, is_fallen};

use crate::machine::Machine;
use crate::run::{Level, Run};
use crate::turns::Status;
use instance::Instance;
use interp_state::callee::Callee;
use interp_state::copies::{copy_parts, copy_waiting};
use interp_state::places::{above, height_of_call, place_in_code};
use link::deployed::Deployed;
use spec_ledger::{NoMemory, Outcome, TraceStep};
use std::alloc::Allocator;
use thiserror::Error;
use wtypes::Value;

/// Why bytes are not read.
#[derive(Clone, Copy, Debug, PartialEq, Eq, Error)]
pub enum BytesRefusal {
    /// They do not all lie in memory.
    #[error("the bytes do not all lie in memory")]
    OutOfRange,
    /// Memory was refused.
    #[error("memory was refused")]
    NoMemory,
}

// How the run has ended, if it has.
fn ending_of_run<'a, A: Allocator + Copy>(run: &Run<'a, A>) -> Option<Outcome>
    requires { IsKept run.now }
    ensures { IsShown run.now.status → result ≡ ending (progress (seen run.now)) }
{
    match run.status {
        Status::Ended(outcome) => Some(outcome),
        Status::Closing => Some(Outcome::OutOfFuel),
        Status::Fallen(code) => {
            if run.outer.is_empty() {
                Some(Outcome::Trapped(code))
            } else {
                None
            }
        }
        Status::Asking(_) => None,
        Status::NoMemory => None,
        Status::Running => {
            if run.parts.code.is_empty() {
                if run.outer.is_empty() {
                    Some(Outcome::Returned(run.parts.stack.last().copied()))
                } else {
                    None
                }
            } else if run.used == run.call.fuel() {
                Some(Outcome::OutOfFuel)
            } else {
                None
            }
        }
    }
}

// Whether the fuel is out and an instruction is to come.
fn has_run_out<'a, A: Allocator + Copy>(run: &Run<'a, A>) -> bool
    requires { IsKept run.now }
    ensures { IsShown run.now.status → result ≡ is_out (ending (progress (seen run.now))) }
{
    matches!(ending_of_run(run), Some(Outcome::OutOfFuel))
}

// Whether there are values to show: while the run goes on, and where it has returned.
fn leaves_stack(ending: Option<Outcome>) -> bool
    ensures { result ≡ leaves_stack ending }
{
    match ending {
        None => true,
        Some(Outcome::Returned(_)) => true,
        Some(_) => false,
    }
}

// Whether the innermost level has trapped. Then it has no values left.
fn is_fallen(status: Status) -> bool
    ensures { result ≡ is_fallen status }
{
    matches!(status, Status::Fallen(_))
}

// The values of the innermost call, bottom first.
fn stack_of_call<'b, 'a, A: Allocator + Copy>(run: &'b Run<'a, A>) -> &'b [Value]
    requires { IsKept run.now }
    ensures { IsShown run.now.status → result.now ≡ stack_shown (progress (seen run.now)) }
{
    if is_fallen(run.status) {
        return &[];
    }
    if leaves_stack(ending_of_run(run)) {
        above(&run.parts.stack, height_of_call(&run.parts.entries))
    } else {
        &[]
    }
}

// The locals of the innermost call.
fn locals_of_call<'b, 'a, A: Allocator + Copy>(run: &'b Run<'a, A>) -> &'b [Value]
    requires { IsKept run.now }
    ensures { IsShown run.now.status → result.now ≡ locals_shown (progress (seen run.now)) }
{
    if is_fallen(run.status) {
        return &[];
    }
    match ending_of_run(run) {
        None => &run.parts.locals,
        Some(_) => &[],
    }
}

// The function and the ordinal of the instruction to come.
fn place_of_run<'a, A: Allocator + Copy>(run: &Run<'a, A>) -> Option<(u32, u32)>
    requires { IsKept run.now }
    ensures { IsShown run.now.status → result ≡ place_shown (progress (seen run.now)) }
{
    let out = has_run_out(run);
    match run.status {
        Status::Running if out => None,
        Status::Running => place_in_code(&run.parts),
        Status::Asking(_) => None,
        Status::Fallen(_) => None,
        Status::Closing => None,
        Status::Ended(_) => None,
        Status::NoMemory => None,
    }
}

// How many levels are around the innermost one.
fn level_of_run<'a, A: Allocator + Copy>(run: &Run<'a, A>) -> usize
    ensures { result ≡ length (progress (seen run.now)).config.outer }
{
    run.outer.len()
}

// Whether the innermost level is left next.
fn is_left_next<'a, A: Allocator + Copy>(run: &Run<'a, A>) -> bool
    requires { IsKept run.now }
    ensures { GoesOn run.now.status → (IsTrue result ↔ IsLeftNext (progress (seen run.now))) }
{
    if run.outer.is_empty() {
        return false;
    }
    match run.status {
        Status::Running => run.parts.code.is_empty(),
        Status::Fallen(_) => true,
        Status::Asking(_) => false,
        Status::Closing => false,
        Status::Ended(_) => false,
        Status::NoMemory => false,
    }
}

// The instance of the outer level.
fn outer_instance<'b, 'a, A: Allocator + Copy>(run: &'b Run<'a, A>) -> &'b Instance<'a, A>
    ensures globals { result.now.globals ≡ (state_of (outermost (progress (seen run.now)).config).config).globals }
    ensures memory { result.now.memory.bytes ≡ (state_of (outermost (progress (seen run.now)).config).config).memory }
{
    if let Some(level) = run.outer.first() {
        return &level.parts.instance;
    }
    &run.parts.instance
}

// So many bytes of an instance's memory from an address on.
fn bytes_of_instance<A: Allocator + Copy>(
    alloc: A,
    instance: &Instance<'_, A>,
    from: u64,
    count: u64,
) -> Result<Vec<u8, A>, BytesRefusal>
    ensures { AreReadOf instance.now.memory.bytes from count result }
{
    let memory = &instance.memory;
    let length = memory.len() as u64;
    if from > length || count > length - from {
        return Err(BytesRefusal::OutOfRange);
    }
    match memory.bytes(alloc, from as usize, count as usize) {
        Ok(bytes) => Ok(bytes),
        Err(_) => Err(BytesRefusal::NoMemory),
    }
}

// The globals.
fn globals_of_run<'b, 'a, A: Allocator + Copy>(run: &'b Run<'a, A>) -> &'b [Value]
    ensures { result.now ≡ (state_of (progress (seen run.now)).config.inner.config).globals }
{
    run.parts.instance.globals.as_slice()
}

// So many bytes of memory from an address on.
fn bytes_of_run<'a, A: Allocator + Copy>(
    run: &Run<'a, A>,
    from: u64,
    count: u64,
) -> Result<Vec<u8, A>, BytesRefusal>
    ensures { IsReadOf (progress (seen run.now)).config.inner.config from count result }
{
    bytes_of_instance(run.alloc, &run.parts.instance, from, count)
}

// The same steps, with room for so many more.
fn copy_trace<A: Allocator + Copy>(
    alloc: A,
    trace: &[TraceStep],
    more: usize,
) -> Result<Vec<TraceStep, A>, NoMemory>
    ensures same { IfOk result (λ copy. copy.items ≡ trace.now) }
    ensures room { IfOk result (λ copy. vec_len copy + more ≤ vec_capacity copy) }
{
    let mut copy = trace.to_vec(alloc)?;
    copy.reserve(more)?;
    Ok(copy)
}

ghost use Rattle.interp.specs.Run.{IsCopyOf, AreCopiesOf};

// The same level, with memory of its own.
fn copy_level<'a, A: Allocator + Copy>(
    alloc: A,
    level: &Level<'a, A>,
) -> Result<Level<'a, A>, NoMemory>
    ensures { IfOk result (λ copy. IsCopyOf level.now copy) }
{
    Ok(Level {
        lent: copy_lent(&level.lent),
        argument: level.argument,
        parts: copy_parts(alloc, &level.parts)?,
        waiting: copy_waiting(alloc, &level.waiting)?,
        asked: level.asked,
        answer: level.answer,
    })
}

// The same contract.
fn copy_lent<'a, A: Allocator + Copy>(lent: &Callee<'a, A>) -> Callee<'a, A>
    ensures { result ≡ lent.now }
{
    Callee {
        number: lent.number,
        module: lent.module,
        hosts: lent.hosts,
        version: lent.version,
    }
}

// The same levels, with memory of their own.
fn copy_levels<'a, A: Allocator + Copy>(
    alloc: A,
    outer: &[Level<'a, A>],
) -> Result<Vec<Level<'a, A>, A>, NoMemory>
    ensures { IfOk result (λ copies. AreCopiesOf outer.now copies.items) }
{
    let mut copies = Vec::with_capacity(alloc, outer.len())?;
    for level in outer {
        copies.push(copy_level(alloc, level)?)?;
    }
    Ok(copies)
}

// The same run, with memory of its own.
fn copy_run<'a, A: Allocator + Copy>(run: &Run<'a, A>) -> Result<Run<'a, A>, NoMemory>
    requires { IsKept run.now }
    ensures kept { IfOk result (λ copy. IsKept copy) }
    ensures same { IfOk result (λ copy. seen copy ≡ seen run.now) }
{
    Ok(Run {
        alloc: run.alloc,
        contracts: run.contracts,
        version: run.version,
        call: run.call,
        deployed: run.deployed,
        func: run.func,
        // Room for the marks of the levels that are open, and for one more.
        trace: copy_trace(run.alloc, &run.trace, 1 + run.outer.len())?,
        used: run.used,
        entered: run.entered,
        status: run.status,
        lent: copy_lent(&run.lent),
        argument: run.argument,
        parts: copy_parts(run.alloc, &run.parts)?,
        waiting: copy_waiting(run.alloc, &run.waiting)?,
        asked: run.asked,
        answer: run.answer,
        outer: copy_levels(run.alloc, &run.outer)?,
    })
}

impl<'a, A: Allocator + Copy> Machine<'a, A> {
    ghost use Rattle.std.specs.Prelude.{◌≡◌, IfOk, length};
    ghost use Rattle.interp.specs.Callee.{contract_view, contracts_view};
    ghost use Rattle.spec_execution.specs.Turns.{state_of};
    ghost use Rattle.std.specs.Prelude.{◌↔◌, IsTrue};
    ghost use Rattle.spec_execution.specs.Levels.{asks_in};
    ghost use Rattle.interp.specs.Progress.{GoesOn, IsLeftNext};
    ghost use Rattle.interp.specs.MachineViews.{ending, stack_shown, locals_shown, place_shown, outermost, IsShown, IsReadOf};

    /// The same machine, with memory of its own.
    ///
    /// # Errors
    ///
    /// Memory was refused.
    pub fn copy(&self) -> Result<Machine<'a, A>, NoMemory>
        ensures { IfOk result (λ copy. copy ≡ self.now) }
    {
        let run = copy_run(&self.run)?;
        Ok(Machine { run })
    }

    /// The contract that is called.
    pub fn deployed(&self) -> &'a Deployed<A>
        ensures { contract_view result.now ≡ self.now.contract.deployed }
    {
        self.run.deployed
    }

    /// The contracts that calls run over, in the order of their numbers.
    pub fn contracts(&self) -> &'a [Deployed<A>]
        ensures { contracts_view result.now ≡ self.now.setting.contracts }
    {
        self.run.contracts
    }

    /// The fuel that is used, which is the number of turns that were made.
    pub fn used(&self) -> u64
        ensures { result ≡ self.now.used }
    {
        self.run.used
    }

    /// How the run has ended, if it has, also before `next` has told it; else None. Of a machine that was refused memory
    /// nothing is said here, nor by `place`, `stack` and `locals`.
    pub fn ending(&self) -> Option<Outcome>
        ensures { IsShown self.now.status → result ≡ ending self.now }
    {
        ending_of_run(&self.run)
    }

    /// The number of the function and the ordinal of the instruction to come. None where the run has ended, and while the
    /// host is asked.
    pub fn place(&self) -> Option<(u32, u32)>
        ensures { IsShown self.now.status → result ≡ place_shown self.now }
    {
        place_of_run(&self.run)
    }

    /// The values of the innermost frame, bottom first. After the end they are the returned value, if there is one.
    pub fn stack(&self) -> &[Value]
        ensures { IsShown self.now.status → result.now ≡ stack_shown self.now }
    {
        stack_of_call(&self.run)
    }

    /// The locals of the innermost frame. After the end there are none.
    pub fn locals(&self) -> &[Value]
        ensures { IsShown self.now.status → result.now ≡ locals_shown self.now }
    {
        locals_of_call(&self.run)
    }

    /// The number of the contract that the innermost level runs.
    pub fn contract(&self) -> u32
        ensures { result ≡ self.now.config.inner.contract.number }
    {
        self.run.lent.number
    }

    /// How many levels are around the innermost one.
    pub fn level(&self) -> usize
        ensures { result ≡ length self.now.config.outer }
    {
        level_of_run(&self.run)
    }

    /// The number of the contract that is called.
    pub fn called(&self) -> u32
        ensures { result ≡ self.now.call.contract }
    {
        self.run.call.contract()
    }

    /// The operations with their replies, and the marks of levels.
    pub fn trace(&self) -> &[TraceStep]
        ensures { result.now ≡ self.now.trace }
    {
        &self.run.trace
    }

    /// How many levels were entered.
    pub fn entered(&self) -> u32
        ensures { result ≡ asks_in self.now.trace }
    {
        self.run.entered
    }

    /// Whether the innermost level is left next, so that a turn that was made goes on. Nothing is said where the host is asked,
    /// after the end, and of a machine that was refused memory.
    pub fn is_leaving(&self) -> bool
        ensures { GoesOn self.now.status → (IsTrue result ↔ IsLeftNext self.now) }
    {
        is_left_next(&self.run)
    }

    /// The globals of the innermost level. After the end they are as they stood.
    pub fn globals(&self) -> &[Value]
        ensures { result.now ≡ (state_of self.now.config.inner.config).globals }
    {
        globals_of_run(&self.run)
    }

    /// The globals of the outer level, in which the others were entered.
    pub fn outer_globals(&self) -> &[Value]
        ensures { result.now ≡ (state_of (outermost self.now.config).config).globals }
    {
        outer_instance(&self.run).globals.as_slice()
    }

    /// So many bytes of the innermost level's memory from an address on. After the end they are as they stood.
    ///
    /// # Errors
    ///
    /// `OutOfRange` exactly where the bytes do not all lie in memory, else `NoMemory` where memory was refused.
    pub fn bytes(&self, from: u64, count: u64) -> Result<Vec<u8, A>, BytesRefusal>
        ensures { IsReadOf self.now.config.inner.config from count result }
    {
        bytes_of_run(&self.run, from, count)
    }

    /// So many bytes of the outer level's memory from an address on.
    ///
    /// # Errors
    ///
    /// As `bytes`.
    pub fn outer_bytes(&self, from: u64, count: u64) -> Result<Vec<u8, A>, BytesRefusal>
        ensures { IsReadOf (outermost self.now.config).config from count result }
    {
        bytes_of_instance(self.run.alloc, outer_instance(&self.run), from, count)
    }
}
