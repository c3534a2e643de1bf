// A debugger's session.
ghost use Rattle.std.specs.Prelude.{◌≡◌, ◌+◌, ◌<◌, ◌≤◌, ◌⊎◌, IsSome, IsTrue, ◌↔◌, IfOk, OnOk, option_map, true};
ghost use Rattle.module_tree.specs.ModuleView.{export_desc_view};
ghost use Rattle.interp.specs.Progress.{IsSameCall};
ghost use Rattle.interp.specs.MachineViews.{ending, AreReadOf};
ghost use Rattle.debugger.specs.Breaks.{is_set_at, instr_there, function_of};
ghost use Rattle.debugger.specs.Cursors.{IsAt, IsSameRun};
ghost use Rattle.debugger.specs.SessionView.{break_place_shown, memory_shown, stands};
ghost use Rattle.debugger.specs.Keeping.{IsOfRun, AreKept, next_turns, IsEarlier, HasNoBreakBetween};

use crate::breaks::{clear_break, has_break, set_break};
use crate::cursor::{Cursor, copy, make_turns, open};
use crate::kept::{Kept, nearest, none_kept, turn_and_keep};
use crate::place::Place;
use crate::{Contract, OpenFrame};
use call::Call;
use interp::readers::BytesRefusal;
use interp::start::StartRefusal;
use module_tree::module::ExportDesc;
use spec_ledger::{NoMemory, Outcome, TraceStep, Version};
use std::alloc::Allocator;
use std::marker::Model;
use storage::Cells;
use thiserror::Error;
use wtypes::Value;

/// Why a session refuses a command.
#[derive(Clone, Copy, Debug, PartialEq, Eq, Error)]
pub enum Refusal {
    /// No turn was made so long ago.
    #[error("no turn was made so long ago")]
    BeforeStart,
    /// There is no instruction at the place.
    #[error("there is no instruction at the place")]
    NoSuchPlace,
    /// The bytes do not all lie in memory.
    #[error("the bytes do not all lie in memory")]
    OutOfRange,
    /// Memory was refused.
    #[error("memory was refused")]
    NoMemory,
}

impl Refusal {
    ghost use Rattle.std.specs.Prelude.{◌≡◌};
    ghost use Rattle.debugger.specs.Commands.{code_of};

    /// The number of the refusal, from 1.
    pub fn code(self) -> u8
        ensures { result ≡ code_of self }
    {
        match self {
            Refusal::BeforeStart => 1,
            Refusal::NoSuchPlace => 2,
            Refusal::OutOfRange => 3,
            Refusal::NoMemory => 4,
        }
    }
}

impl From<NoMemory> for Refusal {
    ghost use Rattle.std.specs.Prelude.{◌≡◌};
    ghost use Rattle.debugger.specs.declared.session.Refusal.{Refusal};

    ghost from_gives = { λ _ r. r ≡ Refusal.NoMemory };

    fn from(_refused: NoMemory) -> Refusal {
        Refusal::NoMemory
    }
}

/// A call that runs alone over cells, at one of its states. Contracts see the call, the number of turns that were made, and the
/// configuration after them, which the type keeps to be that state. Beside the first state and the present one it holds copies of at
/// most 64 others, each with the levels, the cells and the trace of its time, so that few turns are made again to go back: fewer
/// than 1,024, or at most a 32nd of the call's fuel. A break holds in each level that runs its contract.
#[derive(Drop)]
pub struct Session<'a, A: Allocator + Copy> {
    alloc: A,
    origin: Cursor<'a, A>,
    here: Cursor<'a, A>,
    kept: Kept<'a, A>,
    breaks: Vec<Place, A>,
}

impl<'a, A: Allocator + Copy> Model for Session<'a, A> {
    ghost use Rattle.debugger.specs.SessionView.{SessionView, coded_session_view, session_view_of};
    ghost use Rattle.debugger.specs.Keeping.{IsKept};

    ghost Value = { SessionView };

    ghost coded = { coded_session_view };

    ghost view = { λ s. session_view_of s.here.machine s.here.start.now.cells s.breaks.items };

    ghost invariant = { λ s. IsKept s.origin s.here s.kept };
}

// The state after so many turns, which were made once, from an earlier state on; and how many of them this makes again.
fn state_after<'a, A: Allocator + Copy>(
    alloc: A,
    earlier: &Cursor<'a, A>,
    here: &Cursor<'a, A>,
    turns: u64,
) -> Result<(Cursor<'a, A>, u64), NoMemory>
    requires here { IsAt here.now }
    requires earlier { IsEarlier here.now turns earlier.now }
    requires before { turns ≤ here.now.machine.used }
    ensures at { IfOk result (λ found. IsAt found.0) }
    ensures same { IfOk result (λ found. IsSameRun here.now found.0) }
    ensures turns { IfOk result (λ found. found.0.machine.used ≡ turns) }
    ensures again { IfOk result (λ found. earlier.now.machine.used + found.1 ≡ turns) }
{
    let mut cursor = copy(alloc, earlier)?;
    let count = turns - cursor.machine.used();
    let again = make_turns(&mut cursor, count)?;
    Ok((cursor, again))
}

// Whether a break is set at the place of the instruction to come.
fn is_at_break<'a, A: Allocator + Copy>(cursor: &Cursor<'a, A>, breaks: &[Place]) -> bool
    requires { IsAt cursor.now }
    ensures { result ≡ is_set_at breaks.now (break_place_shown cursor.now.machine) }
{
    let contract = cursor.machine.contract();
    match cursor.machine.place() {
        Some((func, ordinal)) => has_break(
            breaks,
            Place {
                contract,
                func,
                ordinal,
            },
        ),
        None => false,
    }
}

// So many bytes from an address on of the memory that is shown: that of the innermost level, after the end that of the outer one.
fn bytes_shown<'a, A: Allocator + Copy>(
    cursor: &Cursor<'a, A>,
    from: u64,
    count: u64,
) -> Result<Vec<u8, A>, BytesRefusal>
    requires { IsAt cursor.now }
    ensures { AreReadOf (memory_shown cursor.now.machine) from count result }
{
    if cursor.machine.ending().is_some() {
        cursor.machine.outer_bytes(from, count)
    } else {
        cursor.machine.bytes(from, count)
    }
}

// Whether there is an instruction at the place.
fn is_place<'a, A: Allocator + Copy>(cursor: &Cursor<'a, A>, place: Place) -> bool
    ensures { IsTrue result ↔ IsSome (instr_there cursor.now.machine.setting.contracts place) }
{
    match cursor.machine.contracts().get(place.contract as usize) {
        Some(contract) => contract
            .module()
            .instr_at(place.func, place.ordinal)
            .is_some(),
        None => false,
    }
}

// Whether what a call has done stands: while it runs, and where it has returned.
fn stands(ending: Option<Outcome>) -> bool
    ensures { result ≡ stands ending }
{
    match ending {
        None => true,
        Some(Outcome::Returned(_)) => true,
        Some(_) => false,
    }
}

// The number of the function that is exported.
fn function_of(desc: Option<ExportDesc>) -> Option<u32>
    ensures { result ≡ function_of (option_map export_desc_view desc) }
{
    match desc {
        Some(ExportDesc::Func(func)) => Some(func),
        Some(ExportDesc::Table(_)) => None,
        Some(ExportDesc::Memory(_)) => None,
        Some(ExportDesc::Global(_)) => None,
        None => None,
    }
}

// Makes so many turns, or as many as there are, and answers how many. It keeps states on the way.
fn advance<'a, A: Allocator + Copy>(
    alloc: A,
    here: &Cursor<'a, A>,
    cursor: &mut Cursor<'a, A>,
    kept: &mut Kept<'a, A>,
    count: u64,
) -> Result<u64, NoMemory>
    requires cursor { IsOfRun here.now cursor.old }
    requires kept { AreKept here.now kept.old }
    requires reached { cursor.old.machine.used < next_turns kept.old }
    ensures cursor { OnOk result (IsOfRun here.now cursor.new) }
    ensures made { IfOk result (λ made. cursor.new.machine.used ≡ cursor.old.machine.used + made) }
    ensures most { IfOk result (λ made. made ≤ count) }
    ensures all { IfOk result (λ made. (made ≡ count) ⊎ IsSome (ending cursor.new.machine)) }
    ensures kept { AreKept here.now kept.new }
    ensures reached { OnOk result (cursor.new.machine.used < next_turns kept.new) }
    ensures further { next_turns kept.old ≤ next_turns kept.new }
{
    for made in 0..count {
        if !turn_and_keep(alloc, here, cursor, kept)? {
            return Ok(made);
        }
    }
    Ok(count)
}

// Makes turns up to the first state with a break at its place, or up to the end. It keeps states on the way.
fn go_on<'a, A: Allocator + Copy>(
    alloc: A,
    here: &Cursor<'a, A>,
    cursor: &mut Cursor<'a, A>,
    kept: &mut Kept<'a, A>,
    breaks: &[Place],
) -> Result<(), NoMemory>
    requires cursor { IsOfRun here.now cursor.old }
    requires kept { AreKept here.now kept.old }
    requires reached { cursor.old.machine.used < next_turns kept.old }
    ensures cursor { OnOk result (IsOfRun here.now cursor.new) }
    ensures moves { OnOk result ((cursor.old.machine.used < cursor.new.machine.used) ⊎ (IsSome (ending cursor.old.machine) × (cursor.new ≡ cursor.old))) }
    ensures stops { OnOk result ((is_set_at breaks.now (break_place_shown cursor.new.machine) ≡ true) ⊎ IsSome (ending cursor.new.machine)) }
    ensures least { OnOk result (HasNoBreakBetween breaks.now here.now cursor.old.machine.used cursor.new.machine.used) }
    ensures kept { AreKept here.now kept.new }
    ensures reached { OnOk result (cursor.new.machine.used < next_turns kept.new) }
    ensures further { next_turns kept.old ≤ next_turns kept.new }
{
    while turn_and_keep(alloc, here, cursor, kept)? {
        if is_at_break(cursor, breaks) {
            return Ok(());
        }
    }
    Ok(())
}

impl<'a, A: Allocator + Copy> Session<'a, A> {
    ghost use Rattle.std.specs.Prelude.{◌≡◌, None, IfOk, IfErr};
    ghost use Rattle.std.specs.FinMap.{get};
    ghost use Rattle.spec_ledger.specs.declared.Lock.{Lock};
    ghost use Rattle.spec_ledger.specs.Modes.{touched};
    ghost use Rattle.spec_execution.specs.Run.{opening};
    ghost use Rattle.interp.specs.Callee.{setting_view};
    ghost use Rattle.interp.specs.Starting.{IsRefusedFor, HasPlace, wrong_in};
    ghost use Rattle.debugger.specs.SessionView.{IsSessionView, ending_at, place_at, contract_at, level_at, asks_at, cells_at, frames_at, stack_at, locals_at, globals_at};
    ghost use Rattle.debugger.specs.Breaks.{exported_function};
    ghost use Rattle.debugger.specs.Commands.{IsOpened, Steps, GoesBack, Continues, Breaks, Clears, Reads};

    /// A session of the call alone over these cells by the rules of this version, before its first turn.
    ///
    /// # Errors
    ///
    /// Why the call does not start.
    pub fn open(
        alloc: A,
        contracts: &'a [Contract<A>],
        cells: &'a Cells<A>,
        call: &'a Call,
        version: Version,
    ) -> Result<Session<'a, A>, StartRefusal>
        ensures opened { IfOk result (λ session. IsOpened (setting_view version contracts.now) call.now cells.now.cells session) }
        ensures refused { IfErr result (λ refusal. IsRefusedFor refusal (opening (setting_view version contracts.now) call.now)) }
        ensures place { IfErr result (λ refusal. HasPlace (wrong_in (setting_view version contracts.now) call.now) refusal) }
    {
        let origin = open(alloc, contracts, cells, call, version)?;
        match copy(alloc, &origin) {
            Ok(here) => Ok(Session {
                alloc,
                origin,
                here,
                kept: none_kept(alloc),
                breaks: Vec::new(alloc),
            }),
            Err(NoMemory) => Err(StartRefusal::NoMemory),
        }
    }

    /// Makes so many turns, or as many as there are, and answers how many.
    ///
    /// # Errors
    ///
    /// `NoMemory` where memory was refused. The session is as it was.
    pub fn step(&mut self, count: u64) -> Result<u64, Refusal>
        ensures { Steps self.old count result self.new }
    {
        let mut cursor = copy(self.alloc, &self.here)?;
        let made = advance(self.alloc, &self.here, &mut cursor, &mut self.kept, count)?;
        self.here = cursor;
        Ok(made)
    }

    /// Goes so many turns back, and answers how many turns it made again for this: fewer than 1,024, or at most a 32nd of the
    /// call's fuel.
    ///
    /// # Errors
    ///
    /// `BeforeStart` exactly where fewer turns were made, else `NoMemory` where memory was refused. The session is as it was.
    pub fn back(&mut self, count: u64) -> Result<u64, Refusal>
        ensures { GoesBack self.old count result self.new }
    {
        let turns = self.here.machine.used();
        if count > turns {
            return Err(Refusal::BeforeStart);
        }
        let earlier = nearest(&self.origin, &self.here, &self.kept.cursors, turns - count);
        let (cursor, again) = state_after(self.alloc, earlier, &self.here, turns - count)?;
        self.here = cursor;
        Ok(again)
    }

    /// Goes on to the next state that has a break at its place, or to the end, and answers how many turns this made. It
    /// makes at least one turn, if there is one.
    ///
    /// # Errors
    ///
    /// `NoMemory` where memory was refused. The session is as it was.
    pub fn cont(&mut self) -> Result<u64, Refusal>
        ensures { Continues self.old result self.new }
    {
        let turns = self.here.machine.used();
        let mut cursor = copy(self.alloc, &self.here)?;
        go_on(
            self.alloc,
            &self.here,
            &mut cursor,
            &mut self.kept,
            &self.breaks,
        )?;
        let made = cursor.machine.used() - turns;
        self.here = cursor;
        Ok(made)
    }

    /// Sets a break at the instruction at this place, in each level that runs its contract. Imported functions have no body.
    ///
    /// # Errors
    ///
    /// `NoSuchPlace` exactly where there is no such instruction, else `NoMemory` where memory was refused. The session is as
    /// it was.
    pub fn break_at(&mut self, place: Place) -> Result<(), Refusal>
        ensures { Breaks self.old place result self.new }
    {
        if !is_place(&self.here, place) {
            return Err(Refusal::NoSuchPlace);
        }
        set_break(&mut self.breaks, place)?;
        Ok(())
    }

    /// Clears the break at this place, if there is one.
    ///
    /// # Errors
    ///
    /// `NoSuchPlace` exactly where there is no such instruction. The session is as it was.
    pub fn clear(&mut self, place: Place) -> Result<(), Refusal>
        ensures { Clears self.old place result self.new }
    {
        if !is_place(&self.here, place) {
            return Err(Refusal::NoSuchPlace);
        }
        clear_break(&mut self.breaks, place);
        Ok(())
    }

    /// The number of the contract that is called.
    pub fn called(&self) -> u32
        ensures { result ≡ self.now.call.contract }
    {
        self.here.machine.called()
    }

    /// The number of the function that the contract that is called exports under a name. None where it exports no function
    /// under it.
    pub fn exported_function(&self, name: &str) -> Option<u32>
        ensures { result ≡ exported_function self.now.contract.deployed.tree name.now }
    {
        function_of(self.here.machine.deployed().exported(name))
    }

    /// How many turns were made, which is the fuel that they used. What the session shows is the state after them.
    pub fn turns(&self) -> u64
        ensures { result ≡ self.now.turns }
    {
        self.here.machine.used()
    }

    /// What the session shows is the state after its turns, of the contract that the call opens with.
    pub fn is_sight(&self)
        ensures { IsSessionView self.now }
    {
        let _ = &self.here;
    }

    /// How the run has ended, if it has.
    pub fn ending(&self) -> Option<Outcome>
        ensures { result ≡ ending_at self.now }
    {
        self.here.machine.ending()
    }

    /// The number of the function and the ordinal of the instruction to come, in the innermost level. None after the end.
    pub fn place(&self) -> Option<(u32, u32)>
        ensures { result ≡ place_at self.now }
    {
        self.here.machine.place()
    }

    /// The number of the contract that the innermost level runs.
    pub fn contract(&self) -> u32
        ensures { result ≡ contract_at self.now }
    {
        self.here.machine.contract()
    }

    /// How many levels are around the innermost one, which is 0 where no contract was asked.
    pub fn level(&self) -> usize
        ensures { result ≡ level_at self.now }
    {
        self.here.machine.level()
    }

    /// How many levels were entered.
    pub fn asks(&self) -> u32
        ensures { result ≡ asks_at self.now }
    {
        self.here.machine.entered()
    }

    /// The frames that are open at all levels, from the outer level and its outer frame on, each with the instruction that it goes
    /// on with once those inside it are left. Where the call has returned or trapped there is none; where the fuel is out they are
    /// those that were open.
    ///
    /// # Errors
    ///
    /// Memory was refused.
    pub fn frames(&self) -> Result<Vec<OpenFrame, A>, NoMemory>
        ensures { IfOk result (λ frames. frames.items ≡ frames_at self.now) }
    {
        self.here.machine.frames()
    }

    /// The operations that the call has asked for with their replies, and the marks of levels.
    pub fn trace(&self) -> &[TraceStep]
        ensures { result.now ≡ self.now.trace }
    {
        self.here.machine.trace()
    }

    /// The cells at the start.
    pub fn start(&self) -> &Cells<A>
        ensures { result.now.cells ≡ self.now.cells }
    {
        self.here.start
    }

    /// The cells that stand: those after the operations of the call, but for those of levels that were dropped; after an end other
    /// than a return those at the start. A cell whose lock the call has not asked for is as it was at the start.
    pub fn cells(&self) -> &Cells<A>
        ensures cells { result.now.cells ≡ cells_at self.now }
        ensures others { (lock : Lock) → get (touched self.now.trace) lock ≡ None → get (cells_at self.now) lock ≡ get self.now.cells lock }
    {
        self.here.start.use_invariant();
        if stands(self.here.machine.ending()) {
            &self.here.cells
        } else {
            self.here.start
        }
    }

    /// The values of the innermost frame, bottom first. After the end they are the returned value, if there is one.
    pub fn stack(&self) -> &[Value]
        ensures { result.now ≡ stack_at self.now }
    {
        self.here.machine.stack()
    }

    /// The locals of the innermost frame. After the end there are none.
    pub fn locals(&self) -> &[Value]
        ensures { result.now ≡ locals_at self.now }
    {
        self.here.machine.locals()
    }

    /// The globals of the innermost level. After the end they are those of the outer level, as they stood.
    pub fn globals(&self) -> &[Value]
        ensures { result.now ≡ globals_at self.now }
    {
        if self.here.machine.ending().is_some() {
            self.here.machine.outer_globals()
        } else {
            self.here.machine.globals()
        }
    }

    /// So many bytes of the innermost level's memory from an address on. After the end they are those of the outer level, as
    /// they stood.
    ///
    /// # Errors
    ///
    /// `OutOfRange` exactly where the bytes do not all lie in memory, else `NoMemory` where memory was refused.
    pub fn bytes(&self, from: u64, count: u64) -> Result<Vec<u8, A>, Refusal>
        ensures { Reads self.now from count result }
    {
        match bytes_shown(&self.here, from, count) {
            Ok(bytes) => Ok(bytes),
            Err(BytesRefusal::OutOfRange) => Err(Refusal::OutOfRange),
            Err(BytesRefusal::NoMemory) => Err(Refusal::NoMemory),
        }
    }
}
