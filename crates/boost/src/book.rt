// The book: what is settled, and the live attempts of calls.
ghost use Rattle.std.specs.Prelude.{◌≡◌, ◌+◌, ◌<◌, ◌≤◌, ℕ, List, ◌∷◌, [], ◌++◌, true, false, IsTrue, ◌↔◌, Some, Option, IfSome, IfNone, IfOk, OnOk, OnErr, length, take, drop, vec_len, vec_capacity, slice_get, Err, replicate, slice_index, IfErr, ◌≢◌, ◌⊎◌};
ghost use Rattle.std.specs.List.{AllByRecursion};
ghost use Rattle.spec_ledger.specs.Book.{Content, IsKept, IsGranted, extended, after_undo, after_commit, entry_of, call_is_new, settled};
ghost use Rattle.spec_ledger.specs.Facts.{CellsAreSettledButForHolders, EntriesAreSerialRun, LiveAttemptsGoTogether, LiveTracesGetReplies};
ghost use Rattle.spec_ledger.specs.Events.{IsStale, BeginDone, HasNoAttempt, OpDone, IsConflict, EnterDone, LeaveDone, IsNotEntered, UndoDone, CommitDone, IsOther, IsUndoneLast};
ghost use Rattle.boost.specs.BookInvariant.{AreStanding, IsBook, IsPlace};
ghost use Rattle.boost.specs.AttemptNumbers.{BegunAs, BegunWith, HasTrace, IsPassed};
ghost use Rattle.spec_ledger.specs.Modes.{ops_of};
ghost use Rattle.std.specs.FinMap as finite;

use crate::attempt::{Attempt, CommittedCall};
use crate::standing::{CallState, note_places, place_of};
use crate::trace::same_trace;
use abstract_locks::Table;
use spec_ledger::{Lock, Op, Outcome, Reply, TraceStep};
use std::alloc::{Allocator, Global};
use std::marker::Model;
use storage::{Cells, NoMemory, end_all, lock, mode, returned, take_all_back};
use thiserror::Error;

/// The right to act for an attempt.
#[derive(Debug, Drop)]
pub struct Ticket {
    pub(crate) call: u32,
    pub(crate) number: u64,
}

impl Ticket {
    /// The number of its attempt.
    pub fn number(&self) -> u64
        ensures { result ≡ self.now.number }
    {
        self.number
    }
}

/// What a book asks of the finished run of a call: its trace, lent, and its outcome.
#[derive(Clone, Copy)]
pub struct Run<'a> {
    /// The operations with their replies, in order.
    pub trace: &'a [TraceStep],
    /// How it ended.
    pub outcome: Outcome,
}

/// Why an operation is not done.
#[derive(Clone, Copy, Debug, PartialEq, Eq, Error)]
pub enum OpRefusal {
    /// Another live attempt holds the lock in a mode that does not go with the one asked for, joined to the one held.
    #[error("another attempt holds the lock in a mode that does not go with the one asked for")]
    Conflict,
    /// The attempt of the ticket lives no more.
    #[error("the attempt of the ticket lives no more")]
    Stale,
    /// Memory was refused, or a counter of unsettled changes is full.
    #[error("memory was refused, or a counter of unsettled changes is full")]
    NoMemory,
}

/// Why no level is entered.
#[derive(Clone, Copy, Debug, PartialEq, Eq, Error)]
pub enum EnterRefusal {
    /// The attempt of the ticket lives no more.
    #[error("the attempt of the ticket lives no more")]
    Stale,
    /// Memory was refused.
    #[error("memory was refused")]
    NoMemory,
}

/// Why no level is left.
#[derive(Clone, Copy, Debug, PartialEq, Eq, Error)]
pub enum LeaveRefusal {
    /// The attempt of the ticket lives no more.
    #[error("the attempt of the ticket lives no more")]
    Stale,
    /// The attempt has entered no level that it has not left.
    #[error("the attempt has entered no level that it has not left")]
    NotEntered,
}

/// Why an attempt is not committed.
#[derive(Clone, Copy, Debug, PartialEq, Eq, Error)]
pub enum CommitRefusal {
    /// The attempt of the ticket lives no more.
    #[error("the attempt of the ticket lives no more")]
    Stale,
    /// The run's trace is not the one that the book kept.
    #[error("the run's trace is not the one that the book kept")]
    Differs,
    /// Memory was refused.
    #[error("memory was refused")]
    NoMemory,
}

/// Why no attempt of a call is begun.
#[derive(Clone, Copy, Debug, PartialEq, Eq, Error)]
pub enum BeginRefusal {
    /// The book has no call of this number.
    #[error("the book has no call of this number")]
    NoSuchCall,
    /// The call has a live attempt.
    #[error("the call has a live attempt")]
    Live,
    /// The call has an entry.
    #[error("the call has an entry")]
    Committed,
    /// Memory was refused, or the counter of the call's attempts is full.
    #[error("memory was refused, or the counter of the call's attempts is full")]
    NoMemory,
}

/// Why no attempt of a call is begun under a number.
#[derive(Clone, Copy, Debug, PartialEq, Eq, Error)]
pub enum BeginAsRefusal {
    /// The book has no call of this number.
    #[error("the book has no call of this number")]
    NoSuchCall,
    /// The call has a live attempt.
    #[error("the call has a live attempt")]
    Live,
    /// The call has an entry.
    #[error("the call has an entry")]
    Committed,
    /// The number is below the count of the call's attempts.
    #[error("the number is below the count of the call's attempts")]
    Passed,
    /// Memory was refused, or the number is the greatest of 64 bits, which no count exceeds.
    #[error("memory was refused, or the number is the greatest of 64 bits")]
    NoMemory,
}

/// What is left of a book.
#[derive(Drop)]
pub struct Closed<A: Allocator = Global> {
    /// The cells that the book was opened with.
    pub opening: Cells<A>,
    /// The cells after every live call is undone, in which nothing is unsettled.
    pub cells: Cells<A>,
    /// The committed calls in their order.
    pub entries: Vec<CommittedCall<A>, A>,
}

/// The committed calls, which are a serial run from the opening cells, and the live attempts, whose operations go together (Dickerson, Gazzillo, Herlihy, Koskinen, "Adding Concurrency to Smart Contracts", PODC 2017, sections 3 and 4). There is room for the entry of each live attempt, so that a commit takes no memory.
pub struct Book<A: Allocator = Global> {
    alloc: A,
    opening: Cells<A>,
    cells: Cells<A>,
    entries: Vec<CommittedCall<A>, A>,
    attempts: Vec<Attempt<A>, A>,
    begun: Vec<u64, A>,
    locks: Table<A>,
    standings: Vec<CallState, A>,
}

impl<A: Allocator> Model for Book<A> {
    ghost use Rattle.spec_ledger.specs.Book.{Content};
    ghost use Rattle.spec_ledger.specs.Codes.{coded_content};
    ghost use Rattle.boost.specs.BookInvariant.{IsBook};
    ghost use Rattle.std.specs.Prelude.{◌+◌, ◌≤◌, vec_len, vec_capacity};

    ghost Value = { Content };

    ghost coded = { coded_content };

    ghost view = { λ b. record { opening = b.opening.cells; now = b.cells.cells; entries = b.entries.items; attempts = b.attempts.items; begun = b.begun.items } };

    ghost invariant = { λ b. IsBook (record { opening = b.opening.cells; now = b.cells.cells; entries = b.entries.items; attempts = b.attempts.items; begun = b.begun.items }) b.cells.unsettled b.locks b.standings.items × (vec_len b.entries + vec_len b.attempts ≤ vec_capacity b.entries) };
}

/// Where the attempt of a ticket stands, if it lives.
fn find<A: Allocator + Copy>(
    attempts: &[Attempt<A>],
    standings: &[CallState],
    ticket: &Ticket,
) -> Option<usize>
    requires { AreStanding attempts.now standings.now }
    ensures found { IfSome result (λ i. IsPlace attempts.now i ticket.now.call ticket.now.number) }
    ensures none { IfNone result (AllByRecursion (λ a. ¬ ((a.call ≡ ticket.now.call) × (a.number ≡ ticket.now.number))) attempts.now) }
{
    let Some(place) = place_of(standings, ticket.call) else {
        return None;
    };
    if attempts[place].number() != ticket.number {
        return None;
    }
    Some(place)
}

impl<A: Allocator + Copy> Book<A> {
    /// Does an operation for a live attempt.
    pub fn op(&mut self, ticket: &Ticket, op: Op) -> Result<Reply, OpRefusal>
        ensures ok { IfOk result (λ reply. OpDone self.old self.new ticket.now.call ticket.now.number op reply) }
        ensures conflict { (result ≡ Err OpRefusal.Conflict) ↔ IsConflict self.old ticket.now.call ticket.now.number op }
        ensures stale { (result ≡ Err OpRefusal.Stale) ↔ IsStale self.old ticket.now.call ticket.now.number }
        ensures err { OnErr result (self.new ≡ self.old) }
    {
        let Some(i) = find(&self.attempts, &self.standings, ticket) else {
            return Err(OpRefusal::Stale);
        };
        if !self.locks.may_take(ticket.call, lock(op), mode(op)) {
            return Err(OpRefusal::Conflict);
        }
        let Ok(reply) = self.attempts[i].act(&mut self.cells, &mut self.locks, op) else {
            return Err(OpRefusal::NoMemory);
        };
        Ok(reply)
    }

    /// Makes the room for one level more of a live attempt, so that the next `enter` of it takes no memory. What is seen stays.
    pub fn make_room(&mut self, ticket: &Ticket) -> Result<(), EnterRefusal>
        ensures stale { (result ≡ Err EnterRefusal.Stale) ↔ IsStale self.old ticket.now.call ticket.now.number }
        ensures same { self.new ≡ self.old }
    {
        let Some(i) = find(&self.attempts, &self.standings, ticket) else {
            return Err(EnterRefusal::Stale);
        };
        let Ok(()) = self.attempts[i].make_room() else {
            return Err(EnterRefusal::NoMemory);
        };
        Ok(())
    }

    /// Enters a level of a live attempt: adds its mark to the trace, and makes the room for the mark that closes it, which later operations and levels leave.
    pub fn enter(&mut self, ticket: &Ticket) -> Result<(), EnterRefusal>
        ensures ok { OnOk result (EnterDone self.old self.new ticket.now.call ticket.now.number) }
        ensures stale { (result ≡ Err EnterRefusal.Stale) ↔ IsStale self.old ticket.now.call ticket.now.number }
        ensures err { OnErr result (self.new ≡ self.old) }
    {
        let Some(i) = find(&self.attempts, &self.standings, ticket) else {
            return Err(EnterRefusal::Stale);
        };
        let Ok(()) = self.attempts[i].enter() else {
            return Err(EnterRefusal::NoMemory);
        };
        Ok(())
    }

    /// Leaves the innermost level of a live attempt, for which it takes no memory: its changes stand, or are taken back, last first. Its locks are held on.
    pub fn leave(&mut self, ticket: &Ticket, keep: bool) -> Result<(), LeaveRefusal>
        ensures ok { OnOk result (LeaveDone self.old self.new ticket.now.call ticket.now.number keep) }
        ensures stale { (result ≡ Err LeaveRefusal.Stale) ↔ IsStale self.old ticket.now.call ticket.now.number }
        ensures not_entered { (result ≡ Err LeaveRefusal.NotEntered) ↔ IsNotEntered self.old ticket.now.call ticket.now.number }
        ensures err { OnErr result (self.new ≡ self.old) }
    {
        let Some(i) = find(&self.attempts, &self.standings, ticket) else {
            return Err(LeaveRefusal::Stale);
        };
        if !self.attempts[i].leave(&mut self.cells, keep) {
            return Err(LeaveRefusal::NotEntered);
        }
        Ok(())
    }

    /// Undoes a live attempt. A stale ticket changes nothing.
    pub fn undo(&mut self, ticket: Ticket)
        ensures stale { IsStale self.old ticket.call ticket.number → self.new ≡ self.old }
        ensures done { IsStale self.old ticket.call ticket.number ⊎ UndoDone self.old self.new ticket.call ticket.number }
    {
        let Some(i) = find(&self.attempts, &self.standings, &ticket) else {
            return;
        };
        let attempt = self.attempts.remove(i);
        take_all_back(&mut self.cells, attempt.into_inverses());
        self.locks.release(ticket.call);
        self.standings[ticket.call as usize] = CallState::Idle;
        note_places(&mut self.standings, &self.attempts, i);
    }

    /// The operations that a live attempt did, with their replies, in order. None where the ticket is stale.
    pub fn trace_of(&self, ticket: &Ticket) -> Option<&[TraceStep]>
        ensures found { IfSome result (λ trace. HasTrace self.now ticket.now.call ticket.now.number trace.now) }
        ensures stale { IfNone result (IsStale self.now ticket.now.call ticket.now.number) }
    {
        let Some(i) = find(&self.attempts, &self.standings, ticket) else {
            return None;
        };
        Some(self.attempts[i].trace())
    }

    /// Commits a live attempt with the trace that the book kept, for which it takes no memory, and answers its position. A stale ticket changes nothing.
    pub fn end(&mut self, ticket: Ticket, outcome: Outcome) -> Result<u32, Ticket>
        ensures ok { IfOk result (λ position. (trace : List TraceStep) × CommitDone self.old self.new ticket.call ticket.number trace outcome position) }
        ensures kept { IfOk result (λ position. (trace : List TraceStep) → HasTrace self.old ticket.call ticket.number trace → CommitDone self.old self.new ticket.call ticket.number trace outcome position) }
        ensures stale { (result ≡ Err ticket) ↔ IsStale self.old ticket.call ticket.number }
        ensures ticket { IfErr result (λ back. back ≡ ticket) }
        ensures err { OnErr result (self.new ≡ self.old) }
    {
        let Some(i) = find(&self.attempts, &self.standings, &ticket) else {
            return Err(ticket);
        };
        let position = self.entries.len() as u32;
        let attempt = self.attempts.remove(i);
        let (entry, inverses) = attempt.into_entry(outcome);
        end_all(&mut self.cells, inverses, returned(outcome));
        self.locks.release(ticket.call);
        self.standings[ticket.call as usize] = CallState::Committed;
        note_places(&mut self.standings, &self.attempts, i);
        match self.entries.push(entry) {
            Ok(()) => Ok(position),
            Err(_) => unreachable!(),
        }
    }

    /// Commits a live attempt, whose trace is that of the run, and answers its position.
    pub fn commit(&mut self, ticket: Ticket, run: &Run<'_>) -> Result<u32, (Ticket, CommitRefusal)>
        ensures ok { IfOk result (λ position. CommitDone self.old self.new ticket.call ticket.number run.now.trace.now run.now.outcome position) }
        ensures stale { IfErr result (λ e. (e.1 ≡ CommitRefusal.Stale) ↔ IsStale self.old ticket.call ticket.number) }
        ensures differs { IfErr result (λ e. (e.1 ≡ CommitRefusal.Differs) ↔ IsOther self.old ticket.call ticket.number run.now.trace.now) }
        ensures memory { IfErr result (λ e. e.1 ≢ CommitRefusal.NoMemory) }
        ensures ticket { IfErr result (λ e. e.0 ≡ ticket) }
        ensures err { OnErr result (self.new ≡ self.old) }
    {
        let Some(trace) = self.trace_of(&ticket) else {
            return Err((ticket, CommitRefusal::Stale));
        };
        if !same_trace(trace, run.trace) {
            return Err((ticket, CommitRefusal::Differs));
        }
        match self.end(ticket, run.outcome) {
            Ok(position) => Ok(position),
            Err(_) => unreachable!(),
        }
    }

    /// A book of this many calls, with no entry and no attempt, over a copy of the opening cells in which nothing is unsettled.
    pub fn open(alloc: A, opening: Cells<A>, calls: u32) -> Result<Self, NoMemory>
        ensures opening { IfOk result (λ book. book.opening ≡ opening.cells) }
        ensures now { IfOk result (λ book. book.now ≡ opening.cells) }
        ensures entries { IfOk result (λ book. book.entries ≡ []) }
        ensures attempts { IfOk result (λ book. book.attempts ≡ []) }
        ensures begun { IfOk result (λ book. book.begun ≡ replicate calls 0) }
    {
        opening.use_invariant();
        let cells = opening.copy(alloc)?;
        let Ok(begun) = vec![in alloc; 0u64; calls as usize] else {
            return Err(NoMemory);
        };
        let Ok(standings) = vec![in alloc; CallState::Idle; calls as usize] else {
            return Err(NoMemory);
        };
        let locks = Table::open(alloc, calls)?;
        Ok(Book {
            alloc,
            opening,
            cells,
            entries: Vec::new(alloc),
            attempts: Vec::new(alloc),
            begun,
            locks,
            standings,
        })
    }

    /// Undoes the newest live attempt, if there is one.
    fn undo_last(&mut self) -> bool
        ensures undone { IsTrue result → IsUndoneLast self.old self.new }
        ensures none { result ≡ false → (self.new ≡ self.old) × (self.old.attempts ≡ []) }
    {
        let Some(attempt) = self.attempts.pop() else {
            return false;
        };
        let call = attempt.call();
        take_all_back(&mut self.cells, attempt.into_inverses());
        self.locks.release(call);
        self.standings[call as usize] = CallState::Idle;
        true
    }

    /// The opening cells, the entries, and the cells after every live call is undone, in which nothing is unsettled.
    pub fn close(mut self) -> Closed<A>
        ensures opening { result.opening.cells ≡ self.opening }
        ensures entries { result.entries.items ≡ self.entries }
        ensures cells { result.cells.cells ≡ settled self.opening self.entries }
        ensures settled { result.cells.unsettled ≡ finite.empty }
    {
        while self.undo_last() {}
        let Book {
            alloc: _,
            opening,
            cells,
            entries,
            attempts: _,
            begun: _,
            locks: _,
            standings: _,
        } = self;
        Closed {
            opening,
            cells,
            entries,
        }
    }

    /// The ticket of a call's live attempt, or None where it has none.
    pub fn ticket_of(&self, call: u32) -> Option<Ticket>
        ensures found { IfSome result (λ t. (t.call ≡ call) × ¬ (IsStale self.now call t.number)) }
        ensures none { IfNone result (HasNoAttempt call self.now.attempts) }
    {
        ticket_in(&self.attempts, &self.standings, call)
    }

    /// How many attempts live.
    pub fn live_count(&self) -> usize
        ensures { result ≡ length self.now.attempts }
    {
        self.attempts.len()
    }

    /// What a cell holds now.
    pub fn cell(&self, lock: Lock) -> Option<u64>
        ensures { result ≡ finite.get self.now.now lock }
    {
        self.cells.get(lock)
    }

    /// What the type of a book keeps.
    pub fn use_invariant(&self)
        ensures entries { EntriesAreSerialRun self.now }
        ensures cells { CellsAreSettledButForHolders self.now }
        ensures replies { LiveTracesGetReplies self.now }
        ensures modes { LiveAttemptsGoTogether self.now }
    {
        let _cells = &self.cells;
    }

    /// How many attempts of a call were begun, or None where the book has no call of this number.
    pub fn begun_of(&self, call: u32) -> Option<u64>
        ensures { result ≡ slice_get self.now.begun call }
    {
        self.begun.get(call as usize).copied()
    }

    /// Begins an attempt of a call.
    pub fn begin(&mut self, call: u32) -> Result<Ticket, BeginRefusal>
        ensures ok { IfOk result (λ ticket. (ticket.call ≡ call) × BeginDone self.old self.new call ticket.number) }
        ensures no_such_call { (result ≡ Err BeginRefusal.NoSuchCall) ↔ (length self.old.begun ≤ call) }
        ensures live { (result ≡ Err BeginRefusal.Live) ↔ ¬ (HasNoAttempt call self.old.attempts) }
        ensures committed { (result ≡ Err BeginRefusal.Committed) ↔ ¬ (call_is_new call self.old.entries) }
        ensures err { OnErr result (self.new ≡ self.old) }
    {
        let number = self.begun_of(call).unwrap_or(0);
        match self.begin_as(call, number) {
            Ok(ticket) => Ok(ticket),
            Err(BeginAsRefusal::NoSuchCall) => Err(BeginRefusal::NoSuchCall),
            Err(BeginAsRefusal::Live) => Err(BeginRefusal::Live),
            Err(BeginAsRefusal::Committed) => Err(BeginRefusal::Committed),
            Err(BeginAsRefusal::NoMemory) => Err(BeginRefusal::NoMemory),
            Err(BeginAsRefusal::Passed) => unreachable!(),
        }
    }

    /// Begins an attempt of a call under this number, and counts it and all numbers below it as begun.
    pub fn begin_as(&mut self, call: u32, number: u64) -> Result<Ticket, BeginAsRefusal>
        ensures ok { IfOk result (λ ticket. (ticket.call ≡ call) × (ticket.number ≡ number) × BegunAs self.old self.new call number) }
        ensures no_such_call { (result ≡ Err BeginAsRefusal.NoSuchCall) ↔ (length self.old.begun ≤ call) }
        ensures live { (result ≡ Err BeginAsRefusal.Live) ↔ ¬ (HasNoAttempt call self.old.attempts) }
        ensures committed { (result ≡ Err BeginAsRefusal.Committed) ↔ ¬ (call_is_new call self.old.entries) }
        ensures passed { (result ≡ Err BeginAsRefusal.Passed) ↔ IsPassed self.old call number }
        ensures err { OnErr result (self.new ≡ self.old) }
    {
        if call as usize >= self.begun.len() {
            return Err(BeginAsRefusal::NoSuchCall);
        }
        match self.standings[call as usize] {
            CallState::Idle => (),
            CallState::Live(_) => return Err(BeginAsRefusal::Live),
            CallState::Committed => return Err(BeginAsRefusal::Committed),
        }
        if number < self.begun[call as usize] {
            return Err(BeginAsRefusal::Passed);
        }
        if number == u64::MAX {
            return Err(BeginAsRefusal::NoMemory);
        }
        if self.attempts.reserve(1).is_err() {
            return Err(BeginAsRefusal::NoMemory);
        }
        let place = self.attempts.len();
        if self.entries.reserve(place + 1).is_err() {
            return Err(BeginAsRefusal::NoMemory);
        }
        let attempt = Attempt::fresh(self.alloc, call, number);
        match self.attempts.push(attempt) {
            Ok(()) => (),
            Err(_) => unreachable!(),
        }
        self.begun[call as usize] = number + 1;
        self.standings[call as usize] = CallState::Live(place);
        Ok(Ticket { call, number })
    }

    /// Makes these marks of levels in the attempt that was begun last and has done nothing, as one that begins in the midst of a call. The room for the marks that close its open levels is made with them. Where memory is refused, all is as it was.
    pub fn mark(&mut self, ticket: &Ticket, marks: &[TraceStep]) -> Result<(), NoMemory>
        requires newest { (former : Content) × BegunAs former self.old ticket.now.call ticket.now.number }
        requires marks { ops_of marks.now ≡ [] }
        ensures ok { OnOk result ((former : Content) → BegunAs former self.old ticket.now.call ticket.now.number → BegunWith former self.new ticket.now.call ticket.now.number marks.now) }
        ensures err { OnErr result (self.new ≡ self.old) }
    {
        let Ok(attempt) = Attempt::marked(self.alloc, ticket.call, ticket.number, marks) else {
            return Err(NoMemory);
        };
        let last = self.attempts.len() - 1;
        self.attempts[last] = attempt;
        Ok(())
    }

    /// Takes the marks back that the attempt which was begun last has made, and that are all that it has done.
    pub fn unmark(&mut self, ticket: &Ticket)
        requires { (former : Content) × (marks : List TraceStep) × BegunWith former self.old ticket.now.call ticket.now.number marks }
        ensures { (former : Content) → (marks : List TraceStep) → BegunWith former self.old ticket.now.call ticket.now.number marks → BegunAs former self.new ticket.now.call ticket.now.number }
    {
        let attempt = Attempt::fresh(self.alloc, ticket.call, ticket.number);
        let last = self.attempts.len() - 1;
        self.attempts[last] = attempt;
    }

    /// Takes the newest begin back, given how many attempts of its call were begun before: the book is as it was before the begin. Refuses, and changes nothing, where the ticket's attempt is not the newest or has done an operation, and where no begin leaves this book from that count.
    pub fn unbegin(&mut self, ticket: Ticket, count: u64) -> Result<(), Ticket>
        ensures ok { OnOk result (BegunAs self.new self.old ticket.call ticket.number × (slice_index self.new.begun ticket.call ≡ count)) }
        ensures former { OnOk result ((former : Content) → BegunAs former self.old ticket.call ticket.number → slice_index former.begun ticket.call ≡ count → self.new ≡ former) }
        ensures refused { OnErr result ((former : Content) → BegunAs former self.old ticket.call ticket.number → slice_index former.begun ticket.call ≢ count) }
        ensures ticket { IfErr result (λ back. back ≡ ticket) }
        ensures err { OnErr result (self.new ≡ self.old) }
    {
        let Some(last) = self.attempts.last() else {
            return Err(ticket);
        };
        if !last.is_fresh(ticket.call, ticket.number) {
            return Err(ticket);
        }
        if count > ticket.number || self.begun[ticket.call as usize] - 1 != ticket.number {
            return Err(ticket);
        }
        self.attempts.pop();
        self.locks.release(ticket.call);
        self.standings[ticket.call as usize] = CallState::Idle;
        self.begun[ticket.call as usize] = count;
        Ok(())
    }
}

impl<A: Allocator> Drop for Book<A> {
    fn drop(self) {
        let Book {
            alloc: _,
            opening: _,
            cells: _,
            entries: _,
            attempts: _,
            begun: _,
            locks: _,
            standings: _,
        } = self;
    }
}

/// The ticket of a call's attempt among these.
fn ticket_in<A: Allocator + Copy>(
    attempts: &[Attempt<A>],
    standings: &[CallState],
    call: u32,
) -> Option<Ticket>
    requires { AreStanding attempts.now standings.now }
    ensures found { IfSome result (λ t. (t.call ≡ call) × ¬ (AllByRecursion (λ a. ¬ ((a.call ≡ call) × (a.number ≡ t.number))) attempts.now)) }
    ensures none { IfNone result (HasNoAttempt call attempts.now) }
{
    let Some(place) = place_of(standings, call) else {
        return None;
    };
    let number = attempts[place].number();
    Some(Ticket { call, number })
}
