// A shard of a book.
ghost use Rattle.std.specs.Prelude.{◌≡◌, ◌≢◌, ◌<◌, ◌≤◌, ◌⊎◌, ◌↔◌, ◌++◌, ◌∷◌, [], IfOk, IfSome, IfNone, IsTrue, OnOk, OnErr, Err, List, length, replicate, slice_get};
ghost use Rattle.spec_ledger.specs.declared.TraceStep.{TraceStep};
ghost use Rattle.spec_ledger.specs.Book.{Content};
ghost use Rattle.spec_ledger.specs.Events.{CommitDone, EnterDone, HasNoAttempt, IsNotEntered, IsOther, IsStale, LeaveDone, OpDone, UndoDone};
ghost use Rattle.spec_ledger.specs.Facts.{CellsAreSettledButForHolders, EntriesAreSerialRun, LiveAttemptsGoTogether, LiveTracesGetReplies};
ghost use Rattle.spec_ledger.specs.Modes.{ops_of};
ghost use Rattle.std.specs.List.Sorted.{IsStrictlyIncreasing};
ghost use Rattle.spec_ledger.specs.Shards.{part, shard_of};
ghost use Rattle.sharding.specs.Shard.{HasToWait, IsNext, IsOver, IsReady, IsShard};

use crate::first::first_op;
use crate::{Part, is_part};
use boost::book::{
    BeginAsRefusal, Book, CommitRefusal, EnterRefusal, LeaveRefusal, OpRefusal, Ticket,
};
use spec_ledger::{Op, Outcome, Reply, TraceStep};
use std::alloc::{Allocator, Global};
use std::marker::Model;
use storage::{Cells, NoMemory};
use thiserror::Error;

/// Why an attempt is not ended in a shard.
#[derive(Clone, Copy, Debug, PartialEq, Eq, Error)]
pub enum EndRefusal {
    /// The attempt does not live in the shard.
    #[error("the attempt does not live in the shard")]
    Stale,
    /// The position is not above that of the shard's last entry.
    #[error("the position is not above that of the shard's last entry")]
    Position,
}

/// A shard: the book of its own locks, and where its entries stand in the journal of all. An attempt of a call has the number that the journal gave it, and
/// is begun here with its first operation. The type keeps all that a book keeps, for the shard's own locks, and that the positions rise. There is room for
/// the position of each live attempt, so that an end takes no memory.
#[derive(Drop)]
pub struct Shard<A: Allocator = Global> {
    book: Book<A>,
    positions: Vec<u32, A>,
}

impl<A: Allocator> Model for Shard<A> {
    ghost use Rattle.std.specs.Prelude.{◌+◌, ◌≤◌, length, vec_len, vec_capacity};
    ghost use Rattle.sharding.specs.Shard.{IsShard, Shard as TheShard, shard_code};

    ghost Value = { TheShard };

    ghost coded = { shard_code };

    ghost view = { λ s. record { book = s.book; positions = s.positions.items } };

    ghost invariant = { λ s. IsShard (record { book = s.book; positions = s.positions.items }) × (vec_len s.positions + length s.book.attempts ≤ vec_capacity s.positions) };
}

/// The ticket of the live attempt of a call and a number.
fn ticket_of<A: Allocator + Copy>(book: &Book<A>, call: u32, number: u64) -> Option<Ticket>
    ensures found { IfSome result (λ ticket. (ticket.call ≡ call) × (ticket.number ≡ number)) }
    ensures lives { IfSome result (λ _. ¬ (IsStale book.now call number)) }
    ensures none { IfNone result (IsStale book.now call number) }
{
    book.use_invariant();
    let ticket = book.ticket_of(call)?;
    if ticket.number() != number {
        return None;
    }
    Some(ticket)
}

/// Whether a position is above all of these, which rise.
fn is_next(positions: &[u32], position: u32) -> bool
    requires { IsStrictlyIncreasing positions.now }
    ensures { IsTrue result ↔ IsNext positions.now position }
{
    match positions.last() {
        None => true,
        Some(last) => *last < position,
    }
}

impl<A: Allocator + Copy> Shard<A> {
    /// A shard of so many calls over these cells, with no entry and no attempt.
    ///
    /// # Errors
    ///
    /// Memory was refused.
    pub fn open(alloc: A, cells: Cells<A>, calls: u32) -> Result<Self, NoMemory>
        ensures opening { IfOk result (λ shard. shard.book.opening ≡ cells.cells) }
        ensures now { IfOk result (λ shard. shard.book.now ≡ cells.cells) }
        ensures entries { IfOk result (λ shard. shard.book.entries ≡ []) }
        ensures attempts { IfOk result (λ shard. shard.book.attempts ≡ []) }
        ensures begun { IfOk result (λ shard. shard.book.begun ≡ replicate calls 0) }
        ensures positions { IfOk result (λ shard. shard.positions ≡ []) }
    {
        Ok(Shard {
            book: Book::open(alloc, cells, calls)?,
            positions: Vec::new(alloc),
        })
    }

    /// Does an operation for an attempt of a call. With its first here the attempt is begun, and the room for its entry and its position made. A refusal
    /// changes nothing, so a first operation that was refused may be tried again.
    ///
    /// # Errors
    ///
    /// Stale just where the attempt is over here, or the shard has no such call. Unless memory was refused, Conflict just where the operation has to wait:
    /// another attempt holds the lock in a mode that does not go with the one asked for, or an earlier attempt of the call lives here.
    pub fn op(&mut self, call: u32, number: u64, op: Op) -> Result<Reply, OpRefusal>
        ensures ok { IfOk result (λ reply. (ready : Content) × IsReady self.old.book ready call number [] × OpDone ready self.new.book call number op reply) }
        ensures positions { self.new.positions ≡ self.old.positions }
        ensures stale { (result ≡ Err OpRefusal.Stale) ↔ (IsOver self.old.book call number ⊎ (length self.old.book.begun ≤ call)) }
        ensures conflict { result ≢ Err OpRefusal.NoMemory → (result ≡ Err OpRefusal.Conflict) ↔ HasToWait self.old.book call number [] op }
        ensures err { OnErr result (self.new ≡ self.old) }
    {
        self.op_with(call, number, &[], op)
    }

    /// Does an operation for an attempt of a call that made these marks of levels elsewhere. With its first here the attempt is begun, with these marks and the
    /// room for those that close its open levels; an attempt that lives here has made its own. A refusal changes nothing, so a first operation that was refused
    /// may be tried again.
    ///
    /// # Errors
    ///
    /// Stale just where the attempt is over here, or the shard has no such call. Unless memory was refused, Conflict just where the operation has to wait:
    /// another attempt holds the lock in a mode that does not go with the one asked for, or an earlier attempt of the call lives here.
    pub fn op_with(
        &mut self,
        call: u32,
        number: u64,
        marks: &[TraceStep],
        op: Op,
    ) -> Result<Reply, OpRefusal>
        requires { ops_of marks.now ≡ [] }
        ensures ok { IfOk result (λ reply. (ready : Content) × IsReady self.old.book ready call number marks.now × OpDone ready self.new.book call number op reply) }
        ensures positions { self.new.positions ≡ self.old.positions }
        ensures stale { (result ≡ Err OpRefusal.Stale) ↔ (IsOver self.old.book call number ⊎ (length self.old.book.begun ≤ call)) }
        ensures conflict { result ≢ Err OpRefusal.NoMemory → (result ≡ Err OpRefusal.Conflict) ↔ HasToWait self.old.book call number marks.now op }
        ensures err { OnErr result (self.new ≡ self.old) }
    {
        let count = self.book.begun_of(call).unwrap_or(0);
        match self.book.begin_as(call, number) {
            Ok(ticket) => first_op(
                &mut self.book,
                &mut self.positions,
                ticket,
                count,
                marks,
                op,
            ),
            Err(BeginAsRefusal::Live) => match ticket_of(&self.book, call, number) {
                Some(ticket) => self.book.op(&ticket, op),
                None => Err(if number < count {
                    OpRefusal::Stale
                } else {
                    OpRefusal::Conflict
                }),
            },
            Err(BeginAsRefusal::NoSuchCall) => Err(OpRefusal::Stale),
            Err(BeginAsRefusal::Committed) => Err(OpRefusal::Stale),
            Err(BeginAsRefusal::Passed) => Err(OpRefusal::Stale),
            Err(BeginAsRefusal::NoMemory) => Err(OpRefusal::NoMemory),
        }
    }

    /// Makes the room for one level more of an attempt that lives here, so that the next `enter` of it takes no memory. What is seen stays.
    ///
    /// # Errors
    ///
    /// Stale just where the attempt does not live here; else memory was refused.
    pub fn make_room(&mut self, call: u32, number: u64) -> Result<(), EnterRefusal>
        ensures stale { (result ≡ Err EnterRefusal.Stale) ↔ IsStale self.old.book call number }
        ensures same { self.new ≡ self.old }
    {
        let Some(ticket) = ticket_of(&self.book, call, number) else {
            return Err(EnterRefusal::Stale);
        };
        self.book.make_room(&ticket)
    }

    /// Enters a level of an attempt that lives here, with the room for the mark that closes it. A refusal changes nothing.
    ///
    /// # Errors
    ///
    /// Stale just where the attempt does not live here; else memory was refused.
    pub fn enter(&mut self, call: u32, number: u64) -> Result<(), EnterRefusal>
        ensures ok { OnOk result (EnterDone self.old.book self.new.book call number) }
        ensures positions { self.new.positions ≡ self.old.positions }
        ensures stale { (result ≡ Err EnterRefusal.Stale) ↔ IsStale self.old.book call number }
        ensures err { OnErr result (self.new ≡ self.old) }
    {
        let Some(ticket) = ticket_of(&self.book, call, number) else {
            return Err(EnterRefusal::Stale);
        };
        self.book.enter(&ticket)
    }

    /// Leaves the innermost level of an attempt that lives here, for which it takes no memory: its changes here stand, or are taken back, last first. Its locks
    /// are held on. A refusal changes nothing.
    ///
    /// # Errors
    ///
    /// Stale just where the attempt does not live here; NotEntered just where it has entered no level here that it has not left.
    pub fn leave(&mut self, call: u32, number: u64, keep: bool) -> Result<(), LeaveRefusal>
        ensures ok { OnOk result (LeaveDone self.old.book self.new.book call number keep) }
        ensures positions { self.new.positions ≡ self.old.positions }
        ensures stale { (result ≡ Err LeaveRefusal.Stale) ↔ IsStale self.old.book call number }
        ensures not_entered { (result ≡ Err LeaveRefusal.NotEntered) ↔ IsNotEntered self.old.book call number }
        ensures err { OnErr result (self.new ≡ self.old) }
    {
        let Some(ticket) = ticket_of(&self.book, call, number) else {
            return Err(LeaveRefusal::Stale);
        };
        self.book.leave(&ticket, keep)
    }

    /// Undoes a live attempt, for which it takes no memory. An attempt that does not live here changes nothing.
    pub fn undo(&mut self, call: u32, number: u64)
        ensures stale { IsStale self.old.book call number → self.new ≡ self.old }
        ensures done { IsStale self.old.book call number ⊎ UndoDone self.old.book self.new.book call number }
        ensures positions { self.new.positions ≡ self.old.positions }
    {
        let Some(ticket) = ticket_of(&self.book, call, number) else {
            return;
        };
        self.book.undo(ticket);
    }

    /// Whether an attempt lives here with a shard's part of a run's trace.
    ///
    /// # Errors
    ///
    /// Stale just where it does not live here, Differs just where it has done other operations or got other replies. Takes no memory.
    pub fn look(
        &self,
        call: u32,
        number: u64,
        trace: &[TraceStep],
        shard: u32,
        shards: u32,
    ) -> Result<(), CommitRefusal>
        requires { 0 < shards }
        ensures stale { (result ≡ Err CommitRefusal.Stale) ↔ IsStale self.now.book call number }
        ensures differs { (result ≡ Err CommitRefusal.Differs) ↔ IsOther self.now.book call number (part (shard_of shards) shard trace.now) }
        ensures memory { result ≢ Err CommitRefusal.NoMemory }
    {
        self.book.use_invariant();
        let Some(ticket) = ticket_of(&self.book, call, number) else {
            return Err(CommitRefusal::Stale);
        };
        let Some(own) = self.book.trace_of(&ticket) else {
            unreachable!();
        };
        if !is_part(own, trace, shard, shards) {
            return Err(CommitRefusal::Differs);
        }
        Ok(())
    }

    /// Commits a live attempt with the trace that the book kept, whose entry stands at this position of the journal. Takes no memory, and a refusal changes
    /// nothing.
    ///
    /// # Errors
    ///
    /// Stale just where the attempt does not live here; else Position just where the position is not above that of the last entry here.
    pub fn end(
        &mut self,
        call: u32,
        number: u64,
        outcome: Outcome,
        position: u32,
    ) -> Result<(), EndRefusal>
        ensures ok { OnOk result ((trace : List TraceStep) × CommitDone self.old.book self.new.book call number trace outcome (length self.old.book.entries)) }
        ensures positions { OnOk result (self.new.positions ≡ self.old.positions ++ position ∷ []) }
        ensures stale { (result ≡ Err EndRefusal.Stale) ↔ IsStale self.old.book call number }
        ensures position { (result ≡ Err EndRefusal.Position) ↔ (¬ (IsStale self.old.book call number) × ¬ (IsNext self.old.positions position)) }
        ensures err { OnErr result (self.new ≡ self.old) }
    {
        let Some(ticket) = ticket_of(&self.book, call, number) else {
            return Err(EndRefusal::Stale);
        };
        if !is_next(&self.positions, position) {
            return Err(EndRefusal::Position);
        }
        match self.book.end(ticket, outcome) {
            Ok(_) => (),
            Err(_) => unreachable!(),
        }
        match self.positions.push(position) {
            Ok(()) => Ok(()),
            Err(_) => unreachable!(),
        }
    }

    /// How many attempts of a call were begun, by their numbers: one more than the last number. None where the shard has no such call.
    pub fn begun_of(&self, call: u32) -> Option<u64>
        ensures { result ≡ slice_get self.now.book.begun call }
    {
        self.book.begun_of(call)
    }

    /// What the type keeps: what that of its book does, and that the positions are those of the entries and rise.
    pub fn use_invariant(&self)
        ensures entries { EntriesAreSerialRun self.now.book }
        ensures cells { CellsAreSettledButForHolders self.now.book }
        ensures replies { LiveTracesGetReplies self.now.book }
        ensures modes { LiveAttemptsGoTogether self.now.book }
        ensures positions { IsShard self.now }
    {
        self.book.use_invariant();
        let _positions = &self.positions;
    }

    /// What is left of the shard once every live attempt is undone.
    pub fn close(self) -> Part<A>
        ensures opening { result.opening ≡ self.book.opening }
        ensures entries { result.entries ≡ self.book.entries }
    {
        let Shard { book, positions: _ } = self;
        Part::of(book)
    }
}
