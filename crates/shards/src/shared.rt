// The book behind a lock.
ghost use Rattle.std.specs.Prelude.{◌≡◌, ◌≤◌, ◌⊎◌, Err, IfOk, IfErr, OnOk, length};
ghost use Rattle.std.specs.FinMap as finite;
ghost use Rattle.std.specs.List.{AllByRecursion};
ghost use Rattle.spec_ledger.specs.Book.{AreDistinct, Content, IsDefined, call_is_new, settled};
ghost use Rattle.spec_ledger.specs.Events.{BeginDone, CommitDone, EnterDone, HasNoAttempt, IsConflict, IsNotEntered, IsOther, IsStale, LeaveDone, OpDone, UndoDone};
ghost use Rattle.spec_ledger.specs.Modes.{touched};
ghost use Rattle.shards.specs.SharedBookTaking.{Happened, HoldsOfTheBook, IsLawful};

use boost::book::{
    BeginRefusal, Book, Closed, CommitRefusal, EnterRefusal, LeaveRefusal, OpRefusal, Run, Ticket,
};
use spec_ledger::{Op, Reply};
use std::alloc::{Allocator, Global};
use std::marker::Model;
use std::sync::{Mutex, Wait};
use storage::{Cells, NoMemory};
use thiserror::Error;

/// The book under the lock began with other cells than the shared book. No call of this crate puts such a book there.
#[derive(Clone, Copy, Debug, PartialEq, Eq, Error)]
#[error("the book under the lock began with other cells")]
pub struct OtherBook;

/// A book that threads share. Each call takes the lock, is one event of the book, and lets the lock go. Contracts see it as the cells that it was opened with, which are lent to it.
///
/// Whenever the lock is taken, the book has all that its type keeps, whatever other threads did. No more is known of it: no fact passes from one taking of the lock to the next. So a clause speaks of the book as the call found it, and none says which book that was. That it began with the cells that the shared book was opened with is therefore looked at when it is closed.
#[derive(Drop)]
pub struct SharedBook<'c, A: Allocator = Global> {
    opening: &'c Cells<A>,
    book: Mutex<Book<A>>,
}

impl<'c, A: Allocator> Model for SharedBook<'c, A> {
    ghost use Rattle.spec_ledger.specs.Cells.{Cells as TheCells};
    ghost use Rattle.spec_ledger.specs.Codes.{coded_cells};

    ghost Value = { TheCells };

    ghost coded = { coded_cells };

    ghost view = { λ b. b.opening.now.cells };
}

/// What is known of the book that was found under the lock.
fn look<A: Allocator + Copy>(book: &Book<A>)
    ensures { IsLawful book.now }
{
    book.use_invariant();
}

impl<'c, A: Allocator + Copy> SharedBook<'c, A> {
    /// A book of this many calls, with no entry and no attempt, over a copy of the opening cells.
    ///
    /// # Errors
    ///
    /// Memory was refused.
    pub fn open(alloc: A, cells: &'c Cells<A>, calls: u32) -> Result<Self, NoMemory>
        ensures opening { IfOk result (λ book. book ≡ cells.now.cells) }
    {
        let book = Book::open(alloc, cells.copy(alloc)?, calls)?;
        Ok(SharedBook {
            opening: cells,
            book: Mutex::new(book),
        })
    }

    /// Begins an attempt of a call. A refusal changes nothing.
    pub fn begin(&self, rt: &impl Wait, call: u32) -> Result<Ticket, BeginRefusal>
        ensures call { IfOk result (λ ticket. ticket.call ≡ call) }
        ensures ok { IfOk result (λ ticket. Happened (λ old new. BeginDone old new call ticket.number)) }
        ensures no_such_call { result ≡ Err BeginRefusal.NoSuchCall → HoldsOfTheBook (λ book. length book.begun ≤ call) }
        ensures live { result ≡ Err BeginRefusal.Live → HoldsOfTheBook (λ book. ¬ (HasNoAttempt call book.attempts)) }
        ensures committed { result ≡ Err BeginRefusal.Committed → HoldsOfTheBook (λ book. ¬ (call_is_new call book.entries)) }
    {
        let mut book = self.book.lock(rt);
        look(&book);
        book.begin(call)
    }

    /// Does an operation for a live attempt. A refusal changes nothing.
    pub fn op(&self, rt: &impl Wait, ticket: &Ticket, op: Op) -> Result<Reply, OpRefusal>
        ensures ok { IfOk result (λ reply. Happened (λ old new. OpDone old new ticket.now.call ticket.now.number op reply)) }
        ensures conflict { result ≡ Err OpRefusal.Conflict → HoldsOfTheBook (λ book. IsConflict book ticket.now.call ticket.now.number op) }
        ensures stale { result ≡ Err OpRefusal.Stale → HoldsOfTheBook (λ book. IsStale book ticket.now.call ticket.now.number) }
    {
        let mut book = self.book.lock(rt);
        look(&book);
        book.op(ticket, op)
    }

    /// Enters a level of a live attempt, and makes the room for the mark that closes it. A refusal changes nothing.
    pub fn enter(&self, rt: &impl Wait, ticket: &Ticket) -> Result<(), EnterRefusal>
        ensures ok { OnOk result (Happened (λ old new. EnterDone old new ticket.now.call ticket.now.number)) }
        ensures stale { result ≡ Err EnterRefusal.Stale → HoldsOfTheBook (λ book. IsStale book ticket.now.call ticket.now.number) }
    {
        let mut book = self.book.lock(rt);
        look(&book);
        book.enter(ticket)
    }

    /// Leaves the innermost level of a live attempt, for which it takes no memory: its changes stand, or are taken back, last first. Its locks are held on. A refusal changes nothing.
    pub fn leave(&self, rt: &impl Wait, ticket: &Ticket, keep: bool) -> Result<(), LeaveRefusal>
        ensures ok { OnOk result (Happened (λ old new. LeaveDone old new ticket.now.call ticket.now.number keep)) }
        ensures stale { result ≡ Err LeaveRefusal.Stale → HoldsOfTheBook (λ book. IsStale book ticket.now.call ticket.now.number) }
        ensures not_entered { result ≡ Err LeaveRefusal.NotEntered → HoldsOfTheBook (λ book. IsNotEntered book ticket.now.call ticket.now.number) }
    {
        let mut book = self.book.lock(rt);
        look(&book);
        book.leave(ticket, keep)
    }

    /// Undoes a live attempt, for which it takes no memory. A stale ticket changes nothing.
    pub fn undo(&self, rt: &impl Wait, ticket: Ticket)
        ensures { HoldsOfTheBook (λ old. IsStale old ticket.call ticket.number ⊎ ((new : Content) × UndoDone old new ticket.call ticket.number)) }
    {
        let mut book = self.book.lock(rt);
        look(&book);
        book.undo(ticket);
    }

    /// Commits a live attempt, whose trace is that of the run, and answers its position. A refusal changes nothing, and hands the ticket back.
    pub fn commit(
        &self,
        rt: &impl Wait,
        ticket: Ticket,
        run: &Run<'_>,
    ) -> Result<u32, (Ticket, CommitRefusal)>
        ensures ok { IfOk result (λ position. Happened (λ old new. CommitDone old new ticket.call ticket.number run.now.trace.now run.now.outcome position)) }
        ensures stale { IfErr result (λ e. e.1 ≡ CommitRefusal.Stale → HoldsOfTheBook (λ book. IsStale book ticket.call ticket.number)) }
        ensures differs { IfErr result (λ e. e.1 ≡ CommitRefusal.Differs → HoldsOfTheBook (λ book. IsOther book ticket.call ticket.number run.now.trace.now)) }
        ensures ticket { IfErr result (λ e. e.0 ≡ ticket) }
    {
        let mut book = self.book.lock(rt);
        look(&book);
        book.commit(ticket, run)
    }

    /// The opening cells, the entries, and the cells after every live call is undone. The entries are a serial run from the opening cells: each reply is the one that its operation gives at that point, no call has two entries, and the cells are those that the entries leave.
    ///
    /// # Errors
    ///
    /// The book under the lock began with other cells. No call puts such a book there, which no clause can say, since no fact passes a lock.
    pub fn close(self) -> Result<Closed<A>, OtherBook>
        ensures opening { IfOk result (λ closed. closed.opening.cells ≡ self.entry) }
        ensures replies { IfOk result (λ closed. IsDefined closed.opening.cells closed.entries.items) }
        ensures distinct { IfOk result (λ closed. AreDistinct closed.entries.items) }
        ensures modes { IfOk result (λ closed. AllByRecursion (λ e. e.modes ≡ touched e.trace) closed.entries.items) }
        ensures cells { IfOk result (λ closed. closed.cells.cells ≡ settled closed.opening.cells closed.entries.items) }
        ensures settled { IfOk result (λ closed. closed.cells.unsettled ≡ finite.empty) }
    {
        let SharedBook { opening, book } = self;
        let book = book.into_inner();
        book.use_invariant();
        let closed = book.close();
        if !closed.opening.has_cells_of(opening) {
            return Err(OtherBook);
        }
        Ok(closed)
    }
}
