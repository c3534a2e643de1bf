//! The book.

ghost use Rattle.std.specs.Prelude.{◌≡◌, ◌≢◌, ◌↔◌, IfOk, OnOk, OnErr, Err, IfErr, [], replicate};
ghost use Rattle.spec_ledger.specs.Events.{IsStale, OpDone, IsConflict, LeaveDone, IsNotEntered, CommitDone, IsOther};

use boost::book::{Book, CommitRefusal, LeaveRefusal, OpRefusal, Run, Ticket};
use spec_ledger::{NoMemory, Op, Reply};
use std::alloc::Allocator;
use storage::Cells;

/// As [`Book::open`].
pub fn open<A: Allocator + Copy>(
    alloc: A,
    opening: Cells<A>,
    calls: u32,
) -> Result<Book<A>, NoMemory>
    ensures opening { IfOk result (λ book. book.opening ≡ opening.cells) }
    ensures now { IfOk result (λ book. book.now ≡ opening.cells) }
    ensures entries { IfOk result (λ book. book.entries ≡ []) }
    ensures attempts { IfOk result (λ book. book.attempts ≡ []) }
    ensures begun { IfOk result (λ book. book.begun ≡ replicate calls 0) }
{
    Book::open(alloc, opening, calls)
}

/// As [`Book::op`].
pub fn op<A: Allocator + Copy>(
    book: &mut Book<A>,
    ticket: &Ticket,
    op: Op,
) -> Result<Reply, OpRefusal>
    ensures ok { IfOk result (λ reply. OpDone book.old book.new ticket.now.call ticket.now.number op reply) }
    ensures conflict { (result ≡ Err OpRefusal.Conflict) ↔ IsConflict book.old ticket.now.call ticket.now.number op }
    ensures stale { (result ≡ Err OpRefusal.Stale) ↔ IsStale book.old ticket.now.call ticket.now.number }
    ensures err { OnErr result (book.new ≡ book.old) }
{
    book.op(ticket, op)
}

/// As [`Book::leave`].
pub fn leave<A: Allocator + Copy>(
    book: &mut Book<A>,
    ticket: &Ticket,
    keep: bool,
) -> Result<(), LeaveRefusal>
    ensures ok { OnOk result (LeaveDone book.old book.new ticket.now.call ticket.now.number keep) }
    ensures stale { (result ≡ Err LeaveRefusal.Stale) ↔ IsStale book.old ticket.now.call ticket.now.number }
    ensures not_entered { (result ≡ Err LeaveRefusal.NotEntered) ↔ IsNotEntered book.old ticket.now.call ticket.now.number }
    ensures err { OnErr result (book.new ≡ book.old) }
{
    book.leave(ticket, keep)
}

/// As [`Book::commit`].
pub fn commit<A: Allocator + Copy>(
    book: &mut Book<A>,
    ticket: Ticket,
    run: &Run<'_>,
) -> Result<u32, (Ticket, CommitRefusal)>
    ensures ok { IfOk result (λ position. CommitDone book.old book.new ticket.call ticket.number run.now.trace.now run.now.outcome position) }
    ensures stale { IfErr result (λ e. (e.1 ≡ CommitRefusal.Stale) ↔ IsStale book.old ticket.call ticket.number) }
    ensures differs { IfErr result (λ e. (e.1 ≡ CommitRefusal.Differs) ↔ IsOther book.old ticket.call ticket.number run.now.trace.now) }
    ensures memory { IfErr result (λ e. e.1 ≢ CommitRefusal.NoMemory) }
    ensures ticket { IfErr result (λ e. e.0 ≡ ticket) }
    ensures err { OnErr result (book.new ≡ book.old) }
{
    book.commit(ticket, run)
}
