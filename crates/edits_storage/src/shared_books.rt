//! The shared book.

ghost use Rattle.std.specs.Prelude.{◌≡◌, ◌≤◌, Err, IfOk, length};
ghost use Rattle.spec_ledger.specs.Book.{call_is_new};
ghost use Rattle.spec_ledger.specs.Events.{BeginDone, HasNoAttempt, IsConflict, IsStale, OpDone};
ghost use Rattle.shards.specs.SharedBookTaking.{Happened, HoldsOfTheBook};

use boost::book::{BeginRefusal, OpRefusal, Ticket};
use shards::SharedBook;
use spec_ledger::{Op, Reply};
use std::alloc::Allocator;
use std::sync::Wait;

/// As [`shared_book::SharedBook::begin`].
pub fn begin<A: Allocator + Copy>(
    book: &SharedBook<'_, A>,
    rt: &impl Wait,
    call: u32,
) -> Result<Ticket, BeginRefusal>
    ensures call { IfOk result (λ ticket. ticket.call ≡ call) }
    ensures ok { IfOk result (λ ticket. Happened (λ old new. BeginDone old new call ticket.number)) }
    ensures no_such_call { result ≡ Err BeginRefusal.NoSuchCall → HoldsOfTheBook (λ book. length book.begun ≤ call) }
    ensures live { result ≡ Err BeginRefusal.Live → HoldsOfTheBook (λ book. ¬ (HasNoAttempt call book.attempts)) }
    ensures committed { result ≡ Err BeginRefusal.Committed → HoldsOfTheBook (λ book. ¬ (call_is_new call book.entries)) }
{
    book.begin(rt, call)
}

/// As [`shared_book::SharedBook::op`].
pub fn op<A: Allocator + Copy>(
    book: &SharedBook<'_, A>,
    rt: &impl Wait,
    ticket: &Ticket,
    op: Op,
) -> Result<Reply, OpRefusal>
    ensures ok { IfOk result (λ reply. Happened (λ old new. OpDone old new ticket.now.call ticket.now.number op reply)) }
    ensures conflict { result ≡ Err OpRefusal.Conflict → HoldsOfTheBook (λ book. IsConflict book ticket.now.call ticket.now.number op) }
    ensures stale { result ≡ Err OpRefusal.Stale → HoldsOfTheBook (λ book. IsStale book ticket.now.call ticket.now.number) }
{
    book.op(rt, ticket, op)
}
