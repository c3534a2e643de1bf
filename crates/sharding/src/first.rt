// The first operation of an attempt in a shard.
ghost use Rattle.std.specs.Prelude.{◌≡◌, ◌≢◌, ◌+◌, ◌≤◌, ◌↔◌, [], IfOk, OnOk, OnErr, Err, length, slice_index, vec_capacity, vec_len};
ghost use Rattle.spec_ledger.specs.Book.{Content};
ghost use Rattle.spec_ledger.specs.Events.{IsConflict, OpDone};
ghost use Rattle.spec_ledger.specs.Modes.{ops_of};
ghost use Rattle.boost.specs.AttemptNumbers.{BegunAs, BegunWith};

use boost::book::{Book, OpRefusal, Ticket};
use spec_ledger::{Op, Reply, TraceStep};
use std::alloc::Allocator;

/// Makes these marks of levels in the attempt that was begun last, and does its first operation. A refusal changes nothing.
fn marked_op<A: Allocator + Copy>(
    book: &mut Book<A>,
    ticket: &Ticket,
    marks: &[TraceStep],
    op: Op,
) -> Result<Reply, OpRefusal>
    requires newest { (former : Content) × BegunAs former book.old ticket.now.call ticket.now.number }
    requires marks { ops_of marks.now ≡ [] }
    ensures ok { IfOk result (λ reply. (former : Content) → BegunAs former book.old ticket.now.call ticket.now.number → (ready : Content) × BegunWith former ready ticket.now.call ticket.now.number marks.now × OpDone ready book.new ticket.now.call ticket.now.number op reply) }
    ensures live { OnOk result (length book.new.attempts ≡ length book.old.attempts) }
    ensures conflict { result ≢ Err OpRefusal.NoMemory → (former : Content) → BegunAs former book.old ticket.now.call ticket.now.number → (result ≡ Err OpRefusal.Conflict) ↔ ((ready : Content) × BegunWith former ready ticket.now.call ticket.now.number marks.now × IsConflict ready ticket.now.call ticket.now.number op) }
    ensures stale { result ≢ Err OpRefusal.Stale }
    ensures err { OnErr result (book.new ≡ book.old) }
{
    match book.mark(ticket, marks) {
        Ok(()) => (),
        Err(_) => return Err(OpRefusal::NoMemory),
    }
    match book.op(ticket, op) {
        Ok(reply) => Ok(reply),
        Err(refusal) => {
            book.unmark(ticket);
            Err(refusal)
        }
    }
}

/// The first operation of an attempt that was begun last, after these marks of levels, and the room for its position. Where it is refused, the begin is taken
/// back, given how many attempts of the call were begun before.
pub(crate) fn first_op<A: Allocator + Copy>(
    book: &mut Book<A>,
    positions: &mut Vec<u32, A>,
    ticket: Ticket,
    count: u64,
    marks: &[TraceStep],
    op: Op,
) -> Result<Reply, OpRefusal>
    requires newest { (former : Content) × BegunAs former book.old ticket.call ticket.number × (slice_index former.begun ticket.call ≡ count) }
    requires marks { ops_of marks.now ≡ [] }
    ensures ok { IfOk result (λ reply. (former : Content) → BegunAs former book.old ticket.call ticket.number → (ready : Content) × BegunWith former ready ticket.call ticket.number marks.now × OpDone ready book.new ticket.call ticket.number op reply) }
    ensures room { OnOk result (vec_len positions.new + length book.new.attempts ≤ vec_capacity positions.new) }
    ensures positions { positions.new.items ≡ positions.old.items }
    ensures capacity { vec_capacity positions.old ≤ vec_capacity positions.new }
    ensures conflict { result ≢ Err OpRefusal.NoMemory → (former : Content) → BegunAs former book.old ticket.call ticket.number → (result ≡ Err OpRefusal.Conflict) ↔ ((ready : Content) × BegunWith former ready ticket.call ticket.number marks.now × IsConflict ready ticket.call ticket.number op) }
    ensures stale { result ≢ Err OpRefusal.Stale }
    ensures err { OnErr result ((former : Content) → BegunAs former book.old ticket.call ticket.number → slice_index former.begun ticket.call ≡ count → book.new ≡ former) }
{
    if positions.reserve(book.live_count()).is_err() {
        return match book.unbegin(ticket, count) {
            Ok(()) => Err(OpRefusal::NoMemory),
            Err(_) => unreachable!(),
        };
    }
    match marked_op(book, &ticket, marks, op) {
        Ok(reply) => Ok(reply),
        Err(refusal) => match book.unbegin(ticket, count) {
            Ok(()) => Err(refusal),
            Err(_) => unreachable!(),
        },
    }
}
