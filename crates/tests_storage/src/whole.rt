// A book of one piece, which answers a script as the book in shards.
use crate::books::{Act, Answer, Came, Script, cell, cells_of, closed, is_left};
use boost::attempt::CommittedCall;
use boost::book::{Book, Closed, Run, Ticket};
use spec_ledger::Kind;
use std::alloc::Global;
use std::sync::Wait;
use storage::Cells;

/// Commits with the ticket in the hand, to which it comes back where that is refused. None where there is none.
fn committed(book: &mut Book, hand: &mut Option<Ticket>, run: &Run<'_>) -> Option<Answer> {
    match book.commit(hand.take()?, run) {
        Ok(position) => Some(Answer::Commit(Ok(position))),
        Err((ticket, refusal)) => {
            *hand = Some(ticket);
            Some(Answer::Commit(Err(refusal)))
        }
    }
}

/// As [`committed`], of another book.
fn committed_elsewhere(alloc: Global, hand: &mut Option<Ticket>, run: &Run<'_>) -> Option<Answer> {
    let mut book = Book::open(alloc, Cells::new(alloc), 2).ok()?;
    committed(&mut book, hand, run)
}

/// Leaves a level of another book.
fn left_elsewhere(alloc: Global, ticket: &Ticket, keep: bool) -> Option<Answer> {
    let mut book = Book::open(alloc, Cells::new(alloc), 2).ok()?;
    Some(Answer::Leave(book.leave(ticket, keep)))
}

/// Begins an attempt. Its ticket comes into the hand.
fn begun(book: &mut Book, hand: &mut Option<Ticket>, call: u32) -> Answer {
    match book.begin(call) {
        Ok(ticket) => {
            let number = ticket.number();
            *hand = Some(ticket);
            Answer::Begin(Ok(number))
        }
        Err(refusal) => Answer::Begin(Err(refusal)),
    }
}

/// What the book answers to a call. None where it has no ticket.
fn answered(
    alloc: Global,
    book: &mut Book,
    hand: &mut Option<Ticket>,
    call: u32,
    act: Act,
) -> Option<Answer> {
    match act {
        Act::Begin => return Some(begun(book, hand, call)),
        Act::Commit(trace, outcome) => return committed(book, hand, &Run { trace, outcome }),
        Act::CommitElsewhere(trace, outcome) => {
            return committed_elsewhere(alloc, hand, &Run { trace, outcome });
        }
        Act::Undo => {
            book.undo(hand.take()?);
            return Some(Answer::Undone);
        }
        _ => {}
    }
    let Some(ticket) = hand else {
        return None;
    };
    match act {
        Act::Op(op) => Some(Answer::Op(book.op(ticket, op))),
        Act::Enter => Some(Answer::Enter(book.enter(ticket))),
        Act::Leave(keep) => Some(Answer::Leave(book.leave(ticket, keep))),
        Act::LeaveElsewhere(keep) => left_elsewhere(alloc, ticket, keep),
        _ => None,
    }
}

/// The first row that the book answers otherwise.
fn first_other(alloc: Global, book: &mut Book, rows: &[(u32, Act, Answer)]) -> Option<usize> {
    let mut first = None;
    let mut second = None;
    for (row, (call, act, expected)) in rows.iter().enumerate() {
        let hand = if *call == 0 { &mut first } else { &mut second };
        if answered(alloc, book, hand, *call, *act) != Some(*expected) {
            return Some(row);
        }
    }
    None
}

/// What the book comes to with the rows of a script.
fn closed_whole(alloc: Global, script: &Script) -> Result<Closed, Came> {
    let Ok(cells) = cells_of(alloc, script.opening) else {
        return Err(Came::NoMemory);
    };
    let Ok(mut book) = Book::open(alloc, cells, 2) else {
        return Err(Came::NoMemory);
    };
    match first_other(alloc, &mut book, script.rows) {
        Some(row) => Err(Came::Otherwise(row)),
        None => Ok(book.close()),
    }
}

/// Whether two entries are the same.
fn are_same(a: &CommittedCall, b: &CommittedCall) -> bool {
    a.call() == b.call() && a.has_trace(b.trace()) && a.outcome() == b.outcome()
}

/// Whether two books are left alike.
fn are_left_alike(a: &Closed, b: &Closed) -> bool {
    for (one, other) in a.entries.iter().zip(b.entries.iter()) {
        if !are_same(one, other) {
            return false;
        }
    }
    for key in 0..8u64 {
        for kind in &[Kind::Map, Kind::Counter] {
            let lock = cell(*kind, key);
            if a.cells.get(lock) != b.cells.get(lock) {
                return false;
            }
        }
    }
    a.entries.len() == b.entries.len()
}

/// What comes of a script over a book in shards, and over one of one piece, if it comes to the same.
fn both_closed<R: Wait>(rt: &R, alloc: Global, shards: u32, script: &Script) -> Result<bool, Came> {
    let in_shards = closed(rt, alloc, shards, script, false)?;
    let whole = closed_whole(alloc, script)?;
    Ok(is_left(&in_shards, script) && are_left_alike(&in_shards, &whole))
}

/// What comes of a script over both books.
pub(crate) fn played<R: Wait>(rt: &R, alloc: Global, shards: u32, script: &Script) -> Came {
    match both_closed(rt, alloc, shards, script) {
        Ok(true) => Came::AsSaid,
        Ok(false) => Came::OtherEnd,
        Err(came) => came,
    }
}
