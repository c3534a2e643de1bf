// A script over a book in shards: what its calls ask for, what each is answered, and what is left in the end.
use boost::book::{
    BeginRefusal, Closed, CommitRefusal, EnterRefusal, LeaveRefusal, OpRefusal, Run,
};
use sharding::CloseRefusal;
use shards::{NoGate, Shards, Ticket};
use spec_ledger::{CellKey, Kind, Lock, Op, Outcome, Reply, TraceStep};
use std::alloc::Allocator;
use std::sync::Wait;
use storage::{Cells, NoMemory};
use wtypes::TrapCode;

/// How many shards are tried.
pub(crate) const COUNTS: [u32; 3] = [1, 2, 16];

pub(crate) const RETURNED: Outcome = Outcome::Returned(None);

pub(crate) const TRAPPED: Outcome = Outcome::Trapped(TrapCode::Unreachable);

/// A place of contract 0.
pub(crate) fn at(key: u64) -> CellKey {
    CellKey { contract: 0, key }
}

/// A cell of contract 0.
pub(crate) fn cell(kind: Kind, key: u64) -> Lock {
    Lock {
        contract: 0,
        kind,
        key,
    }
}

pub(crate) fn adding(key: u64, value: u64) -> TraceStep {
    TraceStep::Did(Op::Add(at(key), value), Reply::Nothing)
}

/// What a call asks for.
#[derive(Clone, Copy)]
pub(crate) enum Act {
    Begin,
    Op(Op),
    Enter,
    Leave(bool),
    Undo,
    Commit(&'static [TraceStep], Outcome),
    /// As `Commit`, of a book in which nothing was begun.
    CommitElsewhere(&'static [TraceStep], Outcome),
    /// As `Leave`, of a book in which nothing was begun.
    LeaveElsewhere(bool),
}

/// What it is answered.
#[derive(Clone, Copy, PartialEq)]
pub(crate) enum Answer {
    /// The number of the attempt.
    Begin(Result<u64, BeginRefusal>),
    Op(Result<Reply, OpRefusal>),
    Enter(Result<(), EnterRefusal>),
    Leave(Result<(), LeaveRefusal>),
    Undone,
    Commit(Result<u32, CommitRefusal>),
}

/// A script of two calls.
pub(crate) struct Script {
    /// The cells of contract 0 that the book is opened over.
    pub(crate) opening: &'static [(Kind, u64, u64)],
    /// By call what it asks for, and the answer.
    pub(crate) rows: &'static [(u32, Act, Answer)],
    /// What cells of contract 0 hold in the end.
    pub(crate) cells: &'static [(Kind, u64, Option<u64>)],
    /// How many calls are committed.
    pub(crate) entries: usize,
}

/// What comes of a script.
#[derive(Clone, Copy, Debug, PartialEq)]
pub(crate) enum Came {
    AsSaid,
    /// The first row that is answered otherwise.
    Otherwise(usize),
    /// Each row is answered so, and other things are left.
    OtherEnd,
    /// Memory was refused where nothing is done again.
    NoMemory,
}

/// These cells of contract 0.
pub(crate) fn cells_of<A: Allocator + Copy>(
    alloc: A,
    rows: &[(Kind, u64, u64)],
) -> Result<Cells<A>, NoMemory> {
    let mut cells = Cells::new(alloc);
    for (kind, key, number) in rows {
        if *number != 0 {
            cells.insert(cell(*kind, *key), *number)?;
        }
    }
    Ok(cells)
}

/// A book of two calls. None where memory was refused, or there is no book of so many shards.
fn opened<A: Allocator + Copy>(
    alloc: A,
    rows: &[(Kind, u64, u64)],
    shards: u32,
) -> Option<Shards<'static, NoGate, A>> {
    if shards < 1 || shards > 16 {
        return None;
    }
    let cells = cells_of(alloc, rows).ok()?;
    Shards::open(alloc, cells, 2, shards, &NoGate).ok()
}

/// Commits with the ticket in the hand, to which it comes back where that is refused. None where there is none.
fn committed<R: Wait, A: Allocator + Copy>(
    rt: &R,
    book: &Shards<'_, NoGate, A>,
    hand: &mut Option<Ticket<A>>,
    run: &Run<'_>,
) -> Option<Answer> {
    match book.commit(rt, hand.take()?, run) {
        Ok(position) => Some(Answer::Commit(Ok(position))),
        Err((ticket, refusal)) => {
            *hand = Some(ticket);
            Some(Answer::Commit(Err(refusal)))
        }
    }
}

/// As [`committed`], of another book, which is then closed with no entry. None where it has one.
fn committed_elsewhere<R: Wait, A: Allocator + Copy>(
    rt: &R,
    alloc: A,
    shards: u32,
    hand: &mut Option<Ticket<A>>,
    run: &Run<'_>,
) -> Option<Answer> {
    let book = opened(alloc, &[], shards)?;
    let answer = committed(rt, &book, hand, run);
    if book.close().ok()?.entries.is_empty() {
        answer
    } else {
        None
    }
}

/// Leaves a level of another book, which is then closed with no entry. None where it has one.
fn left_elsewhere<R: Wait, A: Allocator + Copy>(
    rt: &R,
    alloc: A,
    shards: u32,
    ticket: &mut Ticket<A>,
    keep: bool,
) -> Option<Answer> {
    let book = opened(alloc, &[], shards)?;
    let answer = Answer::Leave(book.leave(rt, ticket, keep));
    if book.close().ok()?.entries.is_empty() {
        Some(answer)
    } else {
        None
    }
}

/// Begins an attempt. Its ticket comes into the hand.
fn begun<R: Wait, A: Allocator + Copy>(
    rt: &R,
    book: &Shards<'_, NoGate, A>,
    hand: &mut Option<Ticket<A>>,
    call: u32,
) -> Answer {
    match book.begin(rt, call) {
        Ok(ticket) => {
            let number = ticket.number();
            *hand = Some(ticket);
            Answer::Begin(Ok(number))
        }
        Err(refusal) => Answer::Begin(Err(refusal)),
    }
}

/// What the book in shards answers to a call. None where it has no ticket.
fn answered<R: Wait, A: Allocator + Copy>(
    rt: &R,
    alloc: A,
    shards: u32,
    book: &Shards<'_, NoGate, A>,
    hand: &mut Option<Ticket<A>>,
    call: u32,
    act: Act,
) -> Option<Answer> {
    match act {
        Act::Begin => return Some(begun(rt, book, hand, call)),
        Act::Commit(trace, outcome) => return committed(rt, book, hand, &Run { trace, outcome }),
        Act::CommitElsewhere(trace, outcome) => {
            return committed_elsewhere(rt, alloc, shards, hand, &Run { trace, outcome });
        }
        Act::Undo => {
            book.undo(rt, hand.take()?);
            return Some(Answer::Undone);
        }
        _ => {}
    }
    let Some(ticket) = hand else {
        return None;
    };
    match act {
        Act::Op(op) => Some(Answer::Op(book.op(rt, ticket, op))),
        Act::Enter => Some(Answer::Enter(book.enter(rt, ticket))),
        Act::Leave(keep) => Some(Answer::Leave(book.leave(rt, ticket, keep))),
        Act::LeaveElsewhere(keep) => left_elsewhere(rt, alloc, shards, ticket, keep),
        _ => None,
    }
}

/// Whether memory was refused to what can be done again.
fn lacks_memory(answer: Option<Answer>) -> bool {
    matches!(
        answer,
        Some(
            Answer::Op(Err(OpRefusal::NoMemory))
                | Answer::Enter(Err(EnterRefusal::NoMemory))
                | Answer::Commit(Err(CommitRefusal::NoMemory))
        )
    )
}

/// The tickets of both calls.
#[derive(Drop)]
struct Hands<A: Allocator> {
    first: Option<Ticket<A>>,
    second: Option<Ticket<A>>,
}

/// The first row that the book in shards answers otherwise. What memory was refused to is asked for again if `again`.
fn first_other<R: Wait, A: Allocator + Copy>(
    rt: &R,
    alloc: A,
    shards: u32,
    book: &Shards<'_, NoGate, A>,
    hands: &mut Hands<A>,
    rows: &[(u32, Act, Answer)],
    again: bool,
) -> Option<usize> {
    for (row, (call, act, expected)) in rows.iter().enumerate() {
        let hand = if *call == 0 {
            &mut hands.first
        } else {
            &mut hands.second
        };
        let mut answer = answered(rt, alloc, shards, book, hand, *call, *act);
        if again && lacks_memory(answer) {
            answer = answered(rt, alloc, shards, book, hand, *call, *act);
        }
        if answer != Some(*expected) {
            return Some(row);
        }
    }
    None
}

/// What the book in shards comes to with the rows of a script.
pub(crate) fn closed<R: Wait, A: Allocator + Copy>(
    rt: &R,
    alloc: A,
    shards: u32,
    script: &Script,
    again: bool,
) -> Result<Closed<A>, Came> {
    let Some(book) = opened(alloc, script.opening, shards) else {
        return Err(Came::NoMemory);
    };
    let mut hands = Hands {
        first: None,
        second: None,
    };
    let other = first_other(rt, alloc, shards, &book, &mut hands, script.rows, again);
    if let Some(row) = other {
        return Err(Came::Otherwise(row));
    }
    match book.close() {
        Ok(closed) => Ok(closed),
        Err(CloseRefusal::NoMemory) => Err(Came::NoMemory),
        Err(CloseRefusal::Differs) => Err(Came::OtherEnd),
    }
}

/// Whether a script leaves so.
pub(crate) fn is_left<A: Allocator + Copy>(closed: &Closed<A>, script: &Script) -> bool {
    for (kind, key, number) in script.opening {
        if closed.opening.get(cell(*kind, *key)) != Some(*number) {
            return false;
        }
    }
    for (kind, key, number) in script.cells {
        if closed.cells.get(cell(*kind, *key)) != *number {
            return false;
        }
    }
    closed.entries.len() == script.entries
}

/// What comes of a script over a book in shards.
pub(crate) fn played<R: Wait, A: Allocator + Copy>(
    rt: &R,
    alloc: A,
    shards: u32,
    script: &Script,
    again: bool,
) -> Came {
    match closed(rt, alloc, shards, script, again) {
        Ok(closed) => {
            if is_left(&closed, script) {
                Came::AsSaid
            } else {
                Came::OtherEnd
            }
        }
        Err(came) => came,
    }
}
