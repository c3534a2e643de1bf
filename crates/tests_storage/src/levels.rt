// Leaving a level takes no memory. Here an allocator gives so many blocks and refuses all after them, for each number of blocks until none is
// refused: operations in a level, and levels in it, are done as far as there is memory, and each level that was entered is left.
use boost::book::{Book, EnterRefusal, LeaveRefusal, OpRefusal, Ticket};
use spec_ledger::{CellKey, Kind, Lock, Op};
use std::alloc::{Allocator, Global};
use storage::Cells;
use test_support::Ration;

/// More blocks than anything here takes.
const AMPLE: u64 = 1_000;

/// How many operations are tried in each level: more than a trace has room for at first.
const OPS: u64 = 12;

/// How deep levels are entered.
const DEPTH: usize = 6;

const SEVEN: CellKey = CellKey {
    contract: 0,
    key: 7,
};

const COUNTER_SEVEN: Lock = Lock {
    contract: 0,
    kind: Kind::Counter,
    key: 7,
};

/// How a try with so many blocks ended.
#[derive(Clone, Copy, Debug, PartialEq, Eq)]
enum Tried {
    /// Memory was refused before a level was entered.
    NotEntered,
    /// Memory was refused in a level, and each level was left.
    Refused,
    /// No memory was refused, and each level was left.
    Done,
    /// A refusal was none of memory, or a level was not left, or its changes were not taken back.
    Wrong,
}

/// Does an operation. None where something else than memory is refused; else whether memory was.
fn lacks_memory<A: Allocator + Copy>(book: &mut Book<A>, ticket: &Ticket, op: Op) -> Option<bool> {
    match book.op(ticket, op) {
        Ok(_) => Some(false),
        Err(OpRefusal::NoMemory) => Some(true),
        Err(_) => None,
    }
}

/// Does operations until memory is refused. None where something else is refused; else whether memory was.
fn act<A: Allocator + Copy>(book: &mut Book<A>, ticket: &Ticket) -> Option<bool> {
    for key in 0..OPS {
        let place = CellKey { contract: 0, key };
        if lacks_memory(book, ticket, Op::Put(place, key))?
            || lacks_memory(book, ticket, Op::Add(SEVEN, 1))?
        {
            return Some(true);
        }
    }
    Some(false)
}

/// Enters levels, does operations in each, and answers how many were entered and whether memory was refused.
fn descend<A: Allocator + Copy>(book: &mut Book<A>, ticket: &Ticket) -> Option<(usize, bool)> {
    let mut refused = false;
    for depth in 0..DEPTH {
        match book.enter(ticket) {
            Ok(()) => (),
            Err(EnterRefusal::NoMemory) => return Some((depth, true)),
            Err(EnterRefusal::Stale) => return None,
        }
        refused = act(book, ticket)? || refused;
    }
    Some((DEPTH, refused))
}

/// Leaves so many levels, the last of them without its changes, and every second one of the others with them. Then none is open.
fn ascend<A: Allocator + Copy>(book: &mut Book<A>, ticket: &Ticket, entered: usize) -> bool {
    for depth in 1..entered {
        if book.leave(ticket, depth % 2 == 0).is_err() {
            return false;
        }
    }
    book.leave(ticket, false).is_ok() && book.leave(ticket, false) == Err(LeaveRefusal::NotEntered)
}

/// Enters levels and leaves them, in a call that has added 5.
fn entered_and_left<A: Allocator + Copy>(book: &mut Book<A>, ticket: &Ticket) -> Tried {
    let Some((entered, refused)) = descend(book, ticket) else {
        return Tried::Wrong;
    };
    if entered == 0 {
        return Tried::NotEntered;
    }
    if !ascend(book, ticket, entered) || book.cell(COUNTER_SEVEN) != Some(5) {
        return Tried::Wrong;
    }
    if refused { Tried::Refused } else { Tried::Done }
}

/// A call that adds 5, enters levels and leaves them, with so many blocks of memory.
fn end_of_try(heap: Global, blocks: u64) -> Tried {
    let ration = Ration::new(heap, blocks);
    let Ok(mut book) = Book::open(&ration, Cells::new(&ration), 1) else {
        return Tried::NotEntered;
    };
    let Ok(ticket) = book.begin(0) else {
        return Tried::NotEntered;
    };
    if book.op(&ticket, Op::Add(SEVEN, 5)).is_err() {
        return Tried::NotEntered;
    }
    entered_and_left(&mut book, &ticket)
}

/// How many tries were refused memory in a level, up to the first that was refused none. None where one went wrong.
fn refused_in_levels(heap: Global) -> Option<u64> {
    let mut refused = 0u64;
    for blocks in 0..AMPLE {
        match end_of_try(heap, blocks) {
            Tried::NotEntered => (),
            Tried::Refused => refused = refused.saturating_add(1),
            Tried::Done => return Some(refused),
            Tried::Wrong => return None,
        }
    }
    None
}

#[test]
fn a_level_is_left_where_every_growth_is_refused(rt: HostRuntime) {
    assert!(rt; matches!(refused_in_levels(rt.alloc()), Some(refused) if refused > 8));
}
