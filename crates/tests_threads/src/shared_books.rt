// Threads that share a book, and really meet in it.
use crate::assertions::{equal, holds};
use crate::waiting::{LOOKS, hold};
use boost::book::{
    BeginRefusal, Book, Closed, CommitRefusal, EnterRefusal, LeaveRefusal, OpRefusal, Run, Ticket,
};
use shards::SharedBook;
use spec_ledger::{CellKey, Kind, Lock, Mode, Op, Outcome, Reply, TraceStep};
use std::alloc::Global;
use std::process::Abort;
use std::sync::Wait;
use std::sync::atomic::{AtomicU64, Ordering};
use std::test::Fail;
use std::thread;
use std::thread::Threads;
use storage::Cells;
use wtypes::TrapCode;

/// How many threads work at once, and how many calls they have.
const WORKERS: usize = 4;

const CALLS: u32 = 160;

const TRAPPED: Outcome = Outcome::Trapped(TrapCode::Unreachable);

/// A map cell that many calls read and put.
const HOT: CellKey = CellKey {
    contract: 0,
    key: 1_000,
};

/// A map cell of call 0 alone, and one of call 1.
const OWN_0: CellKey = CellKey {
    contract: 0,
    key: 0,
};

const OWN_1: CellKey = CellKey {
    contract: 0,
    key: 1,
};

/// A counter that all calls add to.
const SUM: CellKey = CellKey {
    contract: 0,
    key: 7,
};

fn cell(kind: Kind, place: CellKey) -> Lock {
    Lock {
        contract: place.contract,
        kind,
        key: place.key,
    }
}

fn returned(trace: &[TraceStep]) -> Run<'_> {
    Run {
        trace,
        outcome: Outcome::Returned(None),
    }
}

const TOTAL_OF_100: TraceStep = TraceStep::Did(Op::Total(SUM), Reply::I64(100));

const ADDED_3: TraceStep = TraceStep::Did(Op::Add(SUM, 3), Reply::Nothing);

const ADDED_5: TraceStep = TraceStep::Did(Op::Add(SUM, 5), Reply::Nothing);

const ADDED_20: TraceStep = TraceStep::Did(Op::Add(SUM, 20), Reply::Nothing);

/// A call that looks at the counter, adds to it in a level that is dropped, and looks again.
const LEVELS: &[TraceStep] = &[
    TOTAL_OF_100,
    TraceStep::Opened,
    ADDED_20,
    TraceStep::Opened,
    TraceStep::Kept,
    TraceStep::Dropped,
    TOTAL_OF_100,
    TraceStep::Opened,
    TraceStep::Kept,
];

/// What is asked of a book for a call.
#[derive(Clone, Copy)]
enum Asked {
    Begin,
    Do(Op),
    Enter,
    Leave(bool),
    Undo,
    Commit(&'static [TraceStep]),
}

/// What a book answers.
#[derive(Clone, Copy, PartialEq)]
enum Answer {
    Begun(Result<(), BeginRefusal>),
    Did(Result<Reply, OpRefusal>),
    Entered(Result<(), EnterRefusal>),
    Left(Result<(), LeaveRefusal>),
    Undone,
    Committed(Result<u32, CommitRefusal>),
}

/// Begins an attempt. Its ticket comes into the hand.
fn begun<R: Wait>(rt: &R, book: &SharedBook<'_>, hand: &mut Option<Ticket>, call: u32) -> Answer {
    match book.begin(rt, call) {
        Ok(ticket) => {
            *hand = Some(ticket);
            Answer::Begun(Ok(()))
        }
        Err(refusal) => Answer::Begun(Err(refusal)),
    }
}

/// Commits with the ticket in the hand, to which it comes back where that is refused. None where there is none.
fn committed<R: Wait>(
    rt: &R,
    book: &SharedBook<'_>,
    hand: &mut Option<Ticket>,
    trace: &[TraceStep],
) -> Option<Result<u32, CommitRefusal>> {
    match book.commit(rt, hand.take()?, &returned(trace)) {
        Ok(position) => Some(Ok(position)),
        Err((ticket, refusal)) => {
            *hand = Some(ticket);
            Some(Err(refusal))
        }
    }
}

/// What a book answers to a call. None where it has no ticket.
fn answered<R: Wait>(
    rt: &R,
    book: &SharedBook<'_>,
    hand: &mut Option<Ticket>,
    call: u32,
    asked: Asked,
) -> Option<Answer> {
    match asked {
        Asked::Begin => return Some(begun(rt, book, hand, call)),
        Asked::Commit(trace) => {
            return Some(Answer::Committed(committed(rt, book, hand, trace)?));
        }
        Asked::Undo => {
            book.undo(rt, hand.take()?);
            return Some(Answer::Undone);
        }
        _ => {}
    }
    let Some(ticket) = hand else {
        return None;
    };
    match asked {
        Asked::Do(op) => Some(Answer::Did(book.op(rt, ticket, op))),
        Asked::Enter => Some(Answer::Entered(book.enter(rt, ticket))),
        Asked::Leave(keep) => Some(Answer::Left(book.leave(rt, ticket, keep))),
        _ => None,
    }
}

const BEGUN: Answer = Answer::Begun(Ok(()));

const NO_SUCH_CALL: Answer = Answer::Begun(Err(BeginRefusal::NoSuchCall));

const LIVE: Answer = Answer::Begun(Err(BeginRefusal::Live));

const COMMITTED: Answer = Answer::Begun(Err(BeginRefusal::Committed));

const DONE: Answer = Answer::Did(Ok(Reply::Nothing));

const IS_100: Answer = Answer::Did(Ok(Reply::I64(100)));

const CONFLICT: Answer = Answer::Did(Err(OpRefusal::Conflict));

const STALE_OP: Answer = Answer::Did(Err(OpRefusal::Stale));

const ENTERED: Answer = Answer::Entered(Ok(()));

const STALE_ENTRY: Answer = Answer::Entered(Err(EnterRefusal::Stale));

const LEFT: Answer = Answer::Left(Ok(()));

const NOT_ENTERED: Answer = Answer::Left(Err(LeaveRefusal::NotEntered));

const STALE_EXIT: Answer = Answer::Left(Err(LeaveRefusal::Stale));

const IS_FIRST: Answer = Answer::Committed(Ok(0));

const DIFFERS: Answer = Answer::Committed(Err(CommitRefusal::Differs));

const STALE_COMMIT: Answer = Answer::Committed(Err(CommitRefusal::Stale));

const TOTAL: Asked = Asked::Do(Op::Total(SUM));

const ADD_3: Asked = Asked::Do(Op::Add(SUM, 3));

const ADD_5: Asked = Asked::Do(Op::Add(SUM, 5));

const ADD_20: Asked = Asked::Do(Op::Add(SUM, 20));

/// Which of two books is asked what, for which call, one after another, and what is answered.
const SCRIPT: &[(bool, u32, Asked, Answer)] = &[
    (true, 2, Asked::Begin, NO_SUCH_CALL),
    (true, 0, Asked::Begin, BEGUN),
    (true, 0, Asked::Begin, LIVE),
    (false, 0, TOTAL, STALE_OP),
    (true, 0, ADD_5, DONE),
    (true, 1, Asked::Begin, BEGUN),
    (true, 1, TOTAL, CONFLICT),
    (true, 0, Asked::Undo, Answer::Undone),
    (true, 1, TOTAL, IS_100),
    (true, 1, Asked::Leave(true), NOT_ENTERED),
    (true, 1, Asked::Enter, ENTERED),
    (false, 1, Asked::Enter, STALE_ENTRY),
    (false, 1, Asked::Leave(false), STALE_EXIT),
    (true, 1, ADD_20, DONE),
    (true, 1, Asked::Enter, ENTERED),
    (true, 1, Asked::Leave(true), LEFT),
    (true, 1, Asked::Leave(false), LEFT),
    (true, 1, TOTAL, IS_100),
    (true, 1, Asked::Enter, ENTERED),
    (true, 1, Asked::Leave(true), LEFT),
    (true, 1, Asked::Leave(false), NOT_ENTERED),
    (true, 1, Asked::Commit(&[TOTAL_OF_100]), DIFFERS),
    (false, 1, Asked::Commit(&[]), STALE_COMMIT),
    (true, 1, Asked::Commit(LEVELS), IS_FIRST),
    (true, 1, Asked::Begin, COMMITTED),
];

/// The first row of the script that two books answer otherwise.
fn first_other<R: Wait>(rt: &R, book: &SharedBook<'_>, other: &SharedBook<'_>) -> Option<usize> {
    let mut first = None;
    let mut second = None;
    for (row, (is_first, call, asked, expected)) in SCRIPT.iter().enumerate() {
        let hand = if *call == 0 { &mut first } else { &mut second };
        let answer = if *is_first {
            answered(rt, book, hand, *call, *asked)
        } else {
            answered(rt, other, hand, *call, *asked)
        };
        if answer != Some(*expected) {
            return Some(row);
        }
    }
    None
}

/// Whether the counter has 100 before and after the one call of a book.
fn has_100_throughout(closed: &Closed) -> bool {
    closed.entries.len() == 1
        && closed.opening.get(cell(Kind::Counter, SUM)) == Some(100)
        && closed.cells.get(cell(Kind::Counter, SUM)) == Some(100)
}

/// The first row of the script that a book of two calls with 100 in a counter, and an empty one, answer otherwise; and whether they are left as they have
/// to be.
fn played<R: Wait>(rt: &R, alloc: Global) -> Result<(Option<usize>, bool), Fail> {
    let mut opening = Cells::new(alloc);
    opening.insert(cell(Kind::Counter, SUM), 100)?;
    let empty = Cells::new(alloc);
    let book = SharedBook::open(alloc, &opening, 2)?;
    let other = SharedBook::open(alloc, &empty, 2)?;
    let row = first_other(rt, &book, &other);
    let is_left = has_100_throughout(&book.close()?) && other.close()?.entries.is_empty();
    Ok((row, is_left))
}

#[test]
fn each_call_and_each_refusal_through_the_lock(rt: HostRuntime) -> Result<(), Fail> {
    let played = played(&rt, rt.alloc())?;
    equal(
        &rt,
        &"the first other row, and what is left",
        &played,
        &(None, true),
    );
    Ok(())
}

/// What a thread does with its call beside another one, before it commits it.
#[derive(Clone, Copy)]
enum Act {
    /// It asks the book, and is answered so.
    Asks(Asked, Answer),
    /// It tells that it has come this far.
    Tells,
    /// It is held until so many were told.
    Waits(u64),
}

/// A thread's call: what it does, one after another, and the trace that it is committed with. It then tells that it was.
type Part = (&'static [Act], &'static [TraceStep]);

/// Two threads that work in one book at once.
struct Meeting {
    name: &'static str,
    /// What the counter begins with.
    opening: Option<u64>,
    /// What the threads of call 0 and of call 1 do.
    first: Part,
    second: Part,
    /// Whether call 0 is committed first. Else either may be.
    in_order: bool,
    /// How each call holds the counter, where this is said.
    mode: Option<Mode>,
    /// What the counter and the hot cell hold in the end.
    sum: Option<u64>,
    hot: Option<u64>,
}

const PUT_0: Op = Op::Put(OWN_0, 9);

const PUT_1: Op = Op::Put(OWN_1, 9);

const PUT_HOT: Op = Op::Put(HOT, 9);

const BEGINS: Act = Act::Asks(Asked::Begin, BEGUN);

const ADDS_5: Act = Act::Asks(ADD_5, DONE);

const READS_9: Answer = Answer::Did(Ok(Reply::I64(9)));

const MEETINGS: &[Meeting] = &[
    // each puts its own cell, adds to the common counter, and commits when two attempts have come this far
    Meeting {
        name: "two attempts are live at once",
        opening: None,
        first: (
            &[
                BEGINS,
                Act::Asks(Asked::Do(PUT_0), DONE),
                ADDS_5,
                Act::Tells,
                Act::Waits(2),
            ],
            &[TraceStep::Did(PUT_0, Reply::Nothing), ADDED_5],
        ),
        second: (
            &[
                BEGINS,
                Act::Asks(Asked::Do(PUT_1), DONE),
                ADDS_5,
                Act::Tells,
                Act::Waits(2),
            ],
            &[TraceStep::Did(PUT_1, Reply::Nothing), ADDED_5],
        ),
        in_order: false,
        mode: None,
        sum: Some(10),
        hot: None,
    },
    // one adds in a level, and drops it when the other one has added to the same counter: it takes its own back alone
    Meeting {
        name: "a level is dropped beside an adder",
        opening: Some(100),
        first: (
            &[
                BEGINS,
                ADDS_5,
                Act::Asks(Asked::Enter, ENTERED),
                Act::Asks(ADD_20, DONE),
                Act::Tells,
                Act::Waits(2),
                Act::Asks(Asked::Leave(false), LEFT),
                Act::Tells,
            ],
            &[ADDED_5, TraceStep::Opened, ADDED_20, TraceStep::Dropped],
        ),
        second: (
            &[
                BEGINS,
                Act::Waits(1),
                Act::Asks(ADD_3, DONE),
                Act::Tells,
                Act::Waits(3),
            ],
            &[ADDED_3],
        ),
        in_order: false,
        mode: Some(Mode::Add),
        sum: Some(108),
        hot: None,
    },
    // one holds a cell until the other was refused there, which is undone, and reads the cell when the first was committed
    Meeting {
        name: "a call is refused while another lives",
        opening: None,
        first: (
            &[
                BEGINS,
                Act::Asks(Asked::Do(PUT_HOT), DONE),
                Act::Tells,
                Act::Waits(2),
            ],
            &[TraceStep::Did(PUT_HOT, Reply::Nothing)],
        ),
        second: (
            &[
                BEGINS,
                ADDS_5,
                Act::Waits(1),
                Act::Asks(Asked::Do(Op::Get(HOT)), CONFLICT),
                Act::Asks(Asked::Undo, Answer::Undone),
                Act::Tells,
                Act::Waits(3),
                BEGINS,
                Act::Asks(Asked::Do(Op::Get(HOT)), READS_9),
            ],
            &[TraceStep::Did(Op::Get(HOT), Reply::I64(9))],
        ),
        in_order: true,
        mode: None,
        sum: None,
        hot: Some(9),
    },
];

/// Whether an act goes as it has to.
fn goes<R: Wait>(
    rt: &R,
    book: &SharedBook<'_>,
    told: &AtomicU64,
    hand: &mut Option<Ticket>,
    call: u32,
    act: Act,
) -> bool {
    match act {
        Act::Asks(asked, answer) => answered(rt, book, hand, call, asked) == Some(answer),
        Act::Tells => {
            told.fetch_add(1, Ordering::SeqCst);
            true
        }
        Act::Waits(count) => hold(told, count, LOOKS),
    }
}

/// Does the part of a thread in the meeting of this number, and answers the position of its call. None where something goes otherwise.
fn does<R: Wait>(
    rt: &R,
    book: &SharedBook<'_>,
    told: &AtomicU64,
    call: u32,
    number: usize,
) -> Option<u32> {
    let meeting = MEETINGS.get(number)?;
    let (acts, trace) = if call == 0 {
        meeting.first
    } else {
        meeting.second
    };
    let mut hand = None;
    for act in acts {
        if !goes(rt, book, told, &mut hand, call, *act) {
            return None;
        }
    }
    let position = committed(rt, book, &mut hand, trace)?.ok()?;
    told.fetch_add(1, Ordering::SeqCst);
    Some(position)
}

/// Whether the calls of a meeting have their positions.
fn has_positions(meeting: &Meeting, positions: (Option<u32>, Option<u32>)) -> bool {
    positions == (Some(0), Some(1)) || !meeting.in_order && positions == (Some(1), Some(0))
}

/// Whether a meeting leaves so.
fn is_left(closed: &Closed, meeting: &Meeting) -> bool {
    let counter = cell(Kind::Counter, SUM);
    closed.entries.len() == 2
        && closed.entries.iter().all(|entry| meeting.mode.is_none()
            || entry.mode(counter) == meeting.mode)
        && closed.cells.get(counter) == meeting.sum
        && closed.cells.get(cell(Kind::Map, HOT)) == meeting.hot
}

/// Whether two threads that meet, by the meeting of this number, come to what they have to.
fn meet<R: Threads + Wait + Sync>(
    rt: &R,
    alloc: Global,
    number: usize,
    meeting: &Meeting,
) -> Result<bool, Fail> {
    let mut cells = Cells::new(alloc);
    if let Some(sum) = meeting.opening {
        if sum == 0 {
            return Err(Fail::from("a counter of 0"));
        }
        cells.insert(cell(Kind::Counter, SUM), sum)?;
    }
    let book = SharedBook::open(alloc, &cells, 2)?;
    let told = AtomicU64::new(0);
    let positions = thread::join(
        rt,
        || does(rt, &book, &told, 0, number),
        || does(rt, &book, &told, 1, number),
    );
    let closed = book.close()?;
    Ok(has_positions(meeting, positions) && is_left(&closed, meeting))
}

/// Two threads come to what they have to in each meeting.
fn all_meet<R: Threads + Wait + Sync + Abort>(
    rt: &R,
    alloc: Global,
    meetings: &[Meeting],
) -> Result<(), Fail> {
    for (number, meeting) in meetings.iter().enumerate() {
        holds(rt, &meeting.name, meet(rt, alloc, number, meeting)?);
    }
    Ok(())
}

#[test]
fn calls_of_two_threads_meet(rt: HostRuntime) -> Result<(), Fail> {
    all_meet(&rt, rt.alloc(), MEETINGS)
}

/// A call that was committed: where, which, and what its operations were answered.
#[derive(Clone, Copy)]
struct Done {
    position: u32,
    call: u32,
    replies: [Reply; 4],
}

/// What a call does: a cell of its own and the common counter, and of every third call also the hot cell.
fn ops(call: u32) -> [Op; 4] {
    let number = u64::from(call);
    let own = CellKey {
        contract: 0,
        key: number,
    };
    let (read, put) = if call % 3 == 0 {
        (HOT, HOT)
    } else {
        (own, own)
    };
    [
        Op::Add(SUM, number),
        Op::Has(own),
        Op::Get(read),
        Op::Put(put, number),
    ]
}

/// Every fifth call traps.
fn outcome(call: u32) -> Outcome {
    if call % 5 == 0 {
        TRAPPED
    } else {
        Outcome::Returned(None)
    }
}

/// What a call did that was answered so.
fn trace(call: u32, replies: [Reply; 4]) -> [TraceStep; 4] {
    let [add, has, get, put] = ops(call);
    let [added, had, got, done] = replies;
    [
        TraceStep::Did(add, added),
        TraceStep::Did(has, had),
        TraceStep::Did(get, got),
        TraceStep::Did(put, done),
    ]
}

/// What a live attempt is answered, or None where one is refused. Other threads may come in between two operations.
fn replies<R: Wait>(
    rt: &R,
    book: &SharedBook<'_>,
    ticket: &Ticket,
    call: u32,
) -> Option<[Reply; 4]> {
    let [add, has, get, put] = ops(call);
    let added = book.op(rt, ticket, add).ok()?;
    thread::yield_now();
    let had = book.op(rt, ticket, has).ok()?;
    thread::yield_now();
    let got = book.op(rt, ticket, get).ok()?;
    thread::yield_now();
    let done = book.op(rt, ticket, put).ok()?;
    thread::yield_now();
    Some([added, had, got, done])
}

/// Tries a call until it is committed.
fn commit_at_last<R: Wait>(rt: &R, book: &SharedBook<'_>, call: u32) -> Option<Done> {
    for _ in 0..LOOKS {
        let ticket = book.begin(rt, call).ok()?;
        let Some(replies) = replies(rt, book, &ticket, call) else {
            book.undo(rt, ticket);
            thread::yield_now();
            continue;
        };
        let run = Run {
            trace: &trace(call, replies),
            outcome: outcome(call),
        };
        let position = book.commit(rt, ticket, &run).ok()?;
        return Some(Done {
            position,
            call,
            replies,
        });
    }
    None
}

/// Commits a worker's share of the calls, once every worker is there.
fn work<R: Wait>(
    rt: &R,
    alloc: Global,
    book: &SharedBook<'_>,
    told: &AtomicU64,
    worker: usize,
) -> Option<Vec<Done>> {
    told.fetch_add(1, Ordering::SeqCst);
    if !hold(told, WORKERS as u64, LOOKS) {
        return None;
    }
    let mut done = Vec::new(alloc);
    for call in 0..CALLS {
        if call as usize % WORKERS == worker {
            done.push(commit_at_last(rt, book, call)?).ok()?;
        }
    }
    Some(done)
}

/// The call of a position.
fn done_at(parts: &[Option<Vec<Done>>], position: u32) -> Option<Done> {
    for part in parts {
        if let Some(done) = part {
            for one in done.iter() {
                if one.position == position {
                    return Some(*one);
                }
            }
        }
    }
    None
}

/// Whether a call gets its replies and its position again, where the calls before it were done.
fn comes_again(book: &mut Book, done: Done) -> Option<bool> {
    let ticket = book.begin(done.call).ok()?;
    for op in ops(done.call) {
        book.op(&ticket, op).ok()?;
    }
    let run = Run {
        trace: &trace(done.call, done.replies),
        outcome: outcome(done.call),
    };
    Some(book.commit(ticket, &run).ok()? == done.position)
}

/// The cells after these calls, one after another in one thread, each of which has to get its replies again.
fn replayed(alloc: Global, parts: &[Option<Vec<Done>>]) -> Result<Cells, Fail> {
    let mut book = Book::open(alloc, Cells::new(alloc), CALLS)?;
    for position in 0..CALLS {
        let Some(done) = done_at(parts, position) else {
            return Err(Fail::from("no call was committed at a position"));
        };
        if comes_again(&mut book, done) != Some(true) {
            return Err(Fail::from("a call got other replies"));
        }
    }
    Ok(book.close().cells)
}

/// Whether the calls of many threads come to the same one after another.
fn has_one_order<R: Threads + Wait + Sync>(rt: &R, alloc: Global) -> Result<bool, Fail> {
    let cells = Cells::new(alloc);
    let book = SharedBook::open(alloc, &cells, CALLS)?;
    let told = AtomicU64::new(0);
    let parts = thread::map_indices(
        rt,
        alloc,
        WORKERS,
        &|worker| work(rt, alloc, &book, &told, worker),
    )?;
    let closed = book.close()?;
    let alone = replayed(alloc, parts.as_slice())?;
    // 0 + 1 + .. + 159 less the multiples of 5, which trapped
    Ok(
        parts.iter().all(Option::is_some)
            && closed.entries.len() == 160
            && closed.cells.get(cell(Kind::Counter, SUM)) == Some(10_240)
            && closed.cells.entries().eq(alone.entries()),
    )
}

#[test]
fn the_calls_of_many_threads_have_one_order(rt: HostRuntime) -> Result<(), Fail> {
    holds(&rt, &"one order", has_one_order(&rt, rt.alloc())?);
    Ok(())
}
