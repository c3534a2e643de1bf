// Scripts of two calls over a book in 1, 2 and 16 shards, which answers as a book of one piece.
use crate::assertions::equal;
use crate::books::{Act, Answer, COUNTS, Came, RETURNED, Script, TRAPPED};
use crate::whole::played;
use boost::book::{BeginRefusal, CommitRefusal, LeaveRefusal, OpRefusal};
use spec_ledger::{CellKey, Kind, Op, Reply, TraceStep};
use std::alloc::Global;
use std::process::Abort;
use std::sync::Wait;
use std::test::Fail;

const ONE: CellKey = CellKey {
    contract: 0,
    key: 1,
};

const TWO: CellKey = CellKey {
    contract: 0,
    key: 2,
};

const THREE: CellKey = CellKey {
    contract: 0,
    key: 3,
};

const FOUR: CellKey = CellKey {
    contract: 0,
    key: 4,
};

const SEVEN: CellKey = CellKey {
    contract: 0,
    key: 7,
};

const EIGHT: CellKey = CellKey {
    contract: 0,
    key: 8,
};

const BEGUN: Answer = Answer::Begin(Ok(0));

const BEGUN_AGAIN: Answer = Answer::Begin(Ok(1));

const DONE: Answer = Answer::Op(Ok(Reply::Nothing));

const WAITS: Answer = Answer::Op(Err(OpRefusal::Conflict));

const ENTERED: Answer = Answer::Enter(Ok(()));

const LEFT: Answer = Answer::Leave(Ok(()));

const NOT_ENTERED: Answer = Answer::Leave(Err(LeaveRefusal::NotEntered));

const STALE_LEAVE: Answer = Answer::Leave(Err(LeaveRefusal::Stale));

const FIRST: Answer = Answer::Commit(Ok(0));

const SECOND: Answer = Answer::Commit(Ok(1));

const DIFFERS: Answer = Answer::Commit(Err(CommitRefusal::Differs));

const ADDED_2: TraceStep = TraceStep::Did(Op::Add(SEVEN, 2), Reply::Nothing);

const ADDED_5: TraceStep = TraceStep::Did(Op::Add(SEVEN, 5), Reply::Nothing);

const ADDED_8: TraceStep = TraceStep::Did(Op::Add(SEVEN, 8), Reply::Nothing);

const TOTAL_OF_100: TraceStep = TraceStep::Did(Op::Total(SEVEN), Reply::I64(100));

/// Two calls that add to one counter, of which the second is committed first.
const TWO_BUMPS: Script = Script {
    opening: &[(Kind::Counter, 7, 3)],
    rows: &[
        (0, Act::Begin, BEGUN),
        (1, Act::Begin, BEGUN),
        (0, Act::Op(Op::Add(SEVEN, 5)), DONE),
        (1, Act::Op(Op::Add(SEVEN, 8)), DONE),
        (1, Act::Commit(&[ADDED_8], RETURNED), FIRST),
        (0, Act::Commit(&[ADDED_5], RETURNED), SECOND),
    ],
    cells: &[(Kind::Counter, 7, Some(16))],
    entries: 2,
};

/// A call that fails and one that does not, which add to one counter at once and put a cell of their own. What the failed one changed is taken back.
const FAIL_AND_BUMP: Script = Script {
    opening: &[(Kind::Map, 1, 10)],
    rows: &[
        (0, Act::Begin, BEGUN),
        (1, Act::Begin, BEGUN),
        (0, Act::Op(Op::Add(SEVEN, 5)), DONE),
        (0, Act::Op(Op::Put(ONE, 9)), DONE),
        (1, Act::Op(Op::Add(SEVEN, 8)), DONE),
        (1, Act::Op(Op::Put(TWO, 4)), DONE),
        (
            0,
            Act::Commit(
                &[ADDED_5, TraceStep::Did(Op::Put(ONE, 9), Reply::Nothing)],
                TRAPPED,
            ),
            FIRST,
        ),
        (
            1,
            Act::Commit(
                &[ADDED_8, TraceStep::Did(Op::Put(TWO, 4), Reply::Nothing)],
                RETURNED,
            ),
            SECOND,
        ),
    ],
    cells: &[
        (Kind::Counter, 7, Some(8)),
        (Kind::Map, 1, Some(10)),
        (Kind::Map, 2, Some(4)),
    ],
    entries: 2,
};

/// A total that is refused while another call adds, and each refusal of the book.
const REFUSED_TOTAL: Script = Script {
    opening: &[(Kind::Counter, 7, 100)],
    rows: &[
        (0, Act::Begin, BEGUN),
        (0, Act::Begin, Answer::Begin(Err(BeginRefusal::Live))),
        (2, Act::Begin, Answer::Begin(Err(BeginRefusal::NoSuchCall))),
        (0, Act::Op(Op::Add(SEVEN, 5)), DONE),
        (1, Act::Begin, BEGUN),
        (1, Act::Op(Op::Total(SEVEN)), WAITS),
        (0, Act::Undo, Answer::Undone),
        (
            1,
            Act::Op(Op::Total(SEVEN)),
            Answer::Op(Ok(Reply::I64(100))),
        ),
        // too few steps, and too many
        (1, Act::Commit(&[], RETURNED), DIFFERS),
        (
            1,
            Act::Commit(
                &[TOTAL_OF_100, TraceStep::Did(Op::Get(EIGHT), Reply::I64(0))],
                RETURNED,
            ),
            DIFFERS,
        ),
        (
            1,
            Act::CommitElsewhere(&[TOTAL_OF_100], RETURNED),
            Answer::Commit(Err(CommitRefusal::Stale)),
        ),
        (1, Act::LeaveElsewhere(true), STALE_LEAVE),
        (1, Act::Commit(&[TOTAL_OF_100], RETURNED), FIRST),
        (1, Act::Begin, Answer::Begin(Err(BeginRefusal::Committed))),
        (0, Act::Begin, BEGUN_AGAIN),
        (0, Act::Undo, Answer::Undone),
    ],
    cells: &[(Kind::Counter, 7, Some(100))],
    entries: 1,
};

/// Two calls that move a number to the other's place: each is refused the put, and both are undone and run one after another.
const TWO_MOVERS: Script = Script {
    opening: &[(Kind::Map, 1, 10), (Kind::Map, 2, 20)],
    rows: &[
        (0, Act::Begin, BEGUN),
        (1, Act::Begin, BEGUN),
        (0, Act::Op(Op::Get(ONE)), Answer::Op(Ok(Reply::I64(10)))),
        (1, Act::Op(Op::Get(TWO)), Answer::Op(Ok(Reply::I64(20)))),
        (0, Act::Op(Op::Put(TWO, 10)), WAITS),
        (1, Act::Op(Op::Put(ONE, 20)), WAITS),
        (0, Act::Undo, Answer::Undone),
        (1, Act::Undo, Answer::Undone),
        (0, Act::Begin, BEGUN_AGAIN),
        (0, Act::Op(Op::Get(ONE)), Answer::Op(Ok(Reply::I64(10)))),
        (0, Act::Op(Op::Put(TWO, 10)), DONE),
        (
            0,
            Act::Commit(
                &[
                    TraceStep::Did(Op::Get(ONE), Reply::I64(10)),
                    TraceStep::Did(Op::Put(TWO, 10), Reply::Nothing),
                ],
                RETURNED,
            ),
            FIRST,
        ),
        (1, Act::Begin, BEGUN_AGAIN),
        (1, Act::Op(Op::Get(TWO)), Answer::Op(Ok(Reply::I64(10)))),
        (1, Act::Op(Op::Put(ONE, 10)), DONE),
        (
            1,
            Act::Commit(
                &[
                    TraceStep::Did(Op::Get(TWO), Reply::I64(10)),
                    TraceStep::Did(Op::Put(ONE, 10), Reply::Nothing),
                ],
                RETURNED,
            ),
            SECOND,
        ),
    ],
    cells: &[(Kind::Map, 1, Some(10)), (Kind::Map, 2, Some(10))],
    entries: 2,
};

/// What call 0 did in the rows of levels.
const OF_LEVELS: &[TraceStep] = &[
    ADDED_5,
    TraceStep::Opened,
    ADDED_2,
    TraceStep::Did(Op::Put(ONE, 9), Reply::Nothing),
    TraceStep::Opened,
    TraceStep::Did(Op::Put(TWO, 4), Reply::Nothing),
    TraceStep::Dropped,
    TraceStep::Did(Op::Get(TWO), Reply::I64(20)),
    TraceStep::Opened,
    TraceStep::Did(Op::Add(SEVEN, 32), Reply::Nothing),
    TraceStep::Kept,
    TraceStep::Kept,
];

/// And call 1.
const OF_OTHER_LEVELS: &[TraceStep] = &[
    ADDED_8,
    TraceStep::Did(Op::Add(SEVEN, 16), Reply::Nothing),
    TraceStep::Opened,
    TraceStep::Did(Op::Put(FOUR, 6), Reply::Nothing),
    TraceStep::Opened,
    TraceStep::Did(Op::Add(SEVEN, 64), Reply::Nothing),
    TraceStep::Kept,
    TraceStep::Dropped,
];

/// Levels of two calls.
const LEVELS: Script = Script {
    opening: &[(Kind::Counter, 7, 3), (Kind::Map, 2, 20)],
    rows: &[
        (0, Act::Begin, BEGUN),
        (1, Act::Begin, BEGUN),
        (0, Act::Leave(true), NOT_ENTERED),
        (0, Act::Leave(false), NOT_ENTERED),
        (1, Act::Op(Op::Add(SEVEN, 8)), DONE),
        (0, Act::Op(Op::Add(SEVEN, 5)), DONE),
        (0, Act::Enter, ENTERED),
        (0, Act::Op(Op::Add(SEVEN, 2)), DONE),
        // a shard that is first touched after a mark, where there are 16
        (0, Act::Op(Op::Put(ONE, 9)), DONE),
        (0, Act::Enter, ENTERED),
        // one that is first touched between two marks
        (0, Act::Op(Op::Put(TWO, 4)), DONE),
        (1, Act::Op(Op::Add(SEVEN, 16)), DONE),
        (0, Act::Leave(false), LEFT),
        (0, Act::Op(Op::Get(TWO)), Answer::Op(Ok(Reply::I64(20)))),
        // a dropped level holds its locks
        (1, Act::Op(Op::Get(TWO)), WAITS),
        (0, Act::Enter, ENTERED),
        (0, Act::Op(Op::Add(SEVEN, 32)), DONE),
        (0, Act::Leave(true), LEFT),
        (0, Act::Leave(true), LEFT),
        (0, Act::Leave(true), NOT_ENTERED),
        (1, Act::Enter, ENTERED),
        (1, Act::Op(Op::Put(FOUR, 6)), DONE),
        (1, Act::Enter, ENTERED),
        (1, Act::Op(Op::Add(SEVEN, 64)), DONE),
        (1, Act::Leave(true), LEFT),
        (1, Act::Leave(false), LEFT),
        (1, Act::Commit(OF_OTHER_LEVELS, RETURNED), FIRST),
        (0, Act::Commit(OF_LEVELS, RETURNED), SECOND),
    ],
    cells: &[
        (Kind::Counter, 7, Some(66)),
        (Kind::Map, 1, Some(9)),
        (Kind::Map, 2, Some(20)),
        (Kind::Map, 4, None),
    ],
    entries: 2,
};

/// The same, of which the call committed last fails.
const FAILED_LEVELS: Script = Script {
    opening: &[(Kind::Counter, 7, 3), (Kind::Map, 2, 20)],
    rows: &[
        (0, Act::Begin, BEGUN),
        (1, Act::Begin, BEGUN),
        (0, Act::Leave(true), NOT_ENTERED),
        (0, Act::Leave(false), NOT_ENTERED),
        (1, Act::Op(Op::Add(SEVEN, 8)), DONE),
        (0, Act::Op(Op::Add(SEVEN, 5)), DONE),
        (0, Act::Enter, ENTERED),
        (0, Act::Op(Op::Add(SEVEN, 2)), DONE),
        // a shard that is first touched after a mark, where there are 16
        (0, Act::Op(Op::Put(ONE, 9)), DONE),
        (0, Act::Enter, ENTERED),
        // one that is first touched between two marks
        (0, Act::Op(Op::Put(TWO, 4)), DONE),
        (1, Act::Op(Op::Add(SEVEN, 16)), DONE),
        (0, Act::Leave(false), LEFT),
        (0, Act::Op(Op::Get(TWO)), Answer::Op(Ok(Reply::I64(20)))),
        // a dropped level holds its locks
        (1, Act::Op(Op::Get(TWO)), WAITS),
        (0, Act::Enter, ENTERED),
        (0, Act::Op(Op::Add(SEVEN, 32)), DONE),
        (0, Act::Leave(true), LEFT),
        (0, Act::Leave(true), LEFT),
        (0, Act::Leave(true), NOT_ENTERED),
        (1, Act::Enter, ENTERED),
        (1, Act::Op(Op::Put(FOUR, 6)), DONE),
        (1, Act::Enter, ENTERED),
        (1, Act::Op(Op::Add(SEVEN, 64)), DONE),
        (1, Act::Leave(true), LEFT),
        (1, Act::Leave(false), LEFT),
        (1, Act::Commit(OF_OTHER_LEVELS, RETURNED), FIRST),
        (0, Act::Commit(OF_LEVELS, TRAPPED), SECOND),
    ],
    cells: &[
        (Kind::Counter, 7, Some(27)),
        (Kind::Map, 1, None),
        (Kind::Map, 2, Some(20)),
        (Kind::Map, 4, None),
    ],
    entries: 2,
};

/// Two calls with levels, one of which fails.
pub(crate) const GROWTHS: Script = Script {
    opening: &[(Kind::Map, 1, 10), (Kind::Counter, 7, 3)],
    rows: &[
        (0, Act::Begin, BEGUN),
        (0, Act::Op(Op::Add(SEVEN, 5)), DONE),
        (0, Act::Enter, ENTERED),
        (0, Act::Op(Op::Get(ONE)), Answer::Op(Ok(Reply::I64(10)))),
        (0, Act::Op(Op::Put(TWO, 9)), DONE),
        (0, Act::Enter, ENTERED),
        (0, Act::Op(Op::Put(FOUR, 6)), DONE),
        (0, Act::Leave(false), LEFT),
        (0, Act::Leave(true), LEFT),
        (1, Act::Begin, BEGUN),
        (1, Act::Op(Op::Add(SEVEN, 8)), DONE),
        (1, Act::Op(Op::Put(THREE, 4)), DONE),
        (
            1,
            Act::Commit(
                &[ADDED_8, TraceStep::Did(Op::Put(THREE, 4), Reply::Nothing)],
                TRAPPED,
            ),
            FIRST,
        ),
        (
            0,
            Act::Commit(
                &[
                    ADDED_5,
                    TraceStep::Opened,
                    TraceStep::Did(Op::Get(ONE), Reply::I64(10)),
                    TraceStep::Did(Op::Put(TWO, 9), Reply::Nothing),
                    TraceStep::Opened,
                    TraceStep::Did(Op::Put(FOUR, 6), Reply::Nothing),
                    TraceStep::Dropped,
                    TraceStep::Kept,
                ],
                RETURNED,
            ),
            SECOND,
        ),
    ],
    cells: &[
        (Kind::Counter, 7, Some(8)),
        (Kind::Map, 2, Some(9)),
        (Kind::Map, 3, None),
        (Kind::Map, 4, None),
    ],
    entries: 2,
};

/// A call that enters a level, leaves it and does no operation, and whose run has other marks at first.
const MARKS_ALONE: Script = Script {
    opening: &[(Kind::Map, 1, 10)],
    rows: &[
        (0, Act::Begin, BEGUN),
        (0, Act::LeaveElsewhere(false), STALE_LEAVE),
        (0, Act::Enter, ENTERED),
        (0, Act::LeaveElsewhere(false), STALE_LEAVE),
        (0, Act::Leave(true), LEFT),
        (0, Act::Commit(&[], RETURNED), DIFFERS),
        (0, Act::Commit(&[TraceStep::Kept], RETURNED), DIFFERS),
        (
            0,
            Act::Commit(&[TraceStep::Opened, TraceStep::Dropped], RETURNED),
            DIFFERS,
        ),
        (
            0,
            Act::Commit(
                &[
                    TraceStep::Opened,
                    TraceStep::Kept,
                    TraceStep::Opened,
                    TraceStep::Kept,
                ],
                RETURNED,
            ),
            DIFFERS,
        ),
        (
            0,
            Act::Commit(&[TraceStep::Opened, TraceStep::Kept], RETURNED),
            FIRST,
        ),
    ],
    cells: &[(Kind::Map, 1, Some(10))],
    entries: 1,
};

/// Each with what it is called.
const SCRIPTS: &[(&'static str, Script)] = &[
    ("two bumps", TWO_BUMPS),
    ("a call that fails and a bump", FAIL_AND_BUMP),
    ("a total that waits", REFUSED_TOTAL),
    ("two movers", TWO_MOVERS),
    ("levels", LEVELS),
    ("levels of a call that fails", FAILED_LEVELS),
    ("growths", GROWTHS),
    ("marks alone", MARKS_ALONE),
];

/// Ends the test where a script does not come to what it says, with any of these numbers of shards.
fn comes_as_said<R: Wait + Abort>(rt: &R, alloc: Global, name: &str, script: &Script) {
    for shards in &COUNTS {
        let came = played(rt, alloc, *shards, script);
        equal(rt, &(name, shards), &came, &Came::AsSaid);
    }
}

#[test]
fn each_script_is_that_of_a_book_of_one_piece(rt: HostRuntime) -> Result<(), Fail> {
    for (name, script) in SCRIPTS {
        comes_as_said(&rt, rt.alloc(), *name, script);
    }
    Ok(())
}
