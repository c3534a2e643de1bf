// What two shards leave is one book, or is refused where one of them did other things than the journal says.
use crate::assertions::holds;
use crate::books::{RETURNED, TRAPPED, adding, at, cell};
use boost::attempt::CommittedCall;
use boost::book::{Closed, OpRefusal};
use sharding::{CloseRefusal, Part, Shard, close};
use spec_ledger::{Kind, Op, TraceStep};
use std::alloc::Global;
use std::test::Fail;
use storage::{Cells, NoMemory};

/// What a shard does other than the journal says.
#[derive(Clone, Copy)]
enum Lie {
    /// Nothing.
    None,
    /// It undoes an attempt in place of its end.
    Undone,
    /// It ends an attempt with another outcome.
    Outcome,
    /// It ends two attempts in the other order.
    Order,
    /// It did another operation.
    Operation,
    /// It has an entry of a call that the journal lacks.
    More,
}

fn add(shard: &mut Shard, call: u32, key: u64, value: u64) -> Result<(), OpRefusal> {
    shard.op(call, 0, Op::Add(at(key), value))?;
    Ok(())
}

/// Shard 0, of the even keys, in which call 0 adds.
fn even(alloc: Global, lie: Lie) -> Result<Part, Fail> {
    let mut shard = Shard::open(alloc, Cells::new(alloc), 3)?;
    let value = if matches!(lie, Lie::Operation) { 6 } else { 5 };
    add(&mut shard, 0, 8, value)?;
    let outcome = if matches!(lie, Lie::Outcome) {
        TRAPPED
    } else {
        RETURNED
    };
    if matches!(lie, Lie::Undone) {
        shard.undo(0, 0);
    } else {
        shard.end(0, 0, outcome, 0)?;
    }
    if matches!(lie, Lie::More) {
        add(&mut shard, 2, 10, 1)?;
        shard.end(2, 0, RETURNED, 2)?;
    }
    Ok(shard.close())
}

/// Shard 1, of the odd keys, in which both calls add to one counter.
fn odd(alloc: Global, lie: Lie) -> Result<Part, Fail> {
    let mut shard = Shard::open(alloc, Cells::new(alloc), 3)?;
    add(&mut shard, 0, 7, 5)?;
    add(&mut shard, 1, 7, 3)?;
    let (first, second) = if matches!(lie, Lie::Order) {
        (1, 0)
    } else {
        (0, 1)
    };
    shard.end(first, 0, RETURNED, 0)?;
    shard.end(second, 0, RETURNED, 1)?;
    Ok(shard.close())
}

/// These steps, as a list.
fn listed(alloc: Global, steps: &[TraceStep]) -> Result<Vec<TraceStep>, NoMemory> {
    let mut list = Vec::new(alloc);
    for step in steps {
        list.push(*step)?;
    }
    Ok(list)
}

/// What both shards are put together to.
fn put_together(alloc: Global, lie: Lie) -> Result<Result<Closed, CloseRefusal>, Fail> {
    let mut entries = Vec::new(alloc);
    let first = listed(alloc, &[adding(7, 5), adding(8, 5)])?;
    entries.push(CommittedCall::of(0, first, RETURNED))?;
    let second = listed(alloc, &[adding(7, 3)])?;
    entries.push(CommittedCall::of(1, second, RETURNED))?;
    let mut parts = Vec::new(alloc);
    parts.push(even(alloc, lie)?)?;
    parts.push(odd(alloc, lie)?)?;
    if parts.is_empty() || parts.len() > 2 {
        return Err(Fail::from("outside the conditions"));
    }
    Ok(close(alloc, Cells::new(alloc), entries, &parts))
}

/// Whether both shards are one book where none lies, and are refused where one does.
fn is_told(alloc: Global, lie: Lie) -> Result<bool, Fail> {
    let lies = !matches!(lie, Lie::None);
    match put_together(alloc, lie)? {
        Ok(closed) => Ok(
            !lies
                && closed.cells.get(cell(Kind::Counter, 7)) == Some(8)
                && closed.cells.get(cell(Kind::Counter, 8)) == Some(5),
        ),
        Err(refusal) => Ok(lies && refusal == CloseRefusal::Differs),
    }
}

const LIES: &[Lie] = &[
    Lie::None,
    Lie::Undone,
    Lie::Outcome,
    Lie::Order,
    Lie::Operation,
    Lie::More,
];

#[test]
fn a_shard_that_lies_is_told(rt: HostRuntime) -> Result<(), Fail> {
    for (row, lie) in LIES.iter().enumerate() {
        let is_told = is_told(rt.alloc(), *lie)?;
        holds(&rt, &row, is_told);
    }
    Ok(())
}
