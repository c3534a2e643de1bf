// Lanes of positions. That a position comes out no more often than it was put in is in their types; that one which a lane holds is found, and where
// it is looked for first, is shown here.
use crate::assertions::{equal, holds};
use lanes::{Lane, Thief, lanes};
use std::alloc::Global;
use std::process::Abort;
use std::sync::atomic::{AtomicU64, Ordering};
use std::test::Fail;
use std::thread;
use std::thread::Threads;

/// What is asked of a worker's lane or of its thief.
enum Asked {
    /// A position is put into the lane.
    Push(u32),
    /// The lane gives this position.
    Take(Option<u32>),
    /// The thief finds this position.
    Steal(Option<u32>),
}

/// What workers do, one after another. They are named by their places in the list of pairs.
struct Row {
    name: &'static str,
    workers: u32,
    asked: &'static [(usize, Asked)],
}

const ROWS: &[Row] = &[
    Row {
        name: "first in, first out at both ends",
        workers: 2,
        asked: &[
            (0, Asked::Push(5)),
            (0, Asked::Push(6)),
            (1, Asked::Steal(Some(5))),
            (0, Asked::Take(Some(6))),
            (0, Asked::Take(None)),
            (1, Asked::Steal(None)),
        ],
    },
    Row {
        name: "one worker has no other to steal from",
        workers: 1,
        asked: &[
            (0, Asked::Push(1)),
            (0, Asked::Steal(None)),
            (0, Asked::Take(Some(1))),
            (0, Asked::Take(None)),
        ],
    },
    Row {
        name: "a thief finds the positions of each other lane",
        workers: 3,
        asked: &[
            (0, Asked::Push(7)),
            (1, Asked::Push(8)),
            (2, Asked::Push(9)),
            (1, Asked::Steal(Some(7))),
            (1, Asked::Steal(Some(9))),
            (1, Asked::Steal(None)),
            (0, Asked::Steal(Some(8))),
            (2, Asked::Steal(None)),
        ],
    },
    Row {
        name: "the same position twice",
        workers: 2,
        asked: &[
            (0, Asked::Push(4)),
            (1, Asked::Push(4)),
            (0, Asked::Steal(Some(4))),
            (0, Asked::Take(Some(4))),
            (1, Asked::Take(None)),
        ],
    },
];

/// Whether a worker's lane and thief answer as they have to.
fn answers(pair: &mut (Lane, Thief), asked: &Asked) -> bool {
    let (lane, thief) = pair;
    match asked {
        Asked::Push(position) => lane.push(*position).is_ok(),
        Asked::Take(position) => lane.take() == *position,
        Asked::Steal(position) => thief.steal() == *position,
    }
}

/// Whether the worker at this place, which there has to be, answers as it has to.
fn answers_at(pairs: &mut [(Lane, Thief)], worker: usize, asked: &Asked) -> bool {
    match pairs.get_mut(worker) {
        Some(pair) => answers(pair, asked),
        None => false,
    }
}

/// Whether workers answer as they have to, one after another.
fn all_answer(pairs: &mut [(Lane, Thief)], asked: &[(usize, Asked)]) -> bool {
    for (worker, asked) in asked {
        if !answers_at(pairs, *worker, asked) {
            return false;
        }
    }
    true
}

/// Whether lanes answer as a row says.
fn is_as_said(alloc: Global, row: &Row) -> Result<bool, Fail> {
    let mut pairs = lanes(alloc, row.workers)?;
    Ok(all_answer(&mut pairs, row.asked))
}

/// Lanes answer as each row says.
fn are_as_said(rt: &impl Abort, alloc: Global, rows: &[Row]) -> Result<(), Fail> {
    for row in rows {
        holds(rt, &row.name, is_as_said(alloc, row)?);
    }
    Ok(())
}

#[test]
fn lanes_answer_as_said(rt: HostRuntime) -> Result<(), Fail> {
    are_as_said(&rt, rt.alloc(), ROWS)
}

/// How many positions the workers share: more than a lane has room for at first.
const SHARED: u32 = 1_000;

/// A position of the worker's own lane, and else of another.
fn find(lane: &mut Lane, thief: &mut Thief) -> Option<u32> {
    if let Some(position) = lane.take() {
        return Some(position);
    }
    thief.steal()
}

/// Takes and steals until so many were found by all, and gives the sum of those that it found.
fn find_all(pair: (Lane, Thief), found: &AtomicU64) -> u64 {
    let (mut lane, mut thief) = pair;
    let mut sum: u64 = 0;
    for _ in 0..u64::MAX {
        if found.load(Ordering::SeqCst) >= u64::from(SHARED) {
            break;
        }
        match find(&mut lane, &mut thief) {
            Some(position) => {
                sum = sum.wrapping_add(u64::from(position));
                found.fetch_add(1, Ordering::SeqCst);
            }
            None => thread::yield_now(),
        }
    }
    sum
}

/// Puts the shared positions into the first lane. Not so where there is none, or memory is refused.
fn fill_first(pairs: &mut [(Lane, Thief)]) -> bool {
    let Some((lane, _)) = pairs.first_mut() else {
        return false;
    };
    for position in 0..SHARED {
        if lane.push(position).is_err() {
            return false;
        }
    }
    true
}

/// What these add up to.
fn sum_of(parts: &[u64]) -> u64 {
    let mut sum: u64 = 0;
    for part in parts {
        sum = sum.wrapping_add(*part);
    }
    sum
}

/// What the positions of one lane add up to, found by so many workers at once.
fn sum_found<R: Threads + Sync>(rt: &R, alloc: Global, workers: u32) -> Result<u64, Fail> {
    let mut pairs = lanes(alloc, workers)?;
    if !fill_first(&mut pairs) {
        return Err(Fail::from("no worker, or refused"));
    }
    let found = AtomicU64::new(0);
    let sums = thread::map_vec(rt, pairs, &|pair: (Lane, Thief)| find_all(pair, &found))?;
    Ok(sum_of(&sums))
}

#[test]
fn many_workers_find_each_position_once(rt: HostRuntime) -> Result<(), Fail> {
    for workers in [1, 2, 4, 64] {
        let sum = sum_found(&rt, rt.alloc(), workers)?;
        equal(&rt, &(workers, "workers"), &sum, &499_500);
    }
    Ok(())
}
