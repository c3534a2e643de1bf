// Seats of an intake, in one thread and in eight.
ghost use Rattle.std.specs.Prelude.{◌≡◌, ◌<◌, length};
ghost use Rattle.std.specs.List.{All};
ghost use Rattle.book_workers.specs.Intakes.{IsSeatOf};

use crate::assertions::{equal, holds};
use book_workers::{Intake, Seat};
use std::alloc::Global;
use std::process::Abort;
use std::sync::Wait;
use std::sync::atomic::{AtomicU64, Ordering};
use std::test::Fail;
use std::thread;
use std::thread::Threads;

/// What is asked at a seat, and what is answered.
enum Asked {
    Draw(Option<u32>),
    Reserve(u64, bool),
    Left(u64),
}

/// An intake, and what is asked at its seats one after another.
struct Row {
    name: &'static str,
    calls: u32,
    fuel: u64,
    seats: u32,
    asked: &'static [(usize, Asked)],
    /// The fuel that is left.
    left: u64,
}

const ROWS: &[Row] = &[
    Row {
        name: "two seats",
        calls: 2,
        fuel: 100,
        seats: 2,
        asked: &[
            (0, Asked::Draw(Some(0))),
            (0, Asked::Reserve(60, true)),
            (1, Asked::Left(40)),
            (1, Asked::Draw(Some(1))),
            (1, Asked::Reserve(50, false)),
            (1, Asked::Reserve(40, true)),
            (1, Asked::Left(0)),
            (1, Asked::Draw(None)),
            (0, Asked::Draw(None)),
        ],
        left: 0,
    },
    Row {
        name: "one seat and all fuel",
        calls: 2,
        fuel: u64::MAX,
        seats: 1,
        asked: &[
            (0, Asked::Draw(Some(0))),
            (0, Asked::Draw(Some(1))),
            (0, Asked::Draw(None)),
            (0, Asked::Left(u64::MAX)),
            (0, Asked::Reserve(u64::MAX - 1, true)),
            (0, Asked::Reserve(u64::MAX, false)),
        ],
        left: 1,
    },
    Row {
        name: "no calls and no fuel",
        calls: 0,
        fuel: 0,
        seats: 1,
        asked: &[
            (0, Asked::Draw(None)),
            (0, Asked::Left(0)),
            (0, Asked::Reserve(0, true)),
            (0, Asked::Reserve(1, false)),
        ],
        left: 0,
    },
];

/// Whether a seat answers as it has to.
fn answers<R: Wait>(rt: &R, intake: &Intake<Global>, seat: &mut Seat, asked: &Asked) -> bool
    requires { IsSeatOf intake.now seat.old }
    ensures { IsSeatOf intake.now seat.new }
{
    match asked {
        Asked::Draw(number) => intake.draw(seat) == *number,
        Asked::Reserve(fuel, granted) => intake.reserve(rt, seat, *fuel) == *granted,
        Asked::Left(fuel) => intake.left(seat) == *fuel,
    }
}

/// Whether the seat at this place answers as it has to.
fn answers_at<R: Wait>(
    rt: &R,
    intake: &Intake<Global>,
    seats: &mut Vec<Seat>,
    at: usize,
    asked: &Asked,
) -> bool
    requires { All (IsSeatOf intake.now) seats.old.items }
    ensures seats { All (IsSeatOf intake.now) seats.new.items }
    ensures size { length seats.new.items ≡ length seats.old.items }
{
    at < seats.len() && answers(rt, intake, &mut seats[at], asked)
}

/// Whether the seats answer as they have to, one after another.
fn all_answer<R: Wait>(
    rt: &R,
    intake: &Intake<Global>,
    seats: &mut Vec<Seat>,
    asked: &[(usize, Asked)],
) -> bool
    requires { All (IsSeatOf intake.now) seats.old.items }
    ensures seats { All (IsSeatOf intake.now) seats.new.items }
    ensures size { length seats.new.items ≡ length seats.old.items }
{
    for step in asked {
        let (at, asked) = step;
        if !answers_at(rt, intake, seats, *at, asked) {
            return false;
        }
    }
    true
}

/// Whether an intake answers as the row says.
fn is_as_said<R: Wait>(rt: &R, alloc: Global, row: &Row) -> Result<bool, Fail> {
    if row.seats == 0 {
        return Err(Fail::from("no seat"));
    }
    let (intake, mut seats) = Intake::open(alloc, row.calls, row.fuel, row.seats)?;
    let all = all_answer(rt, &intake, &mut seats, row.asked);
    Ok(intake.close(seats) == row.left && all)
}

/// Each intake answers as its row says.
fn are_as_said<R: Wait + Abort>(rt: &R, alloc: Global, rows: &[Row]) -> Result<(), Fail> {
    for row in rows {
        holds(rt, &row.name, is_as_said(rt, alloc, row)?);
    }
    Ok(())
}

#[test]
fn seats_answer_as_said(rt: HostRuntime) -> Result<(), Fail> {
    are_as_said(&rt, rt.alloc(), ROWS)
}

/// What the threads did together.
#[derive(Drop)]
struct Totals {
    numbers: AtomicU64,
    granted: AtomicU64,
}

// Draws until all numbers are drawn, and asks for 0 to 6 fuel with each.
fn work<R: Wait>(rt: &R, intake: &Intake<Global>, totals: &Totals, seat: &mut Seat)
    requires { IsSeatOf intake.now seat.old }
    ensures { IsSeatOf intake.now seat.new }
{
    for _ in rt.forever() {
        let Some(number) = intake.draw(seat) else {
            break;
        };
        totals
            .numbers
            .fetch_add(u64::from(number), Ordering::SeqCst);
        let fuel = u64::from(number % 7);
        if intake.reserve(rt, seat, fuel) {
            totals.granted.fetch_add(fuel, Ordering::SeqCst);
        }
    }
}

/// The sum of the numbers that eight threads drew, and the fuel that they were granted with what is left.
fn drawn_by_eight<R: Threads + Wait + Sync>(
    rt: &R,
    alloc: Global,
) -> Result<(u64, Option<u64>), Fail> {
    let totals = Totals {
        numbers: AtomicU64::new(0),
        granted: AtomicU64::new(0),
    };
    let (intake, mut seats) = Intake::open(alloc, 10_000, 20_000, 8)?;
    thread::for_each_mut(
        rt,
        seats.as_mut_slice(),
        8,
        &|_, seat| work(rt, &intake, &totals, seat),
    );
    let left = intake.close(seats);
    let granted = totals.granted.load(Ordering::SeqCst);
    Ok((
        totals.numbers.load(Ordering::SeqCst),
        granted.checked_add(left),
    ))
}

#[test]
fn eight_threads(rt: HostRuntime) -> Result<(), Fail> {
    let drawn = drawn_by_eight(&rt, rt.alloc())?;
    equal(
        &rt,
        &"numbers, and fuel",
        &drawn,
        &(49_995_000, Some(20_000)),
    );
    Ok(())
}
