//! Threads that draw from one intake.
ghost use Rattle.std.specs.Prelude.{◌≡◌, ◌<◌, true};
ghost use Rattle.std.specs.List.{All};
ghost use Rattle.book_workers.specs.Intakes.{IsSeatOf};
ghost use Rattle.bench.specs.Drawing.{HasDrawnAll};

use crate::draw_plan::Plan;
use crate::rates::a_second;
use crate::refusals::no_memory;
use book_workers::{Intake, Seat};
use std::alloc::Global;
use std::sync::Wait;
use std::thread::Threads;
use std::time::{Clock, Instant};
use std::{io, thread};

/// Draws until the intake answers that all numbers are drawn.
fn draw_all<R: Wait>(rt: &R, intake: &Intake<Global>, seat: &mut Seat)
    requires { IsSeatOf intake.now seat.old }
    ensures { HasDrawnAll intake.now seat.new }
{
    for _ in rt.forever() {
        if intake.draw(seat).is_none() {
            break;
        }
    }
}

/// Threads draw all numbers, one seat each.
fn draw_in_threads<R: Threads + Wait + Sync>(
    rt: &R,
    intake: &Intake<Global>,
    seats: &mut [Seat],
    threads: usize,
)
    requires seats { All (IsSeatOf intake.now) seats.old }
    requires threads { 0 < threads }
    ensures { All (HasDrawnAll intake.now) seats.new }
{
    thread::for_each_mut(rt, seats, threads, &|_, seat| draw_all(rt, intake, seat));
}

/// How many numbers a second the threads draw from an intake.
///
/// # Errors
///
/// Where memory or the clock was refused.
pub fn draws_a_second<R: Threads + Wait + Clock + Sync>(
    rt: &R,
    alloc: Global,
    plan: Plan,
) -> io::Result<u128> {
    let Ok((intake, mut seats)) = Intake::open(alloc, plan.draws, 0, plan.threads) else {
        return Err(no_memory());
    };
    let start = Instant::now(rt)?;
    draw_in_threads(rt, &intake, seats.as_mut_slice(), plan.threads as usize);
    let time = start.elapsed(rt)?;
    Ok(a_second(u64::from(plan.draws), time))
}
