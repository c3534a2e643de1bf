//! Threads that draw from one counter under a mutex.
use crate::draw_plan::Plan;
use crate::rates::a_second;
use std::alloc::Global;
use std::sync::{Mutex, Wait};
use std::thread::Threads;
use std::time::{Clock, Instant};
use std::{io, thread};

/// The next number, below `draws`. `None` says that all are drawn.
fn draw(rt: &impl Wait, next: &Mutex<u32>, draws: u32) -> Option<u32> {
    let mut next = next.lock(rt);
    let number = *next;
    if number >= draws {
        return None;
    }
    *next = number + 1;
    Some(number)
}

/// Draws until all numbers are drawn.
fn draw_all<R: Wait>(rt: &R, next: &Mutex<u32>, draws: u32) {
    for _ in rt.forever() {
        if draw(rt, next, draws).is_none() {
            break;
        }
    }
}

/// How many numbers a second the threads draw from a counter under a mutex.
///
/// # Errors
///
/// Where memory or the clock was refused.
pub fn draws_a_second<R: Threads + Wait + Clock + Sync>(
    rt: &R,
    alloc: Global,
    plan: Plan,
) -> io::Result<u128> {
    let draws = plan.draws;
    let threads = plan.threads as usize;
    let mut places = vec![in alloc; (); threads]?;
    let next = Mutex::new(0);
    let start = Instant::now(rt)?;
    thread::for_each_mut(
        rt,
        places.as_mut_slice(),
        threads,
        &|_, _place| draw_all(rt, &next, draws),
    );
    let time = start.elapsed(rt)?;
    Ok(a_second(u64::from(draws), time))
}
