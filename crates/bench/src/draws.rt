//! Draws a second of threads from one intake, and beside it from one counter under a mutex.

use crate::draw_plan::Plan;
use crate::{with_intake, with_mutex};
use std::alloc::Global;
use std::io;
use std::sync::Wait;
use std::thread::Threads;
use std::time::Clock;

/// The line of the two rates.
pub fn measure<R: Threads + Wait + Clock + Sync>(
    rt: &R,
    alloc: Global,
    words: &[String],
) -> io::Result<Option<String>> {
    let Some(plan) = Plan::of_words(words) else {
        return Ok(None);
    };
    let intake = with_intake::draws_a_second(rt, alloc, plan)?;
    let mutex = with_mutex::draws_a_second(rt, alloc, plan)?;
    let threads = plan.threads;
    let line = format!(in alloc;
        "threads {threads} intake {intake} draws/s mutex {mutex} draws/s"
    )?;
    Ok(Some(line))
}
