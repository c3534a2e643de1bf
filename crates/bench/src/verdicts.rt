//! How many calls a second run one after another, are mined and are validated, with their block.

ghost use Rattle.std.specs.Prelude.{◌≤◌, length, vec_len};

use crate::inputs::{Inputs, read_inputs};
use crate::rates::a_second;
use crate::refusals::refused;
use crate::sealed::sealed;
use block::{Block, write_block};
use byte_sinks::{Failures, MemorySink};
use call::Call;
use miner::mine;
use pace::{NoPace, Watched};
use std::alloc::Global;
use std::io;
use std::sync::Wait;
use std::thread::Threads;
use std::time::{Clock, Duration, Instant};
use validator::{Verdict, validate};
use world::{World, digest_world};

/// How often a worker of the miner tries a call.
const TRIES: u32 = 3;

/// What is measured.
#[derive(Clone, Copy)]
enum Work {
    /// The calls run one after another.
    Serial,
    /// They are mined in the list's order.
    Mine,
    /// They are mined by workers over one book, as under a pace that watches.
    Book,
    /// The block of the calls one after another is validated.
    Validate,
    /// It is validated by workers over cells that they share, as under a pace that watches.
    Board,
}

impl Work {
    /// Whether the pace watches.
    fn watches(self) -> bool {
        matches!(self, Work::Book | Work::Board)
    }
}

/// What is measured, and by how many workers.
#[derive(Clone, Copy)]
struct Task {
    work: Work,
    workers: u32,
    ghost few: { (1 ≤ workers) × (workers ≤ 64) },
}

impl Task {
    /// The task that two words give.
    fn of_words(work: &str, workers: &str) -> Option<Task> {
        let work = match work {
            "serial" => Work::Serial,
            "mine" => Work::Mine,
            "book" => Work::Book,
            "validate" => Work::Validate,
            "board" => Work::Board,
            _ => return None,
        };
        let workers = workers.parse::<u32>().ok()?;
        if workers < 1 || workers > 64 {
            return None;
        }
        Some(Task { work, workers })
    }
}

/// The block of the calls one after another. `None` where memory was refused.
fn one_by_one(alloc: Global, world: &World, calls: &[Call]) -> Option<Block>
    requires { length calls.now ≤ 65535 }
{
    let (block, _) = sealed(alloc, world, calls)?;
    Some(block)
}

/// The block that workers mine of all calls. `None` where memory was refused, or where a call is left out.
fn mined<R: Threads + Wait + Sync>(
    rt: &R,
    alloc: Global,
    world: &World,
    calls: &[Call],
    task: Task,
) -> Option<Block>
    requires { length calls.now ≤ 65535 }
{
    let pace = Watched {
        pace: &NoPace,
        watches: task.work.watches(),
    };
    let mined = mine(
        rt,
        alloc,
        world,
        calls,
        u64::MAX,
        task.workers,
        TRIES,
        &pace,
    );
    let mined = mined.ok()?;
    if mined.left.is_empty() {
        Some(mined.block)
    } else {
        None
    }
}

/// The world after a block that workers accept. `None` where they reject it, or where memory was refused.
fn accepted<R: Threads + Wait + Sync>(
    rt: &R,
    alloc: Global,
    world: &World,
    calls: &[Call],
    bytes: &[u8],
    task: Task,
) -> Option<World>
    requires { length calls.now ≤ 65535 }
{
    let pace = Watched {
        pace: &NoPace,
        watches: task.work.watches(),
    };
    let verdict = validate(
        rt,
        alloc,
        world,
        calls,
        u64::MAX,
        bytes,
        task.workers,
        &pace,
    );
    match verdict.ok()? {
        Verdict::Accept(next) => Some(next),
        Verdict::Reject(_) => None,
    }
}

/// The bytes of a block. `None` where memory was refused, or where its version cannot tell its receipts.
fn bytes_of(alloc: Global, block: &Block) -> Option<MemorySink> {
    if !block.fits_version() {
        return None;
    }
    let mut sink = MemorySink::new(alloc, usize::MAX, Failures::none());
    write_block(alloc, block, &mut sink).ok()?;
    Some(sink)
}

/// The time of making the block of the calls, and the block: by workers, or one call after another.
fn time_block<R: Threads + Wait + Clock + Sync>(
    rt: &R,
    alloc: Global,
    inputs: &Inputs,
    task: Task,
) -> io::Result<(Duration, Block)> {
    let start = Instant::now(rt)?;
    let block = match task.work {
        Work::Mine | Work::Book => mined(rt, alloc, &inputs.world, &inputs.calls, task),
        Work::Serial | Work::Validate | Work::Board => one_by_one(
            alloc,
            &inputs.world,
            &inputs.calls,
        ),
    };
    let time = start.elapsed(rt)?;
    match block {
        Some(block) => Ok((time, block)),
        None => Err(refused()),
    }
}

/// The time in which workers accept a block of the calls, and the world after it.
fn time_verdict<R: Threads + Wait + Clock + Sync>(
    rt: &R,
    alloc: Global,
    inputs: &Inputs,
    block: &Block,
    task: Task,
) -> io::Result<(Duration, World)> {
    let Some(bytes) = bytes_of(alloc, block) else {
        return Err(refused());
    };
    let start = Instant::now(rt)?;
    let next = accepted(rt, alloc, &inputs.world, &inputs.calls, bytes.bytes(), task);
    let time = start.elapsed(rt)?;
    match next {
        Some(next) => Ok((time, next)),
        None => Err(refused()),
    }
}

/// The line of the calls a second. Each block that is made is validated, too.
fn line_of<R: Threads + Wait + Clock + Sync>(
    rt: &R,
    alloc: Global,
    inputs: &Inputs,
    task: Task,
) -> io::Result<String> {
    let (making, block) = time_block(rt, alloc, inputs, task)?;
    let (judging, next) = time_verdict(rt, alloc, inputs, &block, task)?;
    let time = match task.work {
        Work::Serial | Work::Mine | Work::Book => making,
        Work::Validate | Work::Board => judging,
    };
    let rate = a_second(inputs.calls.len() as u64, time);
    let Ok(digest) = digest_world(alloc, &next) else {
        return Err(refused());
    };
    let after = hex::encode(alloc, digest)?;
    Ok(format!(in alloc; "left 0 after {after} a second {rate}")?)
}

/// The line of the task that the words give.
pub fn measure<R: Threads + Wait + Clock + std::rt::Files + Sync>(
    rt: &R,
    alloc: Global,
    words: &[String],
) -> io::Result<Option<String>> {
    let [work, workers, world, calls] = words else {
        return Ok(None);
    };
    match Task::of_words(work.as_str(), workers.as_str()) {
        Some(task) => {
            let inputs = read_inputs(rt, alloc, world.as_str(), calls.as_str())?;
            Ok(Some(line_of(rt, alloc, &inputs, task)?))
        }
        None => Ok(None),
    }
}
