//! Measures texts that are assembled, modules that are loaded and encoded, runs of the machine, sessions of the debugger, numbers that threads draw,
//! operations of a book, and calls that run one after another, are mined and are validated.
#![tactic(auto)]

mod blocks;
mod book_load;
mod book_work;
mod draw_plan;
mod draws;
mod example_load;
mod files;
mod inputs;
mod loads;
mod machine;
mod mined;
mod operations;
mod orders;
mod rates;
mod refusals;
mod request;
mod runs;
mod sealed;
mod sessions;
mod texts;
mod verdicts;
mod with_intake;
mod with_mutex;

use std::alloc::Global;
use std::io;
use std::sync::Wait;
use std::thread::Threads;
use std::time::Clock;

/// The words of what can be measured.
pub const USAGE: &str = "usage: rows bench assemble TEXT
       rows bench load MODULE
       rows bench run MODULE EXPORT FUEL
       rows bench debug MODULE EXPORT TURNS
       rows bench draw THREADS DRAWS
       rows bench operate KEYS
       rows bench serial CALLS
       rows bench mine WORKERS WORLD CALLS
       rows bench block serial|mine|book|validate|board WORKERS WORLD CALLS";

/// The line of what the words ask to measure. `None` where they ask for nothing.
pub fn measure<R: Threads + Wait + Clock + std::rt::Files + Sync>(
    rt: &R,
    alloc: Global,
    words: &[String],
) -> io::Result<Option<String>> {
    let Some((name, words)) = words.split_first() else {
        return Ok(None);
    };
    match name.as_str() {
        "assemble" => texts::measure(rt, alloc, words),
        "load" => loads::measure(rt, alloc, words),
        "run" => machine::measure(rt, alloc, words),
        "debug" => sessions::measure(rt, alloc, words),
        "draw" => draws::measure(rt, alloc, words),
        "operate" => operations::measure(rt, alloc, words),
        "serial" => blocks::measure(rt, alloc, words),
        "mine" => mined::measure(rt, alloc, words),
        "block" => verdicts::measure(rt, alloc, words),
        _ => Ok(None),
    }
}
