//! Plays the rows of the files that the arguments name, over files in memory, and prints what comes out otherwise than they say, and how many rows
//! each file has; or, behind the word `bench`, what it measures.
#![tactic(auto)]

mod answers;
mod kept;
mod lines;
mod paces;
mod words;

use crate::answers::Libraries;
use crate::lines::do_step;
use bench::{USAGE, measure};
use rows_script::Script;
use std::alloc::Global;
use std::str::from_utf8;
use std::sync::Wait;
use std::thread::Threads;
use std::{env, io};
use wblock_io::{Disk, Files};

/// Plays lines.
fn play_lines<R: Threads + Wait + Sync>(rt: &R, alloc: Global, script: &mut Script, text: &str) {
    for line in text.split('\n') {
        if let Some(asked) = script.take(&Libraries {}, line) {
            let mut files = asked.files;
            let came = do_step(rt, alloc, asked.word, asked.rest, &mut files, asked.fails);
            script.hear(files, came);
        }
    }
}

/// Plays the rows of the file of this name, and prints what came of them. The second handle starts threads.
fn play<R: Threads + Wait + Sync>(
    rt: &HostRuntime,
    threads: &R,
    script: &mut Script,
    name: &str,
) -> io::Result<()> {
    let read = Disk::new(rt).read_all(rt.alloc(), name);
    let text = match &read {
        Ok(bytes) => from_utf8(bytes).ok(),
        Err(_) => None,
    };
    script.begin(name);
    match text {
        Some(text) => play_lines(threads, rt.alloc(), script, text),
        None => script.tell_unread(),
    }
    script.end(&Libraries {});
    print!(rt; "{}", script.report())?;
    println!(rt;
        "{name}: {} rows, {} differ",
        script.rows(),
        script.differing()
    )
}

/// Plays the rows of the files of these names. The second handle starts threads.
fn play_all<R: Threads + Wait + Sync>(
    rt: &HostRuntime,
    threads: &R,
    names: &[String],
) -> io::Result<()> {
    let mut script = Script::new(rt.alloc());
    for name in names {
        play(rt, threads, &mut script, name.as_str())?;
    }
    Ok(())
}

/// The words behind `bench`, where that is the first one.
fn asked_of_bench(words: &[String]) -> Option<&[String]> {
    let (first, asked) = words.split_first()?;
    if first.as_str() == "bench" {
        Some(asked)
    } else {
        None
    }
}

fn main(rt: HostRuntime) -> io::Result<()> {
    let mut words = Vec::new(rt.alloc());
    for word in env::args(&rt)?.skip(1) {
        words.push(word)?;
    }
    let Some(asked) = asked_of_bench(&words) else {
        return play_all(&rt, &rt, &words);
    };
    match measure(&rt, rt.alloc(), asked)? {
        Some(line) => println!(rt; "{line}"),
        None => println!(rt; "{USAGE}"),
    }
}
