//! The program: one line of words over the machine's files and streams, or a session of lines.
#![tactic(auto)]

use byte_sinks::put_all;
use std::alloc::{AllocError, Global};
use std::io::{BufReader, ErrorKind, IsTerminal, Write};
use std::process::ExitCode;
use std::rt::Env;
use std::sync::Wait;
use std::thread::Threads;
use wblock_chain::{run_session, session_world_of};
use wblock_commands::run_line;
use wblock_io::{Disk, LineReader, Stream};
use wblock_line::{Progress, Status, Wiped, without_quiet};

/// So many bytes no word has that the system hands over.
const LONGEST_WORD: usize = 131_072;

/// Why the words could not be had.
enum WordsFault {
    /// Memory was refused.
    NoMemory,
    /// One is not UTF-8: that of this number, where it is known. The program's name has the number 0.
    NotUtf8(Option<usize>),
}

impl From<AllocError> for WordsFault {
    fn from(_: AllocError) -> WordsFault {
        WordsFault::NoMemory
    }
}

/// The number of the first word that is not UTF-8.
fn first_not_utf8<R: Env>(rt: &R, alloc: Global) -> Result<Option<usize>, AllocError> {
    let mut word = vec![in alloc; 0; LONGEST_WORD]?;
    for number in 0..usize::MAX {
        let Ok(n) = rt.arg(number, word.as_mut_slice()) else {
            return Ok(None);
        };
        if std::str::from_utf8(&word[..n]).is_err() {
            return Ok(Some(number));
        }
    }
    Ok(None)
}

/// The words of the command line, without the program's name.
fn words_of(rt: &HostRuntime) -> Result<Vec<String>, WordsFault> {
    match std::env::args(rt) {
        Ok(words) => Ok(words.skip(1).collect(rt.alloc())?),
        Err(error) if error.kind() == ErrorKind::OutOfMemory => Err(WordsFault::NoMemory),
        Err(_) => Err(WordsFault::NotUtf8(first_not_utf8(rt, rt.alloc())?)),
    }
}

/// Says that a word is not UTF-8, and gives the status.
fn tell_not_utf8(rt: &HostRuntime, number: Option<usize>) -> u8 {
    let mut err = rt.stderr();
    // a fault of standard error changes no status
    let _ = match number {
        Some(number) => writeln!(err, "usage: word {number} is not UTF-8"),
        None => writeln!(err, "usage: a word is not UTF-8"),
    };
    Status::Usage as u8
}

/// Runs the words over the machine's files and streams, or the session that they ask for over standard input, too, and gives the status. Where standard error is a terminal and the words do not ask for quiet,
/// the progress stands there meanwhile. The second handle starts threads.
fn run<R: Threads + Wait + Sync>(rt: &HostRuntime, threads: &R) -> Result<u8, AllocError> {
    let alloc = rt.alloc();
    let words = match words_of(rt) {
        Ok(words) => words,
        Err(WordsFault::NoMemory) => return Err(AllocError),
        Err(WordsFault::NotUtf8(number)) => return Ok(tell_not_utf8(rt, number)),
    };
    let words: Vec<&str> = words.iter().map(|w| w.as_str()).collect(alloc)?;
    let line = without_quiet(alloc, words.as_slice())?;
    let terminal = rt.stderr();
    let speaks = terminal.is_terminal() && !line.quiet;
    let progress = Progress::new(alloc, rt, &terminal, speaks);
    let mut files = Disk::new(rt);
    let mut out = Stream::new(Wiped::new(rt.stdout(), &progress));
    let mut err = Stream::new(Wiped::new(rt.stderr(), &progress));
    let words = line.others.as_slice();
    let status = match session_world_of(alloc, words)? {
        None => run_line(
            threads, alloc, words, &mut files, &mut out, &mut err, &progress,
        ),
        Some(name) => {
            let Ok(reader) = BufReader::new(alloc, rt.reader()) else {
                return Err(AllocError);
            };
            let mut lines = LineReader::new(reader);
            run_session(
                threads, alloc, name, &mut files, &mut lines, &mut out, &mut err, &progress,
            )
        }
    };
    Ok(status as u8)
}

fn main(rt: HostRuntime) -> ExitCode {
    match run(&rt, &rt) {
        Ok(status) => ExitCode::from(status),
        Err(AllocError) => {
            let mut err = Stream::new(rt.stderr());
            let _ = put_all(&mut err, b"memory\n");
            ExitCode::from(Status::Memory as u8)
        }
    }
}
