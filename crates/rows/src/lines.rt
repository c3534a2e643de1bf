//! Steps that are lines of words.

use crate::paces::{Ahead, Clash, Gather, Uneven};
use byte_sinks::{Failures, MemorySink};
use pace::{NoPace, Pace};
use rows_script::{Came, Fails, cut};
use std::alloc::Global;
use std::sync::Wait;
use std::thread::Threads;
use wblock_chain::run_session;
use wblock_commands::run_line;
use wblock_io::{MemoryFiles, MemoryLines};
use wblock_line::Status;
use wblock_usage::usage_text;

/// How many bytes a stream takes at a time.
const PIECE: usize = 3;

/// The word of a status.
fn word_of(status: Status) -> &'static str {
    match status {
        Status::Done => "done",
        Status::Refused => "refused",
        Status::Usage => "usage",
        Status::File => "file",
        Status::Memory => "memory",
    }
}

/// The words between single spaces.
pub(crate) fn words_of<'a>(alloc: Global, line: &'a str) -> Option<Vec<&'a str>> {
    if line.is_empty() {
        return Some(Vec::new(alloc));
    }
    line.split(' ').collect(alloc).ok()
}

/// How a line ended.
#[derive(Drop)]
struct Ended {
    status: Status,
    out: MemorySink,
    err: MemorySink,
}

/// What a line came to whose words begin so, where it ended so.
fn came(alloc: Global, words: &str, said: &str, ended: &Ended) -> Option<Came> {
    let otherwise = if said == words {
        None
    } else {
        Some(said.to_string(alloc).ok()?)
    };
    Some(Came {
        otherwise,
        out: ended.out.bytes().to_vec(alloc).ok()?,
        err: ended.err.bytes().to_vec(alloc).ok()?,
    })
}

/// A number, and the words behind it.
fn counted(rest: &str) -> Option<(u64, &str)> {
    let (count, rest) = cut(rest);
    Some((count.parse::<u64>().ok()?, rest))
}

/// What a line came to that says how many come, where so many came.
fn came_counted(
    alloc: Global,
    count: u64,
    wanted: &str,
    total: u64,
    ended: &Ended,
) -> Option<Came> {
    let words = format!(in alloc; "{count} {wanted}").ok()?;
    let said = format!(in alloc; "{total} {}", word_of(ended.status)).ok()?;
    came(alloc, words.as_str(), said.as_str(), ended)
}

/// What is said of words that ask for nothing, on the standard output.
fn usage(alloc: Global, line: &str) -> Option<Came> {
    let words = words_of(alloc, line)?;
    let text = usage_text(alloc, &words).ok()?;
    Some(Came {
        otherwise: None,
        out: text.into_bytes(),
        err: Vec::new(alloc),
    })
}

/// What the runs of a line over many files come to together.
#[derive(Drop)]
struct Together {
    came: Came,
    last_out: Vec<u8>,
    last_err: Vec<u8>,
}

impl Together {
    /// None was run.
    fn new(alloc: Global) -> Together {
        Together {
            came: Came {
                otherwise: None,
                out: Vec::new(alloc),
                err: Vec::new(alloc),
            },
            last_out: Vec::new(alloc),
            last_err: Vec::new(alloc),
        }
    }

    /// Puts what a run put on its streams behind what the others did, where it is not the same as of the last one.
    fn add(&mut self, alloc: Global, ended: &Ended) -> Option<()> {
        if ended.out.bytes() != self.last_out.as_slice() {
            self.last_out = ended.out.bytes().to_vec(alloc).ok()?;
            self.came.out.extend_from_slice(ended.out.bytes()).ok()?;
        }
        if ended.err.bytes() != self.last_err.as_slice() {
            self.last_err = ended.err.bytes().to_vec(alloc).ok()?;
            self.came.err.extend_from_slice(ended.err.bytes()).ok()?;
        }
        Some(())
    }
}

/// Runs a line of words at this pace.
fn run_words<R: Threads + Wait + Sync, P: Pace>(
    rt: &R,
    alloc: Global,
    line: &str,
    files: &mut MemoryFiles,
    fails: Fails,
    pace: &P,
) -> Option<Ended> {
    let words = words_of(alloc, line)?;
    let mut out = MemorySink::new(alloc, PIECE, fails.of_out());
    let mut err = MemorySink::new(alloc, PIECE, fails.of_err());
    let status = run_line(rt, alloc, &words, files, &mut out, &mut err, pace);
    Some(Ended { status, out, err })
}

/// The lines of these bytes. What stands behind the last newline is none.
fn lines_in(alloc: Global, bytes: &[u8]) -> Option<MemoryLines> {
    let pieces: Vec<&[u8]> = bytes.split(|b| *b == b'\n').collect(alloc).ok()?;
    let (_unended, ended) = pieces.as_slice().split_last()?;
    let mut lines = MemoryLines::new(alloc, Failures::none());
    for line in ended {
        lines.push(alloc, *line).ok()?;
    }
    Some(lines)
}

/// Runs a session over the world of a file, whose lines are those of another file, behind the status that is wanted.
fn session<R: Threads + Wait + Sync>(
    rt: &R,
    alloc: Global,
    rest: &str,
    files: &mut MemoryFiles,
    fails: Fails,
) -> Option<Came> {
    let (wanted, rest) = cut(rest);
    let (world, input) = cut(rest);
    let bytes = files.bytes_of(alloc, input).ok()??;
    let mut lines = lines_in(alloc, &bytes)?;
    let mut out = MemorySink::new(alloc, PIECE, fails.of_out());
    let mut err = MemorySink::new(alloc, PIECE, fails.of_err());
    let status = run_session(
        rt, alloc, world, files, &mut lines, &mut out, &mut err, &NoPace,
    );
    came(alloc, wanted, word_of(status), &Ended { status, out, err })
}

/// Runs a line of words behind the status that is wanted.
fn plain<R: Threads + Wait + Sync>(
    rt: &R,
    alloc: Global,
    rest: &str,
    files: &mut MemoryFiles,
    fails: Fails,
) -> Option<Came> {
    let (wanted, line) = cut(rest);
    let ended = run_words(rt, alloc, line, files, fails, &NoPace)?;
    came(alloc, wanted, word_of(ended.status), &ended)
}

/// Runs a line of words whose workers are gathered: so many are wanted, and this status.
fn gathered<R: Threads + Wait + Sync>(
    rt: &R,
    alloc: Global,
    rest: &str,
    files: &mut MemoryFiles,
    fails: Fails,
) -> Option<Came> {
    let (count, rest) = counted(rest)?;
    let (wanted, line) = cut(rest);
    let pace = Gather::of(count);
    let ended = run_words(rt, alloc, line, files, fails, &pace)?;
    came_counted(alloc, count, wanted, pace.total(), &ended)
}

/// Runs a line of words whose calls are held so that one is refused: so many refusals are wanted, and this status.
fn clashed<R: Threads + Wait + Sync>(
    rt: &R,
    alloc: Global,
    rest: &str,
    files: &mut MemoryFiles,
    fails: Fails,
) -> Option<Came> {
    let (count, rest) = counted(rest)?;
    let (wanted, line) = cut(rest);
    let pace = Clash::of(count);
    let ended = run_words(rt, alloc, line, files, fails, &pace)?;
    came_counted(alloc, count, wanted, pace.total(), &ended)
}

/// Runs a line of words that is to tell so often that calls run ahead of one, with so much fuel, behind the status that is wanted.
fn ahead<R: Threads + Wait + Sync>(
    rt: &R,
    alloc: Global,
    rest: &str,
    files: &mut MemoryFiles,
    fails: Fails,
) -> Option<Came> {
    let (times, rest) = counted(rest)?;
    let (fuel, rest) = counted(rest)?;
    let (wanted, line) = cut(rest);
    let pace = Ahead::new();
    let ended = run_words(rt, alloc, line, files, fails, &pace)?;
    let words = format!(in alloc; "{times} {fuel} {wanted}").ok()?;
    let status = word_of(ended.status);
    let said = format!(in alloc; "{} {} {status}", pace.times(), pace.fuel()).ok()?;
    came(alloc, words.as_str(), said.as_str(), &ended)
}

/// Runs a line of words over each front of a file that is not all of it, the shortest one first, behind the status that is wanted each time.
fn fronts<R: Threads + Wait + Sync>(
    rt: &R,
    alloc: Global,
    rest: &str,
    files: &mut MemoryFiles,
    fails: Fails,
) -> Option<Came> {
    let (name, rest) = cut(rest);
    let (wanted, line) = cut(rest);
    let whole = files.bytes_of(alloc, name).ok()??;
    let mut together = Together::new(alloc);
    for count in 0..whole.len() {
        files.hold(name, whole.get(..count)?).ok()?;
        let ended = run_words(rt, alloc, line, files, fails, &NoPace)?;
        together.add(alloc, &ended)?;
        let status = word_of(ended.status);
        if status != wanted {
            let said = format!(in alloc; "{name} {status}, of {count} bytes").ok()?;
            together.came.otherwise = Some(said);
        }
    }
    files.hold(name, &whole).ok()?;
    Some(together.came)
}

/// Runs a line of words, and once more with `--boosted`.
fn run_twice<R: Threads + Wait + Sync>(
    rt: &R,
    alloc: Global,
    line: &str,
    files: &mut MemoryFiles,
    fails: Fails,
) -> Option<(Ended, Ended)> {
    let plain = run_words(rt, alloc, line, files, fails, &Uneven::new())?;
    let words = format!(in alloc; "{line} --boosted").ok()?;
    let boosted = run_words(rt, alloc, words.as_str(), files, fails, &Uneven::new())?;
    Some((plain, boosted))
}

/// Whether a line put the same on its streams both times.
fn are_alike(plain: &Ended, boosted: &Ended) -> bool {
    plain.out.bytes() == boosted.out.bytes() && plain.err.bytes() == boosted.err.bytes()
}

/// What is told of a line that ended so both times, where it is not this status, or not the same on the streams.
fn told_of_both(
    alloc: Global,
    wanted: &str,
    plain: &Ended,
    boosted: &Ended,
) -> Option<Option<String>> {
    let first = word_of(plain.status);
    let second = word_of(boosted.status);
    let streams = if are_alike(plain, boosted) {
        "the same"
    } else {
        "something else"
    };
    if first == wanted && second == wanted && streams == "the same" {
        return Some(None);
    }
    let told = format!(in alloc; "{first}, and with --boosted to {second} and {streams}");
    Some(Some(told.ok()?))
}

/// Runs a line of words behind the status that is wanted, and once more with `--boosted`: what it puts on its streams is the same.
fn twice<R: Threads + Wait + Sync>(
    rt: &R,
    alloc: Global,
    rest: &str,
    files: &mut MemoryFiles,
    fails: Fails,
) -> Option<Came> {
    let (wanted, line) = cut(rest);
    let (plain, boosted) = run_twice(rt, alloc, line, files, fails)?;
    Some(Came {
        otherwise: told_of_both(alloc, wanted, &plain, &boosted)?,
        out: plain.out.bytes().to_vec(alloc).ok()?,
        err: plain.err.bytes().to_vec(alloc).ok()?,
    })
}

/// How often the runs of a line over many files come to the same, one behind another.
#[derive(Drop)]
struct Tally {
    /// What one of them came to otherwise.
    otherwise: Option<String>,
    text: Vec<u8>,
    last: Vec<u8>,
    count: u64,
}

impl Tally {
    /// None was run.
    fn new(alloc: Global) -> Tally {
        Tally {
            otherwise: None,
            text: Vec::new(alloc),
            last: Vec::new(alloc),
            count: 0,
        }
    }

    /// Counts what a run put on the standard output.
    fn add(&mut self, alloc: Global, out: &[u8]) -> Option<()> {
        if out != self.last.as_slice() {
            self.put(alloc)?;
            self.last = out.to_vec(alloc).ok()?;
        }
        self.count = self.count.saturating_add(1);
        Some(())
    }

    /// Puts how often the last one came, and it, behind the others.
    fn put(&mut self, alloc: Global) -> Option<()> {
        if self.count > 0 {
            let count = format!(in alloc; "{} ", self.count).ok()?;
            self.text.extend_from_slice(count.as_bytes()).ok()?;
            self.text.extend_from_slice(&self.last).ok()?;
        }
        self.count = 0;
        Some(())
    }
}

/// Flips a bit.
fn flip(bytes: &mut [u8], place: usize, bit: u8) {
    if let Some(byte) = bytes.get_mut(place) {
        *byte ^= bit;
    }
}

/// Counts what a line of words comes to over a file of these bytes, without `--boosted` and with it.
fn tally_of<R: Threads + Wait + Sync>(
    rt: &R,
    alloc: Global,
    name: &str,
    rest: &str,
    bytes: &[u8],
    files: &mut MemoryFiles,
    fails: Fails,
    tally: &mut Tally,
) -> Option<()> {
    files.hold(name, bytes).ok()?;
    let (wanted, line) = cut(rest);
    let (plain, boosted) = run_twice(rt, alloc, line, files, fails)?;
    if let Some(told) = told_of_both(alloc, wanted, &plain, &boosted)? {
        tally.otherwise = Some(told);
    }
    tally.add(alloc, plain.out.bytes())
}

/// Runs a line of words as [`twice`] does over a file with each bit of it flipped, behind the status that is wanted each time.
fn flips<R: Threads + Wait + Sync>(
    rt: &R,
    alloc: Global,
    rest: &str,
    files: &mut MemoryFiles,
    fails: Fails,
) -> Option<Came> {
    let (name, rest) = cut(rest);
    let mut bytes = files.bytes_of(alloc, name).ok()??;
    let mut tally = Tally::new(alloc);
    for place in 0..bytes.len() {
        for bit in [1, 2, 4, 8, 16, 32, 64, 128] {
            flip(&mut bytes, place, bit);
            tally_of(rt, alloc, name, rest, &bytes, files, fails, &mut tally)?;
            flip(&mut bytes, place, bit);
        }
    }
    files.hold(name, &bytes).ok()?;
    tally.put(alloc)?;
    Some(Came {
        otherwise: tally.otherwise,
        out: tally.text,
        err: Vec::new(alloc),
    })
}

/// Does the step of this word over the files of its row, as the rest of its line says; None where there is no such step, the line can't be read, or memory
/// is refused.
pub(crate) fn do_step<R: Threads + Wait + Sync>(
    rt: &R,
    alloc: Global,
    word: &str,
    rest: &str,
    files: &mut MemoryFiles,
    fails: Fails,
) -> Option<Came> {
    match word {
        "run" => plain(rt, alloc, rest, files, fails),
        "session" => session(rt, alloc, rest, files, fails),
        "gather" => gathered(rt, alloc, rest, files, fails),
        "clash" => clashed(rt, alloc, rest, files, fails),
        "twice" => twice(rt, alloc, rest, files, fails),
        "fronts" => fronts(rt, alloc, rest, files, fails),
        "flips" => flips(rt, alloc, rest, files, fails),
        "ahead" => ahead(rt, alloc, rest, files, fails),
        "usage" => usage(alloc, rest),
        _ => None,
    }
}
