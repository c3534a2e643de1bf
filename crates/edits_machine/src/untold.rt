//! A line of words over an output of which nothing is told.

ghost use Rattle.std.specs.Prelude.{◌≡◌, [], false, IsTrue, map};
ghost use Rattle.wblock_commands.specs.Words.{Says};
ghost use Rattle.wblock_commands.specs.Does.{Does};
ghost use Rattle.wblock_commands.specs.declared.command.Command.{Command as Asked};

use byte_sinks::Sink;
use pace::Pace;
use std::alloc::Global;
use std::io::Write;
use std::sync::Wait;
use std::thread::Threads;
use wblock_io::{Files, Stream};
use wblock_line::Status;

/// As [`wblock_commands::run_line`], where a line is done or refused: what it does to the files is known without what the output took.
pub fn run_line<'a, R: Threads + Wait + Sync, F: Files, W: Write, E: Sink, P: Pace>(
    rt: &R,
    alloc: Global,
    words: &'a [&'a str],
    files: &mut F,
    out: &mut Stream<W>,
    err: &mut E,
    pace: &P,
) -> Status
    ensures done { result ≡ Status.Done → (c : Asked) × Says (map (λ w. w.now) words.entry.now) c × (IsTrue F.tells → Does c Status.Done false (F.holds files.old) (F.holds files.new) [] []) }
    ensures refused { result ≡ Status.Refused → (c : Asked) × Says (map (λ w. w.now) words.entry.now) c × (IsTrue F.tells → Does c Status.Refused false (F.holds files.old) (F.holds files.new) [] []) }
{
    wblock_commands::run_line(rt, alloc, words, files, out, err, pace)
}
