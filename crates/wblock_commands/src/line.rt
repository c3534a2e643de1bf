//! The run of a line of words.

ghost use Rattle.std.specs.Prelude.{◌≡◌, ◌≢◌, ◌≤◌, ◌⊎◌, ◌++◌, ℕ, List, [], IsTrue, IfOk, IfErr, OnOk, MatchOption, map, string_bytes};
ghost use Rattle.wblock_line.specs.Answers.{CountsFault, IsFailing, IsOfFile, IsSaid, SaysFile, Wrote, memory_line, status_of, text_of, why_line, writes_of};
ghost use Rattle.wblock_commands.specs.Words.{Says, HasFew};
ghost use Rattle.wblock_commands.specs.Does.{Answers, IsMine, IsNote, MayMiss, Misses, Does, Reads, Fails, IsKept, SaysNote, SaysText};
ghost use Rattle.wblock_commands.specs.declared.command.Command.{Command as Asked};

use crate::command::{Command, command_of, watched_command};
use crate::deploy::deploy_apart;
use crate::show_stored;
use byte_sinks::{Sink, put_all};
use pace::Pace;
use std::alloc::{AllocError, Global};
use std::sync::Wait;
use std::thread::Threads;
use wblock_blocks::{mine_block, validate_block};
use wblock_call::call_world;
use wblock_debug::debug_world;
use wblock_io::Files;
use wblock_line::{Answer, Fault, Noted, Status, carry_out, split_words, tell_fault};
use wblock_modules::{assemble_file, check_module, write_text};
use wblock_show::show_named;
use wblock_usage::{tell_help, tell_version, usage_text};

/// An answer of which nothing is to be said on standard error.
fn unnoted<'a>(alloc: Global, answer: Answer<'a>) -> Noted<'a>
    ensures answer { result.answer ≡ answer.entry }
    ensures note { string_bytes result.note ≡ [] }
{
    Noted {
        answer,
        note: String::new(alloc),
    }
}

/// What a command comes to and what is to be said of it, or None where a call is asked for that is not there, or a world is there that is not to be
/// written over. No file is written yet.
fn answer_of<'l, 'w, R: Threads + Wait + Sync, F: Files, P: Pace>(
    rt: &R,
    alloc: Global,
    command: Command<'l, 'w>,
    files: &mut F,
    pace: &P,
) -> Result<Option<Noted<'w>>, Fault<'w>>
    requires { HasFew command }
    ensures answers { IfOk result (λ found. IsTrue F.tells → MatchOption found (Misses command.entry (F.holds files.old)) (λ n. Answers command.entry (F.holds files.old) n.answer)) }
    ensures notes { IfOk result (λ found. MatchOption found (Unit {0}) (λ n. IsNote command.entry n.answer (string_bytes n.note))) }
    ensures asked { IfOk result (λ found. MatchOption found (MayMiss command.entry) (λ n. Unit {0})) }
    ensures kept { IsTrue F.tells → F.holds files.new ≡ F.holds files.old }
    ensures calm { OnOk result (F.failures files.new ≡ F.failures files.old) }
    ensures counted { IfErr result (λ f. CountsFault f (F.failures files.old) (F.failures files.new)) }
    ensures reads { IfErr result (IsOfFile (λ name. IsTrue F.tells → Reads command.entry (F.holds files.old) name)) }
{
    let answer = match command {
        Command::Stored => show_stored(alloc)?,
        Command::Help(words) => tell_help(alloc, words)?,
        Command::Version => tell_version(alloc)?,
        Command::Asm(text, target, json) => assemble_file(alloc, files, text, target, json)?,
        Command::Text(source, target, unchecked, json) => {
            write_text(alloc, files, source, target, unchecked, json)?
        }
        Command::Check(target, heap, json) => check_module(alloc, files, target, heap, json)?,
        Command::Mine(task) => return Ok(Some(mine_block(rt, alloc, files, task, pace)?)),
        Command::Validate(task) => validate_block(rt, alloc, files, task, pace)?,
        Command::Show(task) => show_named(alloc, files, task)?,
        Command::Call(task) => call_world(alloc, files, &task)?,
        Command::Deploy(task) => match deploy_apart(alloc, files, task)? {
            Some(answer) => answer,
            None => return Ok(None),
        },
        Command::Debug(task) => match debug_world(alloc, files, &task, pace)? {
            Some(answer) => answer,
            None => return Ok(None),
        },
    };
    Ok(Some(unnoted(alloc, answer)))
}

/// Writes and prints what a command comes to, and where it is done says what is to be said of it.
fn carry_out_noted<F: Files, O: Sink, E: Sink>(
    noted: Noted,
    files: &mut F,
    out: &mut O,
    err: &mut E,
) -> Status
    ensures status { result ≢ Status.File → result ≢ Status.Memory → result ≡ status_of noted.entry.answer }
    ensures wrote { result ≢ Status.File → result ≢ Status.Memory → IsTrue F.tells → Wrote (writes_of noted.entry.answer) (F.holds files.old) (F.holds files.new) }
    ensures printed { result ≢ Status.File → result ≢ Status.Memory → IsTrue O.tells → O.told out.new ≡ O.told out.old ++ text_of noted.entry.answer }
    ensures failing { result ≡ Status.File → (name : List ℕ) × IsFailing name noted.entry.answer F.tells O.tells (F.holds files.old) (F.holds files.new) (F.failures files.old) (F.failures files.new) (O.told out.old) (O.told out.new) (O.failures out.old) (O.failures out.new) × (IsTrue E.tells → SaysFile name (E.told err.old) (E.told err.new) (E.failures err.old) (E.failures err.new)) }
    ensures unwritten { result ≡ Status.Memory → IsTrue F.tells → F.holds files.new ≡ F.holds files.old }
    ensures unprinted { result ≡ Status.Memory → out.new ≡ out.old }
    ensures memory_said { result ≡ Status.Memory → IsTrue E.tells → IsSaid memory_line (E.told err.old) (E.told err.new) (E.failures err.old) (E.failures err.new) }
    ensures calm_files { result ≢ Status.File → F.failures files.new ≡ F.failures files.old }
    ensures calm_output { result ≢ Status.File → O.failures out.new ≡ O.failures out.old }
    ensures quiet { result ≡ Status.Done → string_bytes noted.entry.note ≡ [] → err.new ≡ err.old }
    ensures noted { result ≡ Status.Done → IsTrue E.tells → IsSaid (string_bytes noted.entry.note) (E.told err.old) (E.told err.new) (E.failures err.old) (E.failures err.new) }
    ensures explained { result ≡ Status.Refused → IsTrue E.tells → IsSaid (why_line noted.entry.answer) (E.told err.old) (E.told err.new) (E.failures err.old) (E.failures err.new) }
{
    let status = carry_out(noted.answer, files, out, err);
    if status == Status::Done {
        tell_note(noted.note.as_str(), err);
    }
    status
}

/// Says a note, or nothing where there is none.
fn tell_note<E: Sink>(note: &str, err: &mut E)
    ensures quiet { note.now ≡ [] → err.new ≡ err.old }
    ensures said { IsTrue E.tells → IsSaid note.now (E.told err.old) (E.told err.new) (E.failures err.old) (E.failures err.new) }
{
    if note.is_empty() {
        return;
    }
    // a fault of standard error changes no status
    let _ = put_all(err, note.as_bytes());
}

/// Says what is wrong with words that ask for nothing, or that memory was refused.
fn refuse_words<'a, E: Sink>(alloc: Global, words: &'a [&'a str], err: &mut E) -> Status
    ensures status { (result ≡ Status.Usage) ⊎ (result ≡ Status.Memory) }
    ensures usage_said { result ≡ Status.Usage → IsTrue E.tells → SaysText (E.told err.old) (E.told err.new) (E.failures err.old) (E.failures err.new) }
    ensures memory_said { result ≡ Status.Memory → IsTrue E.tells → IsSaid memory_line (E.told err.old) (E.told err.new) (E.failures err.old) (E.failures err.new) }
{
    match usage_text(alloc, words) {
        Ok(text) => {
            let _ = put_all(err, text.as_bytes());
            Status::Usage
        }
        Err(_) => tell_fault(Fault::NoMemory, err),
    }
}

/// Writes and prints what a command comes to.
fn run_command<'a, R: Threads + Wait + Sync, F: Files, O: Sink, E: Sink, P: Pace>(
    rt: &R,
    alloc: Global,
    words: &'a [&'a str],
    command: Command,
    files: &mut F,
    out: &mut O,
    err: &mut E,
    pace: &P,
) -> Status
    requires { HasFew command }
    ensures done { result ≡ Status.Done → IsTrue F.tells → Does command.entry Status.Done O.tells (F.holds files.old) (F.holds files.new) (O.told out.old) (O.told out.new) }
    ensures refused { result ≡ Status.Refused → IsTrue F.tells → Does command.entry Status.Refused O.tells (F.holds files.old) (F.holds files.new) (O.told out.old) (O.told out.new) }
    ensures failing { result ≡ Status.File → (name : List ℕ) × Fails command.entry name F.tells O.tells (F.holds files.old) (F.holds files.new) (F.failures files.old) (F.failures files.new) (O.told out.old) (O.told out.new) (O.failures out.old) (O.failures out.new) × (IsTrue E.tells → SaysFile name (E.told err.old) (E.told err.new) (E.failures err.old) (E.failures err.new)) }
    ensures silent { (result ≡ Status.Usage) ⊎ (result ≡ Status.Memory) → IsTrue F.tells → IsKept (F.holds files.old) (F.holds files.new) (O.told out.old) (O.told out.new) }
    ensures usage_said { result ≡ Status.Usage → IsTrue E.tells → SaysText (E.told err.old) (E.told err.new) (E.failures err.old) (E.failures err.new) }
    ensures memory_said { result ≡ Status.Memory → IsTrue E.tells → IsSaid memory_line (E.told err.old) (E.told err.new) (E.failures err.old) (E.failures err.new) }
    ensures quiet { result ≡ Status.Done → IsMine command.entry ⊎ (err.new ≡ err.old) }
    ensures noted { result ≡ Status.Done → IsTrue E.tells → SaysNote (E.told err.old) (E.told err.new) (E.failures err.old) (E.failures err.new) }
    ensures explained { result ≡ Status.Refused → IsTrue E.tells → SaysText (E.told err.old) (E.told err.new) (E.failures err.old) (E.failures err.new) }
    ensures calm_files { (result ≡ Status.Done) ⊎ (result ≡ Status.Refused) → F.failures files.new ≡ F.failures files.old }
    ensures calm_output { (result ≡ Status.Done) ⊎ (result ≡ Status.Refused) → O.failures out.new ≡ O.failures out.old }
    ensures asked { result ≡ Status.Usage → MayMiss command.entry }
    ensures missed { result ≡ Status.Usage → IsTrue F.tells → Misses command.entry (F.holds files.old) }
{
    match answer_of(rt, alloc, command, files, pace) {
        Ok(Some(noted)) => carry_out_noted(noted, files, out, err),
        Ok(None) => refuse_words(alloc, words, err),
        Err(fault) => tell_fault(fault, err),
    }
}

/// Runs one line of words and gives its status: 0 done, 1 refused, 2 where the words ask for nothing, for a call that is not there, or to deploy a world
/// whose file is there, 3 where a file or the output failed, 4 where memory was refused. Answers and refusals go to `out`, and what explains a refusal or is wrong else is said to
/// `err`, whose own failures change no status: a text that ends with a newline with status 1, which is the sentence of the refusal, and with 2; with 3
/// `file NAME` of the file that failed, where nothing else did (`file stdout` for the output), and in a line behind it why, where that is known; `memory` with 4.
/// With 0 nothing is said, but by `mine` a line for each way in which calls of the block ended that did not return.
/// All that is written and printed is made before the first write. The pace is told each step of the workers of `mine` and `validate`, and of
/// `debug` for how much fuel at most calls of a block run before.
pub fn run_line<'a, R: Threads + Wait + Sync, F: Files, O: Sink, E: Sink, P: Pace>(
    rt: &R,
    alloc: Global,
    words: &'a [&'a str],
    files: &mut F,
    out: &mut O,
    err: &mut E,
    pace: &P,
) -> Status
    ensures done { result ≡ Status.Done → (c : Asked) × Says (map (λ w. w.now) words.entry.now) c × (IsTrue F.tells → Does c Status.Done O.tells (F.holds files.old) (F.holds files.new) (O.told out.old) (O.told out.new)) }
    ensures refused { result ≡ Status.Refused → (c : Asked) × Says (map (λ w. w.now) words.entry.now) c × (IsTrue F.tells → Does c Status.Refused O.tells (F.holds files.old) (F.holds files.new) (O.told out.old) (O.told out.new)) }
    ensures usage { result ≡ Status.Usage → ((c : Asked) → ¬ Says (map (λ w. w.now) words.entry.now) c) ⊎ ((c : Asked) × Says (map (λ w. w.now) words.entry.now) c × MayMiss c × (IsTrue F.tells → Misses c (F.holds files.old))) }
    ensures failing { result ≡ Status.File → (c : Asked) × Says (map (λ w. w.now) words.entry.now) c × ((name : List ℕ) × Fails c name F.tells O.tells (F.holds files.old) (F.holds files.new) (F.failures files.old) (F.failures files.new) (O.told out.old) (O.told out.new) (O.failures out.old) (O.failures out.new) × (IsTrue E.tells → SaysFile name (E.told err.old) (E.told err.new) (E.failures err.old) (E.failures err.new))) }
    ensures silent { (result ≡ Status.Usage) ⊎ (result ≡ Status.Memory) → IsTrue F.tells → IsKept (F.holds files.old) (F.holds files.new) (O.told out.old) (O.told out.new) }
    ensures usage_said { result ≡ Status.Usage → IsTrue E.tells → SaysText (E.told err.old) (E.told err.new) (E.failures err.old) (E.failures err.new) }
    ensures memory_said { result ≡ Status.Memory → IsTrue E.tells → IsSaid memory_line (E.told err.old) (E.told err.new) (E.failures err.old) (E.failures err.new) }
    ensures quiet { result ≡ Status.Done → ((c : Asked) × Says (map (λ w. w.now) words.entry.now) c × IsMine c) ⊎ (err.new ≡ err.old) }
    ensures noted { result ≡ Status.Done → IsTrue E.tells → SaysNote (E.told err.old) (E.told err.new) (E.failures err.old) (E.failures err.new) }
    ensures explained { result ≡ Status.Refused → IsTrue E.tells → SaysText (E.told err.old) (E.told err.new) (E.failures err.old) (E.failures err.new) }
    ensures calm_files { (result ≡ Status.Done) ⊎ (result ≡ Status.Refused) → F.failures files.new ≡ F.failures files.old }
    ensures calm_output { (result ≡ Status.Done) ⊎ (result ≡ Status.Refused) → O.failures out.new ≡ O.failures out.old }
{
    if let Some(command) = watched_command(words) {
        return run_command(rt, alloc, words, command, files, out, err, pace);
    }
    let Ok(split) = split_words(alloc, words) else {
        return tell_fault(Fault::NoMemory, err);
    };
    let Some(line) = split else {
        return refuse_words(alloc, words, err);
    };
    match command_of(alloc, &line) {
        Ok(Some(command)) => run_command(rt, alloc, words, command, files, out, err, pace),
        Ok(None) => refuse_words(alloc, words, err),
        Err(AllocError) => tell_fault(Fault::NoMemory, err),
    }
}
