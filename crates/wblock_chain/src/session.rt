//! A session: its lines are answered one after another, over a world that it keeps.

ghost use Rattle.std.specs.Prelude.{◌≡◌, ◌≢◌, ◌+◌, ◌≤◌, ◌⊎◌, ◌++◌, ◌↔◌, ◌∷◌, ℕ, List, [], IsTrue, IsSome, IfOk, IfSome, OnErr, codes, option_map, length, map, string_bytes, vec_len};
ghost use Rattle.sha2.specs.Sha256.{sha256};
ghost use Rattle.spec_block.specs.Bytes.{world_bytes};
ghost use Rattle.world.specs.Views.{contract_view, world_view};
ghost use Rattle.wblock_line.specs.Answers.{IsSaid, file_line, memory_line, sentence_line, write_of};
ghost use Rattle.wblock_line.specs.Words.{line_of};
ghost use Rattle.wblock_line.specs.declared.perform.Status.{Status as Shown};
ghost use Rattle.wblock_commands.specs.Words.{HasFew};
ghost use Rattle.wblock_chain.specs.Answered.{AnswersAsked, AnswersLine, AnswersText, AnswersRequest, AnswersWords, AreApart, IsExtended, IsFileReply, IsNotSaved, IsSaved, IsTold, IsUsageReply, MovesOn, Quits, Settles, SettlesTransition, world_left};
ghost use Rattle.wblock_calls.specs.Words.{texts};
ghost use Rattle.wblock_chain.specs.Plans.{AreLoneWords, FitsOne, IsLone, IsLoneAsked, IsLoneLine};
ghost use Rattle.wblock_chain.specs.Requests.{AreAsked, TakesCalls};
ghost use Rattle.wblock_chain.specs.Replies.{block_line, digest_line, reply};
ghost use Rattle.wblock_chain.specs.Sessions.{HasNotBegun, IsSession, IsSessionOver, IsStopped, IsStoppedOver, IsToldInPart, RefusesWorld};
ghost use Rattle.wblock_chain.specs.Words.{IsFewAsked, IsOver, IsOverAsked};

use crate::asked::{SessionCommand, TOLD_BLOCK, line_words, session_command_of, single_line};
use crate::plan::{Plan, plan_of};
use crate::replies::{block_line_of, digest_line_of, reply_of, saved_reply_of};
use crate::request::{Request, next_request};
use crate::usage::{NOT_UTF8, TOO_LONG, usage_of};
use byte_sinks::{Sink, SinkFault, put_all};
use link::deployed::Deployed;
use pace::Pace;
use std::alloc::{AllocError, Global};
use std::sync::Wait;
use std::thread::Threads;
use wblock_commands::Command;
use wblock_io::{Cause, Files, LineFault, Lines};
use wblock_line::{
    Change, Fault, Line, NextWorld, Status, Transition, WorldFile, Write, is_word, read_world_file,
    split_words, tell_fault, write_files,
};
use wblock_modules::extend;
use world::{World, digest_world, encode_world};
use wtypes::NoMemory;

/// A session after a line, and what is answered to it.
#[derive(Drop)]
pub(crate) struct Answered {
    /// The world that it goes on with.
    pub(crate) world: World,
    /// The bytes of the answer.
    pub(crate) reply: Vec<u8>,
    /// Whether the session ends.
    pub(crate) quits: bool,
}

/// The answer that goes on with a world.
fn answer_with(
    alloc: Global,
    world: World,
    text: &str,
    said: &str,
    status: Status,
) -> Result<Answered, NoMemory>
    ensures { IfOk result (λ a. MovesOn (world_view world) text.now said.now status a) }
{
    let reply = reply_of(alloc, text, said, status)?;
    Ok(Answered {
        world,
        reply,
        quits: false,
    })
}

/// A text and a newline.
fn ended(alloc: Global, text: &str) -> Result<String, AllocError>
    ensures { IfOk result (λ line. string_bytes line ≡ text.now ++ 10 ∷ []) }
{
    format!(in alloc; "{text}\n")
}

/// The answer to a line that asks for nothing, of which this is said. The world stays.
fn refuse_line(alloc: Global, world: World, usage: &str) -> Result<Answered, NoMemory>
    ensures { IfOk result (IsUsageReply (world_view world)) }
{
    let said = ended(alloc, usage)?;
    answer_with(alloc, world, "", said.as_str(), Status::Usage)
}

/// `file NAME`.
fn file_line_of(alloc: Global, name: &str) -> Result<String, AllocError>
    ensures { IfOk result (λ said. string_bytes said ≡ file_line name.now) }
{
    format!(in alloc; "file {name}\n")
}

/// The same, and a line behind it.
fn file_lines_of(alloc: Global, name: &str, why: &str) -> Result<String, AllocError>
    ensures { IfOk result (λ said. string_bytes said ≡ file_line name.now ++ (why.now ++ 10 ∷ [])) }
{
    let line = file_line_of(alloc, name)?;
    format!(in alloc; "{line}{why}\n")
}

/// What is said of a file that failed: `file NAME`, and in a line behind it why, where that is known.
fn said_of_file(alloc: Global, name: &str, cause: Cause) -> Result<String, AllocError>
    ensures { IfOk result (λ said. (why : List ℕ) × (string_bytes said ≡ file_line name.now ++ sentence_line why)) }
{
    let why = cause.words();
    if why.is_empty() {
        return file_line_of(alloc, name);
    }
    file_lines_of(alloc, name, why)
}

/// The answer where a file failed. The world stays.
fn failed(alloc: Global, world: World, name: &str, cause: Cause) -> Result<Answered, NoMemory>
    ensures { IfOk result (IsFileReply (world_view world) name.now) }
{
    let said = said_of_file(alloc, name, cause)?;
    answer_with(alloc, world, "", said.as_str(), Status::File)
}

/// Whether the one write is of a block that is told.
fn is_told(writes: &[Write]) -> bool
    ensures { IsTrue result ↔ IsTold (map write_of writes.now) }
{
    match writes {
        [write] => is_word(write.name, TOLD_BLOCK),
        _ => false,
    }
}

/// The block's bytes, where they are told, and the files that are to be written.
fn told_apart<'w>(writes: Vec<Write<'w>>) -> (Option<Vec<u8>>, Vec<Write<'w>>)
    ensures { AreApart (map write_of writes.entry.items) (option_map (λ block. block.items) result.0) (map write_of result.1.items) }
{
    let mut writes = writes;
    if !is_told(writes.as_slice()) {
        return (None, writes);
    }
    match writes.pop() {
        Some(write) => (Some(write.bytes), writes),
        None => (None, writes),
    }
}

/// The text of a change, with the line of a block that is told.
fn text_with_block(alloc: Global, text: &str, block: &Option<Vec<u8>>) -> Result<String, AllocError>
    ensures { IfOk result (λ made. string_bytes made ≡ text.now ++ block_line (option_map (λ bytes. bytes.items) block.now)) }
{
    let line = block_line_of(alloc, block)?;
    format!(in alloc; "{text}{line}")
}

/// The answer to what is done: this text, the line of a block that is told, and what is said.
fn reply_with_block(
    alloc: Global,
    text: &str,
    block: &Option<Vec<u8>>,
    note: &str,
) -> Result<Vec<u8>, AllocError>
    ensures { IfOk result (λ bytes. bytes.items ≡ reply (text.now ++ block_line (option_map (λ bytes. bytes.items) block.now)) note.now Status.Done) }
{
    let text = text_with_block(alloc, text, block)?;
    reply_of(alloc, text.as_str(), note, Status::Done)
}

/// The world that is left, or else this one.
fn world_after(next: Option<NextWorld>, world: World) -> World
    ensures { world_view result ≡ world_left next.entry (world_view world) }
{
    match next {
        Some(next) => next.world,
        None => world,
    }
}

/// Writes the files of a change and goes on with the world that it leaves; or, where one fails, with the world before it. The answer is made first.
fn settle<'w, F: Files>(
    alloc: Global,
    files: &mut F,
    world: World,
    change: Change<'w>,
) -> Result<Answered, NoMemory>
    requires { vec_len change.writes ≤ 1 }
    ensures settles { IfOk result (λ a. IsTrue F.tells → Settles change.entry (F.holds files.old) (F.holds files.new) (world_view world) a) }
    ensures kept { OnErr result (IsTrue F.tells → F.holds files.new ≡ F.holds files.old) }
{
    let Change {
        writes,
        next,
        text,
        note,
    } = change;
    let (block, writes) = told_apart(writes);
    let reply = reply_with_block(alloc, text.as_str(), &block, note.as_str())?;
    match write_files(files, writes.as_slice()) {
        Ok(()) => Ok(Answered {
            world: world_after(next, world),
            reply,
            quits: false,
        }),
        Err(Fault::File(file, cause)) => failed(alloc, world, file, cause),
        Err(Fault::NoMemory) => Err(NoMemory),
    }
}

/// Does what a transition says, or tells why it is refused.
fn settle_transition<'w, F: Files>(
    alloc: Global,
    files: &mut F,
    world: World,
    transition: Transition<'w>,
) -> Result<Answered, NoMemory>
    requires { FitsOne transition }
    ensures settles { IfOk result (λ a. IsTrue F.tells → SettlesTransition transition.entry (F.holds files.old) (F.holds files.new) (world_view world) a) }
    ensures kept { OnErr result (IsTrue F.tells → F.holds files.new ≡ F.holds files.old) }
{
    match transition {
        Transition::Done(change) => settle(alloc, files, world, change),
        Transition::Refused(line, why) => {
            let said = ended(alloc, why.as_str())?;
            answer_with(alloc, world, line.as_str(), said.as_str(), Status::Refused)
        }
    }
}

/// Goes on with the world that a change leaves.
fn go_on(alloc: Global, change: Change) -> Result<Answered, NoMemory>
    requires { IsSome change.next }
    ensures { IfOk result (λ a. IfSome change.entry.next (λ next. MovesOn (world_view next.world) (string_bytes change.entry.text) [] Status.Done a)) }
{
    let Change {
        writes: _writes,
        next,
        text,
        note: _note,
    } = change;
    match next {
        Some(next) => answer_with(alloc, next.world, text.as_str(), "", Status::Done),
        None => unreachable!(),
    }
}

/// Goes on with the world that has these contracts behind its own.
fn settle_contracts(
    alloc: Global,
    json: bool,
    name: &str,
    world: World,
    contracts: Vec<Deployed<Global>>,
) -> Result<Answered, NoMemory>
    requires { length (world_view world).contracts + vec_len contracts ≤ 1024 }
    ensures { IfOk result (IsExtended json (world_view world) (map contract_view contracts.items)) }
{
    match extend(alloc, json, name, Some(name), world, contracts)? {
        Transition::Done(change) => go_on(alloc, change),
        Transition::Refused(_line, _why) => unreachable!(),
    }
}

/// The answer to a single command.
fn answer_single<'l, 'w, R: Threads + Wait + Sync, F: Files, P: Pace>(
    rt: &R,
    alloc: Global,
    files: &mut F,
    name: &'w str,
    world: World,
    command: Command<'l, 'w>,
    behind: Option<Vec<u8>>,
    pace: &P,
) -> Result<Answered, NoMemory>
    requires few { HasFew command }
    requires over { IsOver name.now command }
    requires lone { IsLone command (option_map (λ text. text.items) behind) }
    ensures answer { IfOk result (λ a. IsTrue F.tells → AnswersAsked name.entry.now (SessionCommand.Single command.entry) (option_map (λ text. text.items) behind) (F.holds files.old) (F.holds files.new) (world_view world) a) }
    ensures kept { OnErr result (IsTrue F.tells → F.holds files.new ≡ F.holds files.old) }
{
    match plan_of(rt, alloc, files, name, &world, command, behind, pace) {
        Ok(Plan::Made(transition)) => settle_transition(alloc, files, world, transition),
        Ok(Plan::Linked(contracts, json)) => {
            settle_contracts(alloc, json, name, world, contracts)
        }
        Err(Fault::File(file, cause)) => failed(alloc, world, file, cause),
        Err(Fault::NoMemory) => Err(NoMemory),
    }
}

/// The one file that is to be written.
fn one_write<'w>(alloc: Global, name: &'w str, bytes: Vec<u8>) -> Result<Vec<Write<'w>>, AllocError>
    ensures { IfOk result (λ writes. map write_of writes.items ≡ (name.entry.now, bytes.items) ∷ []) }
{
    let mut writes = Vec::new(alloc);
    writes.push(Write { name, bytes })?;
    Ok(writes)
}

/// The answer to `save FILE`.
fn answer_save<F: Files>(
    alloc: Global,
    files: &mut F,
    world: World,
    file: &str,
) -> Result<Answered, NoMemory>
    ensures saved { IfOk result (λ a. IsTrue F.tells → IsSaved file.now (F.holds files.old) (F.holds files.new) (world_view world) a ⊎ IsNotSaved file.now (F.holds files.old) (F.holds files.new) (world_view world) a) }
    ensures kept { OnErr result (IsTrue F.tells → F.holds files.new ≡ F.holds files.old) }
{
    let bytes = encode_world(alloc, &world)?;
    let reply = saved_reply_of(alloc, bytes.as_slice())?;
    let writes = one_write(alloc, file, bytes)?;
    match write_files(files, writes.as_slice()) {
        Ok(()) => Ok(Answered {
            world,
            reply,
            quits: false,
        }),
        Err(Fault::File(_file, cause)) => failed(alloc, world, file, cause),
        Err(Fault::NoMemory) => Err(NoMemory),
    }
}

/// The answer to `digest`. The world keeps its digest from here on.
fn answer_digest(alloc: Global, world: World) -> Result<Answered, NoMemory>
    ensures { IfOk result (MovesOn (world_view world) (digest_line (sha256 (world_bytes (world_view world)))) [] Status.Done) }
{
    let digest = digest_world(alloc, &world)?;
    let text = digest_line_of(alloc, digest)?;
    let known = world.with_digest(digest);
    answer_with(alloc, known, text.as_str(), "", Status::Done)
}

/// The answer to `quit`.
fn answer_quit(alloc: Global, world: World) -> Result<Answered, NoMemory>
    ensures { IfOk result (Quits (world_view world)) }
{
    let reply = reply_of(alloc, "", "", Status::Done)?;
    Ok(Answered {
        world,
        reply,
        quits: true,
    })
}

/// The answer to a command of a session.
fn answer_command<'l, 'w, R: Threads + Wait + Sync, F: Files, P: Pace>(
    rt: &R,
    alloc: Global,
    files: &mut F,
    name: &'w str,
    world: World,
    command: SessionCommand<'l, 'w>,
    behind: Option<Vec<u8>>,
    pace: &P,
) -> Result<Answered, NoMemory>
    requires few { IsFewAsked command }
    requires over { IsOverAsked name.now command }
    requires lone { IsLoneAsked command (option_map (λ text. text.items) behind) }
    ensures answer { IfOk result (λ a. IsTrue F.tells → AnswersAsked name.entry.now command.entry (option_map (λ text. text.items) behind) (F.holds files.old) (F.holds files.new) (world_view world) a) }
    ensures kept { OnErr result (IsTrue F.tells → F.holds files.new ≡ F.holds files.old) }
{
    match command {
        SessionCommand::Single(command) => {
            answer_single(rt, alloc, files, name, world, command, behind, pace)
        }
        SessionCommand::Save(file) => answer_save(alloc, files, world, file),
        SessionCommand::Digest => answer_digest(alloc, world),
        SessionCommand::Quit => answer_quit(alloc, world),
    }
}

/// The answer to a line; or what is said of it, where it asks for nothing.
fn answer_line<'w, R: Threads + Wait + Sync, F: Files, P: Pace>(
    rt: &R,
    alloc: Global,
    files: &mut F,
    name: &'w str,
    world: World,
    line: &Line<'w>,
    usage: &str,
    behind: Option<Vec<u8>>,
    pace: &P,
) -> Result<Answered, NoMemory>
    requires lone { IsLoneLine name.now (line_of line.now) (option_map (λ text. text.items) behind) }
    ensures answer { IfOk result (λ a. IsTrue F.tells → AnswersLine name.entry.now (line_of line.now) (option_map (λ text. text.items) behind) (F.holds files.old) (F.holds files.new) (world_view world) a) }
    ensures kept { OnErr result (IsTrue F.tells → F.holds files.new ≡ F.holds files.old) }
{
    let single = single_line(alloc, name, line)?;
    match session_command_of(alloc, name, line, &single)? {
        Some(command) => answer_command(rt, alloc, files, name, world, command, behind, pace),
        None => refuse_line(alloc, world, usage),
    }
}

/// The answer to a line of these words.
fn answer_words<'w, R: Threads + Wait + Sync, F: Files, P: Pace>(
    rt: &R,
    alloc: Global,
    files: &mut F,
    name: &'w str,
    world: World,
    words: &'w [&'w str],
    behind: Option<Vec<u8>>,
    pace: &P,
) -> Result<Answered, NoMemory>
    requires lone { AreLoneWords name.now (texts words.now) (option_map (λ text. text.items) behind) }
    ensures answer { IfOk result (λ a. IsTrue F.tells → AnswersWords name.entry.now (texts words.entry.now) (option_map (λ text. text.items) behind) (F.holds files.old) (F.holds files.new) (world_view world) a) }
    ensures kept { OnErr result (IsTrue F.tells → F.holds files.new ≡ F.holds files.old) }
{
    let usage = usage_of(words);
    match split_words(alloc, words)? {
        Some(line) => answer_line(rt, alloc, files, name, world, &line, usage, behind, pace),
        None => refuse_line(alloc, world, usage),
    }
}

/// The answer to a line that is a text.
fn answer_text<R: Threads + Wait + Sync, F: Files, P: Pace>(
    rt: &R,
    alloc: Global,
    files: &mut F,
    name: &str,
    world: World,
    text: &str,
    behind: Option<Vec<u8>>,
    pace: &P,
) -> Result<Answered, NoMemory>
    requires asked { AreAsked text.now (option_map (λ text. text.items) behind) }
    ensures answer { IfOk result (λ a. IsTrue F.tells → AnswersText name.now text.now (option_map (λ text. text.items) behind) (F.holds files.old) (F.holds files.new) (world_view world) a) }
    ensures kept { OnErr result (IsTrue F.tells → F.holds files.new ≡ F.holds files.old) }
{
    let line = line_words(alloc, text)?;
    answer_words(rt, alloc, files, name, world, line.as_slice(), behind, pace)
}

/// The answer to a line with the calls behind it.
fn answer<R: Threads + Wait + Sync, F: Files, P: Pace>(
    rt: &R,
    alloc: Global,
    files: &mut F,
    name: &str,
    world: World,
    request: Request,
    pace: &P,
) -> Result<Answered, NoMemory>
    requires { TakesCalls request }
    ensures answer { IfOk result (λ a. IsTrue F.tells → AnswersRequest name.now request (F.holds files.old) (F.holds files.new) (world_view world) a) }
    ensures kept { OnErr result (IsTrue F.tells → F.holds files.new ≡ F.holds files.old) }
{
    match request {
        Request::Text(text, behind) => {
            answer_text(rt, alloc, files, name, world, text.as_str(), behind, pace)
        }
        Request::TooLong => refuse_line(alloc, world, TOO_LONG),
        Request::NotUtf8 => refuse_line(alloc, world, NOT_UTF8),
    }
}

/// Puts bytes, or a beginning of them where a call fails: a fault of the output changes no status here.
fn put_in_part<O: Sink>(out: &mut O, bytes: &[u8])
    ensures { IsTrue O.tells → IsToldInPart bytes.now (O.told out.old) (O.told out.new) }
{
    let _ = put_all(out, bytes);
}

/// Ends a session for lack of memory. This takes none.
fn end_for_memory<O: Sink, E: Sink>(out: &mut O, err: &mut E) -> Status
    ensures status { result ≡ Status.Memory }
    ensures told { IsTrue O.tells → IsToldInPart (reply [] memory_line Status.Memory) (O.told out.old) (O.told out.new) }
    ensures said { IsTrue E.tells → IsSaid memory_line (E.told err.old) (E.told err.new) (E.failures err.old) (E.failures err.new) }
{
    put_in_part(out, b"# memory\nstatus 4\n");
    tell_fault(Fault::NoMemory, err)
}

/// Ends a session whose input failed. This takes no memory.
fn end_for_input<O: Sink, E: Sink>(out: &mut O, err: &mut E) -> Status
    ensures status { result ≡ Status.File }
    ensures told { IsTrue O.tells → IsToldInPart (reply [] (file_line (codes "stdin")) Status.File) (O.told out.old) (O.told out.new) }
{
    put_in_part(out, b"# file stdin\nstatus 3\n");
    tell_fault(Fault::File("stdin", Cause::Other), err)
}

/// Answers lines up to `quit` or to their end, over this world.
fn run_over<R: Threads + Wait + Sync, F: Files, L: Lines, O: Sink, E: Sink, P: Pace>(
    rt: &R,
    alloc: Global,
    name: &str,
    files: &mut F,
    lines: &mut L,
    out: &mut O,
    err: &mut E,
    world: World,
    pace: &P,
) -> Status
    ensures done { result ≡ Status.Done → IsTrue F.tells → IsTrue L.tells → IsTrue O.tells → IsSessionOver name.now (world_view world) (L.coming lines.old) (F.holds files.old) (F.holds files.new) (O.told out.old) (O.told out.new) }
    ensures stopped { (result ≡ Status.File) ⊎ (result ≡ Status.Memory) → IsTrue F.tells → IsTrue L.tells → IsTrue O.tells → IsStoppedOver name.now (world_view world) (L.coming lines.old) result (F.holds files.old) (F.holds files.new) (O.told out.old) (O.told out.new) }
    ensures ended { (result ≡ Status.Done) ⊎ ((result ≡ Status.File) ⊎ (result ≡ Status.Memory)) }
    ensures quiet { result ≡ Status.Done → err.new ≡ err.old }
    ensures memory_said { result ≡ Status.Memory → IsTrue E.tells → IsSaid memory_line (E.told err.old) (E.told err.new) (E.failures err.old) (E.failures err.new) }
{
    let mut world = world;
    for _ in 0..u64::MAX {
        let request = match next_request(alloc, lines) {
            Ok(Some(request)) => request,
            Ok(None) => return Status::Done,
            Err(LineFault::Failed) => return end_for_input(out, err),
            Err(LineFault::NoMemory) => return end_for_memory(out, err),
        };
        let Ok(answered) = answer(rt, alloc, files, name, world, request, pace) else {
            return end_for_memory(out, err);
        };
        if let Err(SinkFault) = put_all(out, answered.reply.as_slice()) {
            return tell_fault(Fault::File("stdout", Cause::Other), err);
        }
        if answered.quits {
            return Status::Done;
        }
        world = answered.world;
    }
    // nobody lives to see so many lines
    end_for_input(out, err)
}

/// The answer where the file of the world failed.
fn file_reply_of(alloc: Global, name: &str, cause: Cause) -> Result<Vec<u8>, AllocError>
    ensures { IfOk result (λ bytes. (said : List ℕ) × (bytes.items ≡ reply [] said Status.File)) }
{
    let said = said_of_file(alloc, name, cause)?;
    reply_of(alloc, "", said.as_str(), Status::File)
}

/// Ends a session whose file of the world failed.
fn end_for_file<O: Sink, E: Sink>(
    alloc: Global,
    name: &str,
    cause: Cause,
    out: &mut O,
    err: &mut E,
) -> Status
    ensures status { (result ≡ Status.File) ⊎ (result ≡ Status.Memory) }
    ensures told { IsTrue O.tells → (said : List ℕ) × IsToldInPart (reply [] said result) (O.told out.old) (O.told out.new) }
    ensures memory_said { result ≡ Status.Memory → IsTrue E.tells → IsSaid memory_line (E.told err.old) (E.told err.new) (E.failures err.old) (E.failures err.new) }
{
    match file_reply_of(alloc, name, cause) {
        Ok(reply) => {
            put_in_part(out, reply.as_slice());
            tell_fault(Fault::File(name, cause), err)
        }
        Err(AllocError) => end_for_memory(out, err),
    }
}

/// Ends a session whose world could not be read.
fn end_unbegun<O: Sink, E: Sink>(alloc: Global, fault: Fault, out: &mut O, err: &mut E) -> Status
    ensures status { (result ≡ Status.File) ⊎ (result ≡ Status.Memory) }
    ensures told { IsTrue O.tells → (said : List ℕ) × IsToldInPart (reply [] said result) (O.told out.old) (O.told out.new) }
    ensures memory_said { result ≡ Status.Memory → IsTrue E.tells → IsSaid memory_line (E.told err.old) (E.told err.new) (E.failures err.old) (E.failures err.new) }
{
    match fault {
        Fault::File(name, cause) => end_for_file(alloc, name, cause, out, err),
        Fault::NoMemory => end_for_memory(out, err),
    }
}

/// The answer where the file of the world holds none.
fn refused_reply_of(alloc: Global, line: &str, why: &str) -> Result<Vec<u8>, AllocError>
    ensures { IfOk result (λ bytes. (said : List ℕ) × (bytes.items ≡ reply line.now said Status.Refused)) }
{
    let said = ended(alloc, why)?;
    reply_of(alloc, line, said.as_str(), Status::Refused)
}

/// Tells the answer of a session whose file of the world holds none.
fn tell_refused<O: Sink, E: Sink>(reply: &[u8], out: &mut O, err: &mut E) -> Status
    ensures status { (result ≡ Status.Refused) ⊎ (result ≡ Status.File) }
    ensures refused { result ≡ Status.Refused → IsTrue O.tells → O.told out.new ≡ O.told out.old ++ reply.now }
    ensures told { result ≢ Status.Refused → IsTrue O.tells → IsToldInPart reply.now (O.told out.old) (O.told out.new) }
    ensures quiet { result ≡ Status.Refused → err.new ≡ err.old }
{
    match put_all(out, reply) {
        Ok(()) => Status::Refused,
        Err(SinkFault) => tell_fault(Fault::File("stdout", Cause::Other), err),
    }
}

/// Ends a session whose file of the world holds none.
fn end_refused<O: Sink, E: Sink>(
    alloc: Global,
    line: &str,
    why: &str,
    out: &mut O,
    err: &mut E,
) -> Status
    ensures status { (result ≡ Status.Refused) ⊎ ((result ≡ Status.File) ⊎ (result ≡ Status.Memory)) }
    ensures refused { result ≡ Status.Refused → IsTrue O.tells → (said : List ℕ) × (O.told out.new ≡ O.told out.old ++ reply line.now said Status.Refused) }
    ensures told { result ≢ Status.Refused → IsTrue O.tells → (text : List ℕ) × (said : List ℕ) × (shown : Shown) × IsToldInPart (reply text said shown) (O.told out.old) (O.told out.new) }
    ensures quiet { result ≡ Status.Refused → err.new ≡ err.old }
    ensures memory_said { result ≡ Status.Memory → IsTrue E.tells → IsSaid memory_line (E.told err.old) (E.told err.new) (E.failures err.old) (E.failures err.new) }
{
    match refused_reply_of(alloc, line, why) {
        Ok(reply) => tell_refused(reply.as_slice(), out, err),
        Err(AllocError) => end_for_memory(out, err),
    }
}

/// Runs a session over the world that the file of this name holds: reads lines up to `quit` or to their end, and answers each at once. A line is a single
/// command over the files in which WORLD holds the session's world: what it writes to WORLD is the world that the session goes on with. Or it is `save FILE`,
/// `digest` or `quit`. An answer is what the command prints, then each line that it says on standard error behind `# `, and last `status N`.
///
/// The status: 0 at the end, 1 where the file of the world holds none, 3 where it failed, or the input or the output did, 4 where memory was refused. Each
/// but 0 is answered, too, as far as that can be. A line is answered whole or not done: all its memory is taken before its file is written.
pub fn run_session<R: Threads + Wait + Sync, F: Files, L: Lines, O: Sink, E: Sink, P: Pace>(
    rt: &R,
    alloc: Global,
    name: &str,
    files: &mut F,
    lines: &mut L,
    out: &mut O,
    err: &mut E,
    pace: &P,
) -> Status
    ensures done { result ≡ Status.Done → IsTrue F.tells → IsTrue L.tells → IsTrue O.tells → IsSession name.now (L.coming lines.old) (F.holds files.old) (F.holds files.new) (O.told out.old) (O.told out.new) }
    ensures refused { result ≡ Status.Refused → IsTrue F.tells → IsTrue O.tells → RefusesWorld name.now (F.holds files.old) (F.holds files.new) (O.told out.old) (O.told out.new) }
    ensures stopped { (result ≡ Status.File) ⊎ (result ≡ Status.Memory) → IsTrue F.tells → IsTrue L.tells → IsTrue O.tells → IsStopped name.now (L.coming lines.old) result (F.holds files.old) (F.holds files.new) (O.told out.old) (O.told out.new) ⊎ HasNotBegun (F.holds files.old) (F.holds files.new) (O.told out.old) (O.told out.new) }
    ensures answered { result ≢ Status.Usage }
    ensures quiet { (result ≡ Status.Done) ⊎ (result ≡ Status.Refused) → err.new ≡ err.old }
    ensures memory_said { result ≡ Status.Memory → IsTrue E.tells → IsSaid memory_line (E.told err.old) (E.told err.new) (E.failures err.old) (E.failures err.new) }
{
    match read_world_file(alloc, files, name) {
        Ok(WorldFile::Read(world)) => {
            run_over(rt, alloc, name, files, lines, out, err, world, pace)
        }
        Ok(WorldFile::Refused(line, why)) => {
            end_refused(alloc, line.as_str(), why.as_str(), out, err)
        }
        Err(fault) => end_unbegun(alloc, fault, out, err),
    }
}
