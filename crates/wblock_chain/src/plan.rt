//! What a single command comes to over a session's world, before anything is written.

ghost use Rattle.std.specs.Prelude.{◌≡◌, ◌≢◌, ◌≤◌, ℕ, [], None, Some, IsTrue, IfOk, IfErr, OnOk, option_map, length, string_bytes};
ghost use Rattle.world.specs.Views.{world_view};
ghost use Rattle.wblock_line.specs.Answers.{CountsFault, IsOfFile, upshot_of, writes_of};
ghost use Rattle.wblock_line.specs.Transitions.{leaving, note_in, WritesBeside};
ghost use Rattle.wblock_line.specs.Upshots.{IsRefusalWith};
ghost use Rattle.spec_block.specs.Bytes.{world_bytes};
ghost use Rattle.wblock_io.specs.Holding.{Holding};
ghost use Rattle.wblock_commands.specs.Words.{HasFew};
ghost use Rattle.wblock_commands.specs.Does.{Reads};
ghost use Rattle.wblock_chain.specs.Plans.{FitsBeside, FitsWorld, IsLone, IsNoted, IsPlan, IsPlanned};
ghost use Rattle.wblock_chain.specs.Sessions.{standing};
ghost use Rattle.wblock_chain.specs.Words.{IsOver};

use crate::asked::CALLS_HERE;
use link::deployed::Deployed;
use pace::Pace;
use std::alloc::{AllocError, Global};
use std::sync::Wait;
use std::thread::Threads;
use wblock_blocks::{Mining, Validation, mine_over, validate_over};
use wblock_call::{Calling, call_over};
use wblock_commands::{Command, Deploying};
use wblock_io::Files;
use wblock_line::{Answer, Change, Fault, Transition, is_word, judge_calls, read_file, refuse};
use wblock_modules::{Modules, read_modules_behind};
use world::World;
use wtypes::NoMemory;

/// What is to be done over a session's world.
#[derive(Drop)]
pub(crate) enum Plan<'w> {
    /// This.
    Made(Transition<'w>),
    /// These contracts are to stand behind those of the world. It is told as JSON or in lines.
    Linked(Vec<Deployed<Global>>, bool),
}

/// What an answer comes to that leaves no world.
fn transition_of<'w>(alloc: Global, answer: Answer<'w>) -> Transition<'w>
    ensures same { leaving result ≡ upshot_of answer.entry }
    ensures beside { writes_of answer.entry ≡ [] → WritesBeside 0 result }
    ensures note { note_in result ≡ [] }
{
    match answer {
        Answer::Done(writes, text) => Transition::Done(Change {
            writes,
            next: None,
            text,
            note: String::new(alloc),
        }),
        Answer::Refused(line, why) => Transition::Refused(line, why),
    }
}

/// The same transition, of which nothing is said.
fn silent<'w>(alloc: Global, transition: Transition<'w>) -> Transition<'w>
    ensures same { leaving result ≡ leaving transition.entry }
    ensures beside { WritesBeside 0 transition.entry → WritesBeside 0 result }
    ensures note { note_in result ≡ [] }
{
    match transition {
        Transition::Done(change) => {
            let Change {
                writes,
                next,
                text,
                note: _note,
            } = change;
            Transition::Done(Change {
                writes,
                next,
                text,
                note: String::new(alloc),
            })
        }
        Transition::Refused(line, why) => Transition::Refused(line, why),
    }
}

/// The plan of what is refused with this line and this sentence, told as JSON or as the line.
fn refused<'w>(alloc: Global, json: bool, line: String, why: String) -> Result<Plan<'w>, Fault<'w>>
    ensures told { IfOk result (IsPlanned (λ t. IsRefusalWith json (string_bytes line) (leaving t))) }
    ensures beside { IfOk result (IsPlanned (WritesBeside 0)) }
    ensures note { IfOk result (IsPlanned (λ t. note_in t ≡ [])) }
    ensures fault { IfErr result (λ f. f ≡ Fault.NoMemory) }
{
    match refuse(alloc, json, line, why) {
        Ok(answer) => Ok(Plan::Made(transition_of(alloc, answer))),
        Err(fault) => Err(fault),
    }
}

/// The text of the calls of the file of this name: of those behind the line, where they are asked for.
fn text_of_calls<'w, F: Files>(
    alloc: Global,
    files: &mut F,
    _name: &str,
    _world: &World,
    calls: &'w str,
    behind: Option<Vec<u8>>,
) -> Result<Vec<u8>, Fault<'w>>
    requires { calls.now ≢ _name.now }
    ensures text { IfOk result (λ text. IsTrue F.tells → standing _name.now (world_view _world.now) (option_map (λ text. text.items) behind) None (F.holds files.old) calls.entry.now ≡ Some text.items) }
    ensures kept { IsTrue F.tells → F.holds files.new ≡ F.holds files.old }
    ensures calm { OnOk result (F.failures files.new ≡ F.failures files.old) }
    ensures counted { IfErr result (λ f. CountsFault f (F.failures files.old) (F.failures files.new)) }
    ensures named { IfErr result (IsOfFile (λ file. file ≡ calls.entry.now)) }
{
    if !is_word(calls, CALLS_HERE) {
        return read_file(alloc, files, calls);
    }
    match behind {
        Some(text) => Ok(text),
        None => read_file(alloc, files, calls),
    }
}

/// What `mine` comes to.
fn plan_mine<'w, R: Threads + Wait + Sync, F: Files, P: Pace>(
    rt: &R,
    alloc: Global,
    files: &mut F,
    _name: &str,
    world: &World,
    task: Mining<'w>,
    behind: Option<Vec<u8>>,
    pace: &P,
) -> Result<Plan<'w>, Fault<'w>>
    requires workers { (1 ≤ task.workers) × (task.workers ≤ 64) }
    requires tries { (1 ≤ task.tries) × (task.tries ≤ 16) }
    requires over { IsOver _name.now (Command.Mine task) }
    ensures plan { IfOk result (λ plan. IsTrue F.tells → IsPlan (Command.Mine task.entry) (standing _name.now (world_view world.now) (option_map (λ text. text.items) behind) None (F.holds files.old)) (world_view world.now) plan) }
    ensures beside { IfOk result (FitsBeside (Command.Mine task.entry)) }
    ensures noted { IfOk result IsNoted }
    ensures fits { IfOk result (FitsWorld (world_view world.now)) }
    ensures kept { IsTrue F.tells → F.holds files.new ≡ F.holds files.old }
    ensures calm { OnOk result (F.failures files.new ≡ F.failures files.old) }
    ensures counted { IfErr result (λ f. CountsFault f (F.failures files.old) (F.failures files.new)) }
    ensures reads { IfErr result (IsOfFile (λ file. IsTrue F.tells → Reads (Command.Mine task.entry) (standing _name.now (world_view world.now) (option_map (λ text. text.items) behind) None (F.holds files.old)) file)) }
{
    world.is_spelled();
    let text = text_of_calls(alloc, files, _name, world, task.calls, behind)?;
    match judge_calls(alloc, text.as_slice()) {
        Ok(Ok(calls)) => match mine_over(rt, alloc, world, calls.as_slice(), task, pace) {
            Ok(transition) => Ok(Plan::Made(transition)),
            Err(NoMemory) => Err(Fault::NoMemory),
        },
        Ok(Err((line, why))) => refused(alloc, task.json, line, why),
        Err(AllocError) => Err(Fault::NoMemory),
    }
}

/// What `validate` comes to.
fn plan_validate<'w, R: Threads + Wait + Sync, F: Files, P: Pace>(
    rt: &R,
    alloc: Global,
    files: &mut F,
    _name: &str,
    world: &World,
    task: Validation<'w>,
    behind: Option<Vec<u8>>,
    pace: &P,
) -> Result<Plan<'w>, Fault<'w>>
    requires workers { (1 ≤ task.workers) × (task.workers ≤ 64) }
    requires over { IsOver _name.now (Command.Validate task) }
    ensures plan { IfOk result (λ plan. IsTrue F.tells → IsPlan (Command.Validate task.entry) (standing _name.now (world_view world.now) (option_map (λ text. text.items) behind) None (F.holds files.old)) (world_view world.now) plan) }
    ensures beside { IfOk result (FitsBeside (Command.Validate task.entry)) }
    ensures noted { IfOk result IsNoted }
    ensures fits { IfOk result (FitsWorld (world_view world.now)) }
    ensures kept { IsTrue F.tells → F.holds files.new ≡ F.holds files.old }
    ensures calm { OnOk result (F.failures files.new ≡ F.failures files.old) }
    ensures counted { IfErr result (λ f. CountsFault f (F.failures files.old) (F.failures files.new)) }
    ensures reads { IfErr result (IsOfFile (λ file. IsTrue F.tells → Reads (Command.Validate task.entry) (standing _name.now (world_view world.now) (option_map (λ text. text.items) behind) None (F.holds files.old)) file)) }
{
    world.is_spelled();
    let text = text_of_calls(alloc, files, _name, world, task.calls, behind)?;
    let calls = match judge_calls(alloc, text.as_slice()) {
        Ok(Ok(calls)) => calls,
        Ok(Err((line, why))) => return refused(alloc, task.json, line, why),
        Err(AllocError) => return Err(Fault::NoMemory),
    };
    let bytes = read_file(alloc, files, task.block)?;
    match validate_over(
        rt,
        alloc,
        world,
        calls.as_slice(),
        bytes.as_slice(),
        task,
        pace,
    ) {
        Ok(transition) => Ok(Plan::Made(silent(alloc, transition))),
        Err(NoMemory) => Err(Fault::NoMemory),
    }
}

/// What `call` comes to.
fn plan_call<'w>(alloc: Global, world: &World, task: &Calling<'w>) -> Result<Plan<'w>, Fault<'w>>
    ensures plan { IfOk result (λ plan. (holds : Holding) → holds task.now.world.now ≡ Some (world_bytes (world_view world.now)) → IsPlan (Command.Call task.now) holds (world_view world.now) plan) }
    ensures beside { IfOk result (FitsBeside (Command.Call task.now)) }
    ensures noted { IfOk result IsNoted }
    ensures fits { IfOk result (FitsWorld (world_view world.now)) }
    ensures fault { IfErr result (λ f. f ≡ Fault.NoMemory) }
{
    world.is_spelled();
    match call_over(alloc, task.style, world, &task.call) {
        Ok(answer) => Ok(Plan::Made(transition_of(alloc, answer))),
        Err(NoMemory) => Err(Fault::NoMemory),
    }
}

/// What `deploy` comes to, as far as its modules are read.
fn plan_deploy<'l, 'w, F: Files>(
    alloc: Global,
    files: &mut F,
    _name: &str,
    world: &World,
    task: Deploying<'l, 'w>,
) -> Result<Plan<'w>, Fault<'w>>
    requires few { length task.modules.now ≤ 1024 }
    requires over { IsOver _name.now (Command.Deploy task) }
    ensures plan { IfOk result (λ plan. IsTrue F.tells → IsPlan (Command.Deploy task.entry) (standing _name.now (world_view world.now) None None (F.holds files.old)) (world_view world.now) plan) }
    ensures fits { IfOk result (FitsWorld (world_view world.now)) }
    ensures beside { IfOk result (FitsBeside (Command.Deploy task.entry)) }
    ensures noted { IfOk result IsNoted }
    ensures kept { IsTrue F.tells → F.holds files.new ≡ F.holds files.old }
    ensures calm { OnOk result (F.failures files.new ≡ F.failures files.old) }
    ensures counted { IfErr result (λ f. CountsFault f (F.failures files.old) (F.failures files.new)) }
    ensures reads { IfErr result (IsOfFile (λ file. IsTrue F.tells → Reads (Command.Deploy task.entry) (standing _name.now (world_view world.now) None None (F.holds files.old)) file)) }
{
    world.is_spelled();
    match read_modules_behind(alloc, files, task.json, world, task.modules)? {
        Modules::Refused(line, why) => Ok(Plan::Made(Transition::Refused(line, why))),
        Modules::Linked(contracts) => Ok(Plan::Linked(contracts, task.json)),
    }
}

/// What a single command comes to over the world of a session. Nothing is written yet. The calls behind the line are those of the file of their name.
pub(crate) fn plan_of<'l, 'w, R: Threads + Wait + Sync, F: Files, P: Pace>(
    rt: &R,
    alloc: Global,
    files: &mut F,
    _name: &str,
    world: &World,
    command: Command<'l, 'w>,
    behind: Option<Vec<u8>>,
    pace: &P,
) -> Result<Plan<'w>, Fault<'w>>
    requires few { HasFew command }
    requires over { IsOver _name.now command }
    requires lone { IsLone command (option_map (λ text. text.items) behind) }
    ensures plan { IfOk result (λ plan. IsTrue F.tells → IsPlan command.entry (standing _name.now (world_view world.now) (option_map (λ text. text.items) behind) None (F.holds files.old)) (world_view world.now) plan) }
    ensures beside { IfOk result (FitsBeside command.entry) }
    ensures noted { IfOk result IsNoted }
    ensures fits { IfOk result (FitsWorld (world_view world.now)) }
    ensures kept { IsTrue F.tells → F.holds files.new ≡ F.holds files.old }
    ensures calm { OnOk result (F.failures files.new ≡ F.failures files.old) }
    ensures counted { IfErr result (λ f. CountsFault f (F.failures files.old) (F.failures files.new)) }
    ensures reads { IfErr result (IsOfFile (λ file. IsTrue F.tells → Reads command.entry (standing _name.now (world_view world.now) (option_map (λ text. text.items) behind) None (F.holds files.old)) file)) }
{
    match command {
        Command::Mine(task) => plan_mine(rt, alloc, files, _name, world, task, behind, pace),
        Command::Validate(task) => plan_validate(
            rt, alloc, files, _name, world, task, behind, pace,
        ),
        Command::Call(task) => plan_call(alloc, world, &task),
        Command::Deploy(task) => plan_deploy(alloc, files, _name, world, task),
        _ => unreachable!(),
    }
}
