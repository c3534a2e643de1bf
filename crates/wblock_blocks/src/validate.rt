//! The command `validate WORLD CALLS BLOCK --fuel N [--workers 4] [--boosted] [--next NEXT] [--json]`: the verdict on a block of calls over a world, and the world after
//! the block.

ghost use Rattle.std.specs.Prelude.{◌≡◌, ◌≤◌, IsTrue, IfOk, IfErr, OnOk, length, string_bytes};
ghost use Rattle.serde_json.specs.View.{view};
ghost use Rattle.spec_block.specs.Verdicts.{IsVerdictOf};
ghost use Rattle.validator.specs.VerdictsFound.{verdict_view};
ghost use Rattle.world.specs.Views.{world_view};
ghost use Rattle.wblock_line.specs.Answers.{CountsFault, IsOfFile, upshot_of};
ghost use Rattle.wblock_line.specs.Transitions.{leaving, next_write, WritesBeside};
ghost use Rattle.wblock_json.specs.Json.{IsJson, IsLineOf};
ghost use Rattle.wblock_blocks.specs.Objects.{accept_data};
ghost use Rattle.wblock_blocks.specs.Validates.{accept_text, next_writes, IsAcceptText, TellsVerdict, Validates, ValidatesOver, IsNextFile};

use call::Call;
use pace::{Pace, Watched};
use serde_json::{Value as Json, json};
use std::alloc::Global;
use std::sync::Wait;
use std::thread::Threads;
use validator::{Verdict, validate};
use wblock_io::Files;
use wblock_json::{digest_of, value_line};
use wblock_line::{
    Answer, Change, Fault, Inputs, NextWorld, Noted, Transition, read_file, read_inputs, refuse,
    rejection_of, with_world,
};
use world::{World, digest_world};
use wtypes::NoMemory;

/// What is to be validated.
#[derive(Clone, Copy, Debug)]
pub struct Validation<'a> {
    /// The name of the file of the world.
    pub world: &'a str,
    /// The name of the file of the calls.
    pub calls: &'a str,
    /// The name of the file of the block.
    pub block: &'a str,
    /// The block's fuel.
    pub fuel: u64,
    /// How many workers run the calls, 1 to 64.
    pub workers: u32,
    /// Whether workers over cells that they share run the calls, each once those that it waits for have ended, as the papers describe it.
    pub boosted: bool,
    /// The name of the file that is to hold the world after the block where it is accepted, if any.
    pub next: Option<&'a str>,
    /// Whether it is told as JSON.
    pub json: bool,
}

/// The verdict on the bytes of a block.
fn judge<R: Threads + Wait + Sync, P: Pace>(
    rt: &R,
    alloc: Global,
    world: &World,
    calls: &[Call],
    task: Validation,
    bytes: &[u8],
    pace: &P,
) -> Result<Verdict, NoMemory>
    requires calls { length calls.now ≤ 65535 }
    requires workers { (1 ≤ task.workers) × (task.workers ≤ 64) }
    ensures { IfOk result (λ verdict. IsVerdictOf (world_view world.now) calls.now task.entry.fuel bytes.now (verdict_view verdict)) }
{
    let watches = task.boosted;
    validate(
        rt,
        alloc,
        world,
        calls,
        task.fuel,
        bytes,
        task.workers,
        &Watched { pace, watches },
    )
}

/// `accept`, and the digest of the world after the block.
fn accept_text_of(alloc: Global, next: &World) -> Result<String, NoMemory>
    ensures { IfOk result (λ text. string_bytes text ≡ accept_text (world_view next.now)) }
{
    let digest = digest_world(alloc, next)?;
    let after = hex::encode(alloc, digest)?;
    let text = format!(in alloc; "accept\nafter {after}\n")?;
    Ok(text)
}

/// The digest of the world after the block, as JSON.
#[tactic(auto, unfolding(crate::specs::Objects::accept_data))]
fn accept_of(alloc: Global, next: &World) -> Result<Json, NoMemory>
    ensures { IfOk result (λ v. view v ≡ accept_data (world_view next.now)) }
{
    let digest = digest_world(alloc, next)?;
    let after = digest_of(alloc, &digest)?;
    let accept = json!(in alloc; {
        "verdict": "accept",
        "reason": null,
        "place": null,
        "sentence": null,
        "after": after,
    })?;
    Ok(accept)
}

/// The line of the digest of the world after the block, as JSON.
fn accept_json_of(alloc: Global, next: &World) -> Result<String, NoMemory>
    ensures { IfOk result (λ text. IsLineOf (IsJson (accept_data (world_view next.now))) (string_bytes text)) }
{
    let value = accept_of(alloc, next)?;
    let line = value_line(alloc, &value)?;
    Ok(line)
}

/// What is printed of a block that is accepted.
fn accept_told(alloc: Global, json: bool, next: &World) -> Result<String, NoMemory>
    ensures { IfOk result (λ text. IsAcceptText json (world_view next.now) (string_bytes text)) }
{
    if json {
        accept_json_of(alloc, next)
    } else {
        accept_text_of(alloc, next)
    }
}

/// The world after a block that is accepted, which is to be written where a file is named for it.
fn next_of<'a>(name: Option<&'a str>, world: World) -> Option<NextWorld<'a>>
    ensures { next_write result ≡ next_writes name.entry (world_view world) }
{
    match name {
        Some(name) => Some(NextWorld { name, world }),
        None => None,
    }
}

/// What tells a verdict on these bytes, and leaves the world after a block that is accepted where a file is named for it.
#[tactic(auto, using(crate::proofs::Rejected::tells))]
fn tell<'a>(
    alloc: Global,
    json: bool,
    name: Option<&'a str>,
    bytes: &[u8],
    verdict: Verdict,
) -> Result<Transition<'a>, NoMemory>
    ensures tells { IfOk result (λ t. TellsVerdict json name.entry (verdict_view verdict) (leaving t)) }
    ensures beside { IfOk result (WritesBeside 0) }
{
    match verdict {
        Verdict::Accept(next) => {
            let text = accept_told(alloc, json, &next)?;
            Ok(Transition::Done(Change {
                writes: Vec::new(alloc),
                next: next_of(name, next),
                text,
                note: String::new(alloc),
            }))
        }
        Verdict::Reject(reason) => {
            let (line, why) = rejection_of(alloc, json, bytes, reason)?;
            Ok(Transition::Refused(line, why))
        }
    }
}

/// What `validate` comes to over a world, calls and the bytes of a block: `accept` and the digest of the world after the block, which is left to be
/// written where a file is named for it, or `reject` with the first of the nine reasons that holds. The pace is told the steps of the workers; what it
/// says of watching is not asked, since the task says it. Of the files' names only that of the world after the block is looked at.
///
/// # Errors
///
/// Memory was refused.
pub fn validate_over<'a, R: Threads + Wait + Sync, P: Pace>(
    rt: &R,
    alloc: Global,
    world: &World,
    calls: &[Call],
    bytes: &[u8],
    task: Validation<'a>,
    pace: &P,
) -> Result<Transition<'a>, NoMemory>
    requires calls { length calls.now ≤ 65535 }
    requires workers { (1 ≤ task.workers) × (task.workers ≤ 64) }
    ensures validates { IfOk result (λ t. ValidatesOver (world_view world.now) calls.now bytes.now task.entry (leaving t)) }
    ensures beside { IfOk result (WritesBeside 0) }
{
    let verdict = judge(rt, alloc, world, calls, task, bytes, pace)?;
    tell(alloc, task.json, task.next, bytes, verdict)
}

/// The same, with the bytes of the world after the block.
fn validate_encoded<'a, R: Threads + Wait + Sync, P: Pace>(
    rt: &R,
    alloc: Global,
    world: &World,
    calls: &[Call],
    bytes: &[u8],
    task: Validation<'a>,
    pace: &P,
) -> Result<Answer<'a>, NoMemory>
    requires calls { length calls.now ≤ 65535 }
    requires workers { (1 ≤ task.workers) × (task.workers ≤ 64) }
    ensures { IfOk result (λ a. ValidatesOver (world_view world.now) calls.now bytes.now task.entry (upshot_of a)) }
{
    let transition = validate_over(rt, alloc, world, calls, bytes, task, pace)?;
    let Noted {
        answer,
        note: _note,
    } = with_world(alloc, transition)?;
    Ok(answer)
}

/// What `validate` comes to: `accept` and the digest of the world after the block, which is to be written where a file is named for it, or `reject`
/// with the first of the nine reasons that holds; or why the world or the calls are refused. It is told in lines or as JSON. No file is written yet. The pace is
/// told the steps of the workers; what it says of watching is not asked, since the command says it.
pub fn validate_block<'a, R: Threads + Wait + Sync, F: Files, P: Pace>(
    rt: &R,
    alloc: Global,
    files: &mut F,
    task: Validation<'a>,
    pace: &P,
) -> Result<Answer<'a>, Fault<'a>>
    requires workers { (1 ≤ task.workers) × (task.workers ≤ 64) }
    ensures answers { IfOk result (λ a. IsTrue F.tells → Validates (F.holds files.old) task.entry (upshot_of a)) }
    ensures kept { IsTrue F.tells → F.holds files.new ≡ F.holds files.old }
    ensures calm { OnOk result (F.failures files.new ≡ F.failures files.old) }
    ensures counted { IfErr result (λ f. CountsFault f (F.failures files.old) (F.failures files.new)) }
    ensures next { IfErr result (IsOfFile (λ name. IsTrue F.tells → IsNextFile (F.holds files.old) task.entry name)) }
{
    let (world, calls) = match read_inputs(alloc, files, task.world, task.calls)? {
        Inputs::Read(world, calls) => (world, calls),
        Inputs::Refused(line, why) => return refuse(alloc, task.json, line, why),
    };
    let bytes = read_file(alloc, files, task.block)?;
    match validate_encoded(rt, alloc, &world, &calls, &bytes, task, pace) {
        Ok(answer) => Ok(answer),
        Err(NoMemory) => Err(Fault::NoMemory),
    }
}
