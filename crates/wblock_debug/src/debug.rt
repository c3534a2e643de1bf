//! The command `debug WORLD CALLS CALL CMD... [--block BLOCK [--fuel N]] [--json] [--signed]`: a call that runs alone over a world, or over the cells that it meets in a block, turn by
//! turn, and what is read of its states.

ghost use Rattle.std.specs.Prelude.{◌≡◌, ◌≤◌, ◌<◌, ◌^◌, IsTrue, IfOk, IfErr, OnOk, MatchOption, Some, length, slice_get, string_bytes};
ghost use Rattle.world.specs.Views.{world_view};
ghost use Rattle.wblock_line.specs.Answers.{CountsFault, IsOfFile};
ghost use Rattle.wblock_debug.specs.Lines.{left_line};
ghost use Rattle.wblock_debug.specs.Debugs.{IsText, TellsAbsent, TellsCall, TellsOfBlock, TellsListed, IsBlockName, IsNextRead, IsNotListed, Debugs};

use crate::{Debugging, Printed, debug_call, met_by};
use block_judge::JudgeRefusal;
use call::Call;
use pace::Pace;
use spec_ledger::Version;
use std::alloc::{AllocError, Global};
use storage::Cells;
use wblock_io::Files;
use wblock_line::{Answer, Fault, Inputs, read_file, read_inputs, refuse, reject};
use world::World;
use wtypes::NoMemory;

/// The answer that prints the lines of the commands.
fn answer_of<'a>(alloc: Global, printed: Printed) -> Answer<'a>
    ensures { IsText printed.refused (string_bytes printed.text) result }
{
    if printed.refused {
        Answer::Refused(printed.text, printed.why)
    } else {
        Answer::Done(Vec::new(alloc), printed.text)
    }
}

/// What the commands print of a call over these cells, by the rules of this version.
fn debug_over<'a>(
    alloc: Global,
    world: &World,
    cells: &Cells,
    call: &Call,
    task: &Debugging,
    version: Version,
) -> Result<Answer<'a>, NoMemory>
    ensures { IfOk result (TellsCall version (world_view world.now) cells.now.cells call.now task.now) }
{
    let printed = debug_call(
        alloc,
        world.contracts(),
        cells,
        call,
        &task.commands,
        version,
        task.style,
    )?;
    Ok(answer_of(alloc, printed))
}

/// The line that the block has no call of this number, and a sentence.
fn absent_lines(alloc: Global, number: u64) -> Result<(String, String), AllocError>
    ensures { IfOk result (λ told. string_bytes told.0 ≡ left_line number) }
{
    let line = format!(in alloc; "refused left {number}\n")?;
    let why = format!(in alloc;
        "block: call {number} does not stand in it; without --block the call runs alone over WORLD"
    )?;
    Ok((line, why))
}

/// The answer that the block has no call of this number.
fn absent<'a>(alloc: Global, json: bool, number: u64) -> Result<Answer<'a>, NoMemory>
    ensures { IfOk result (TellsAbsent json number) }
{
    let (line, why) = absent_lines(alloc, number)?;
    match refuse(alloc, json, line, why) {
        Ok(answer) => Ok(answer),
        Err(_) => Err(NoMemory),
    }
}

/// What the commands print of the call of the task's number over the cells that it meets in the block of these bytes.
fn debug_in_block<'a, P: Pace>(
    alloc: Global,
    world: &World,
    calls: &[Call],
    call: &Call,
    task: &Debugging,
    bytes: &[u8],
    pace: &P,
) -> Result<Answer<'a>, NoMemory>
    requires few { length calls.now ≤ 65535 }
    requires number { task.now.call < 2 ^ 32 }
    ensures { IfOk result (TellsOfBlock (world_view world.now) calls.now call.now task.now bytes.now) }
{
    match met_by(
        alloc,
        world,
        calls,
        task.fuel,
        bytes,
        task.call as u32,
        pace,
    ) {
        Ok(Some(met)) => Ok(debug_over(alloc, world, &met.cells, call, task, met.version)?),
        Ok(None) => Ok(absent(alloc, task.style.json, task.call)?),
        Err(JudgeRefusal::Rejected(reason)) => Ok(reject(alloc, task.style.json, bytes, reason)?),
        Err(JudgeRefusal::NoMemory) => Err(NoMemory),
    }
}

/// What the commands print of this call of the list: alone over the world, by the rules of version 2, by which calls are mined; or in the block that the
/// task names.
fn debug_listed<'a, F: Files, P: Pace>(
    alloc: Global,
    files: &mut F,
    world: &World,
    calls: &[Call],
    call: &Call,
    task: &Debugging<'a>,
    pace: &P,
) -> Result<Answer<'a>, Fault<'a>>
    requires few { length calls.now ≤ 65535 }
    requires listed { slice_get calls.now task.now.call ≡ Some call.now }
    ensures answers { IfOk result (λ a. IsTrue F.tells → TellsListed (F.holds files.old) (world_view world.now) calls.now call.now task.now task.now.block a) }
    ensures kept { IsTrue F.tells → F.holds files.new ≡ F.holds files.old }
    ensures calm { OnOk result (F.failures files.new ≡ F.failures files.old) }
    ensures counted { IfErr result (λ f. CountsFault f (F.failures files.old) (F.failures files.new)) }
    ensures next { IfErr result (IsOfFile (IsBlockName task.now.block)) }
{
    let Some(name) = task.block else {
        return match debug_over(alloc, world, world.cells(), call, task, Version::Two) {
            Ok(answer) => Ok(answer),
            Err(NoMemory) => Err(Fault::NoMemory),
        };
    };
    let bytes = match read_file(alloc, files, name) {
        Ok(bytes) => bytes,
        Err(fault) => return Err(fault),
    };
    match debug_in_block(alloc, world, calls, call, task, &bytes, pace) {
        Ok(answer) => Ok(answer),
        Err(NoMemory) => Err(Fault::NoMemory),
    }
}

/// What `debug` comes to: a line for each command, or as JSON a line with an object, read off the states of the call alone over the world, or, where a block is named, over the cells that the
/// calls before it leave in the block's order, by the rules of the block's version; or why the world, the calls or the block are
/// refused, that the block has no such call, or why the call does not start. None where there is no call of this number. No file is written. Before the
/// calls of a block run, the pace is told for how much fuel at most.
pub fn debug_world<'a, F: Files, P: Pace>(
    alloc: Global,
    files: &mut F,
    task: &Debugging<'a>,
    pace: &P,
) -> Result<Option<Answer<'a>>, Fault<'a>>
    ensures answers { IfOk result (λ found. IsTrue F.tells → MatchOption found (IsNotListed (F.holds files.old) task.now) (Debugs (F.holds files.old) task.now)) }
    ensures kept { IsTrue F.tells → F.holds files.new ≡ F.holds files.old }
    ensures calm { OnOk result (F.failures files.new ≡ F.failures files.old) }
    ensures counted { IfErr result (λ f. CountsFault f (F.failures files.old) (F.failures files.new)) }
    ensures next { IfErr result (IsOfFile (λ name. IsTrue F.tells → IsNextRead (F.holds files.old) task.now name)) }
{
    let (world, calls) = match read_inputs(alloc, files, task.world, task.calls)? {
        Inputs::Read(world, calls) => (world, calls),
        Inputs::Refused(line, why) => {
            let refused = refuse(alloc, task.style.json, line, why)?;
            return Ok(Some(refused));
        }
    };
    let list = calls.as_slice();
    let Some(call) = list.get(task.call as usize) else {
        return Ok(None);
    };
    match debug_listed(alloc, files, &world, list, call, task, pace) {
        Ok(answer) => Ok(Some(answer)),
        Err(fault) => Err(fault),
    }
}
