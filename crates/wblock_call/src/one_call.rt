//! The command `call WORLD CONTRACT FUEL ENTRY ARG... [--json] [--signed]`: what one call comes to that runs alone over a world. Nothing is written.

ghost use Rattle.std.specs.Prelude.{◌≡◌, IsTrue, IfOk, IfErr, OnOk, string_bytes};
ghost use Rattle.world.specs.Views.{world_view};
ghost use Rattle.wblock_line.specs.Answers.{CountsFault, IsOfFile, upshot_of};
ghost use Rattle.wblock_call.specs.Calling.{Calls, TellsEffects, TellsExecution};

use crate::called::Calling;
use crate::effects::effects_text_of;
use crate::effects_json::effects_line_of;
use crate::style::Style;
use call::Call;
use serial::{Executed, execute};
use spec_execution::an_execution_has_a_read_write_set;
use spec_ledger::Version;
use std::alloc::{AllocError, Global};
use storage::Cells;
use wblock_io::Files;
use wblock_line::{Answer, Fault, WorldFile, read_world_file, refuse};
use world::World;
use wtypes::NoMemory;

/// What a call that was executed came to, in this style.
fn effects_told(
    alloc: Global,
    style: Style,
    executed: &Executed,
    before: &Cells,
    later: &Cells,
) -> Result<String, AllocError>
    ensures { IfOk result (λ text. TellsEffects style.json style.signed (record { receipt = executed.now.receipt; touched = executed.now.touched }) before.now.cells later.now.cells (string_bytes text)) }
{
    if style.json {
        effects_line_of(alloc, style.signed, executed, before, later)
    } else {
        effects_text_of(alloc, style.signed, executed, before, later)
    }
}

/// What a call comes to over the cells of a world, by the rules of version 2, by which calls are mined. The world is as it was.
///
/// # Errors
///
/// Memory was refused.
pub fn call_over<'a>(
    alloc: Global,
    style: Style,
    world: &World,
    call: &Call,
) -> Result<Answer<'a>, NoMemory>
    ensures { IfOk result (λ a. TellsExecution style (world_view world.now) call.now (upshot_of a)) }
{
    an_execution_has_a_read_write_set();
    let before = world.cells();
    before.use_invariant();
    let mut later = before.copy(alloc)?;
    let executed = execute(alloc, world.contracts(), call, &mut later, Version::Two)?;
    let text = effects_told(alloc, style, &executed, before, &later)?;
    Ok(Answer::Done(Vec::new(alloc), text))
}

/// What `call` comes to: the receipt of the call alone over the cells of the world, the locks that it asks for, and the cells that it would change; or why
/// the world is refused. It is told in the style of the task. No file is written.
pub fn call_world<'a, F: Files>(
    alloc: Global,
    files: &mut F,
    task: &Calling<'a>,
) -> Result<Answer<'a>, Fault<'a>>
    ensures answers { IfOk result (λ a. IsTrue F.tells → Calls (F.holds files.old) task.now (upshot_of a)) }
    ensures kept { IsTrue F.tells → F.holds files.new ≡ F.holds files.old }
    ensures calm { OnOk result (F.failures files.new ≡ F.failures files.old) }
    ensures counted { IfErr result (λ f. CountsFault f (F.failures files.old) (F.failures files.new)) }
    ensures named { IfErr result (IsOfFile (λ name. name ≡ task.now.world.now)) }
{
    let world = match read_world_file(alloc, files, task.world)? {
        WorldFile::Read(world) => world,
        WorldFile::Refused(line, why) => return refuse(alloc, task.style.json, line, why),
    };
    match call_over(alloc, task.style, &world, &task.call) {
        Ok(answer) => Ok(answer),
        Err(NoMemory) => Err(Fault::NoMemory),
    }
}
