//! All commands on a call.

ghost use Rattle.std.specs.Prelude.{◌≡◌, IfOk, OnOk, MatchOption, string_bytes};
ghost use Rattle.spec_execution.specs.Configuration.{Setting};
ghost use Rattle.spec_execution.specs.Run.{ContractCall, Opening, Refused, opening};
ghost use Rattle.interp.specs.Callee.{setting_view};
ghost use Rattle.interp.specs.Starting.{IsOpened, IsRefusedFor};
ghost use Rattle.wblock_debug.specs.Prints.{IsPrinted, AddsCommand, IsNotStarted, IsDebugged};

use crate::perform::{Said, perform};
use crate::printed::Printed;
use crate::told::{refusal_told, start_told};
use call::Call;
use debugger::Contract;
use debugger::session::{Refusal, Session};
use interp::start::StartRefusal;
use spec_ledger::Version;
use std::alloc::{AllocError, Global};
use storage::Cells;
use wblock_call::Style;
use wblock_usage::Spot;
use wblock_usage::debugging::Command;
use wblock_words::entry_words;
use wtypes::NoMemory;

/// What to do about a place that there is not.
fn place_advice(command: Command<'_>) -> &'static str {
    match command {
        Command::Break(Spot::Exported(_, _)) | Command::Clear(Spot::Exported(_, _)) =>
            "name a function that the called contract exports (`show` lists them) and an instruction of its body, counted from 0",
        Command::Break(Spot::Of(_, _, _)) | Command::Clear(Spot::Of(_, _, _)) =>
            "name a contract of the world, a function, imports first, and an instruction of its body, each counted from 0",
        _ => "name a function, imports first, and an instruction of its body, each counted from 0",
    }
}

/// What to do about a command that is refused.
fn advice_on(command: Command<'_>, refusal: Refusal) -> &'static str {
    match refusal {
        Refusal::BeforeStart => "go back by fewer turns",
        Refusal::NoSuchPlace => place_advice(command),
        Refusal::OutOfRange =>
            "a page of memory has 65,536 bytes, and not each contract has a page",
        Refusal::NoMemory => "memory was refused",
    }
}

/// Why the command of this number, from 1, is refused.
fn reason_of(
    alloc: Global,
    number: usize,
    command: Command<'_>,
    refusal: Refusal,
) -> Result<String, AllocError> {
    let advice = advice_on(command, refusal);
    format!(in alloc; "command {number}: {refusal}: {advice}")
}

/// Adds why a command is refused.
fn explain(why: &mut String, reason: &str) -> Result<(), AllocError> {
    if !why.is_empty() {
        why.push_str("; ")?;
    }
    why.push_str(reason)
}

/// Does the command of this number, from 1, and appends what it prints.
fn append(
    alloc: Global,
    style: Style,
    session: &mut Session<'_, Global>,
    number: usize,
    command: Command<'_>,
    printed: &mut Printed,
) -> Result<(), NoMemory>
    ensures { OnOk result (AddsCommand style command.entry session.old session.new printed.old printed.new) }
{
    match perform(alloc, style, session, command)? {
        Said::Line(line) => {
            session.is_sight();
            printed.text.push_str(line.as_str())?;
            Ok(())
        }
        Said::Refused(refusal) => {
            let reason = reason_of(alloc, number, command, refusal)?;
            let line = refusal_told(alloc, style.json, refusal, reason.as_str())?;
            explain(&mut printed.why, reason.as_str())?;
            printed.text.push_str(line.as_str())?;
            printed.refused = true;
            Ok(())
        }
    }
}

/// Does the commands, one after another. One that is refused does not end them.
fn perform_all(
    alloc: Global,
    style: Style,
    session: &mut Session<'_, Global>,
    commands: &[Command<'_>],
) -> Result<Printed, NoMemory>
    ensures { IfOk result (λ p. IsPrinted style session.old commands.now session.new p.refused (string_bytes p.text)) }
{
    let mut printed = Printed {
        text: String::new(alloc),
        refused: false,
        why: String::new(alloc),
    };
    let mut number: usize = 0;
    for command in commands {
        number = number.saturating_add(1);
        append(alloc, style, session, number, *command, &mut printed)?;
    }
    Ok(printed)
}

/// The number of the cause for which a call does not start. None where that is out of memory.
fn start_code(refusal: StartRefusal) -> Option<u8>
    ensures { (o : Opening) → IsRefusedFor refusal o → MatchOption result (IsOpened o) (λ code. o ≡ Refused code) }
{
    match refusal {
        StartRefusal::NoExport => Some(1),
        StartRefusal::NotFunction => Some(2),
        StartRefusal::ArgCount => Some(3),
        StartRefusal::ArgType(_) => Some(4),
        StartRefusal::NoContract => Some(6),
        StartRefusal::NoMemory => None,
    }
}

/// What is printed of a call that does not start.
fn refuse_start(
    alloc: Global,
    json: bool,
    contracts: &[Contract<Global>],
    call: &Call,
    refusal: StartRefusal,
) -> Result<Printed, NoMemory>
    ensures { (setting : Setting) (c : ContractCall) → IsRefusedFor refusal (opening setting c) → IfOk result (λ p. IsNotStarted json setting c p.refused (string_bytes p.text)) }
{
    let Some(code) = start_code(refusal) else {
        return Err(NoMemory);
    };
    let entry = entry_words(alloc, contracts, call)?;
    let why = format!(in alloc;
        "the call does not start: {refusal}{entry}; mend its line of CALLS"
    )?;
    let text = start_told(alloc, json, code, why.as_str())?;
    Ok(Printed {
        text,
        refused: true,
        why,
    })
}

/// What the commands print of the call alone over the cells, by the rules of this version: the line or the lines of each, one after another. It is `K at F O` (at level 1 and above `K at F O in C level L`) or `K done RECEIPT` for a
/// command that moves or asks for the place, `ok` for one that sets or clears a break, a name and the values, the bytes, the cells or the frames for one that shows
/// them, and `refused N` for one that is refused. The line is `refused start N` where the call does not start. As JSON there is a line with an object
/// for each command. Keys and numbers of cells are signed or not.
///
/// # Errors
///
/// Memory was refused.
pub fn debug_call(
    alloc: Global,
    contracts: &[Contract<Global>],
    cells: &Cells,
    call: &Call,
    commands: &[Command<'_>],
    version: Version,
    style: Style,
) -> Result<Printed, NoMemory>
    ensures { IfOk result (λ p. IsDebugged style (setting_view version contracts.now) cells.now.cells call.now commands.now p.refused (string_bytes p.text)) }
{
    match Session::open(alloc, contracts, cells, call, version) {
        Ok(mut session) => {
            session.is_sight();
            perform_all(alloc, style, &mut session, commands)
        }
        Err(refusal) => refuse_start(alloc, style.json, contracts, call, refusal),
    }
}
