//! One command on a session.

ghost use Rattle.std.specs.Prelude.{◌≡◌, IfOk};
ghost use Rattle.wblock_debug.specs.Prints.{Performs, place_named};

use crate::told::{bytes_told, cells_told, ok_told, state_told, values_told, where_told};
use debugger::Place;
use debugger::session::{Refusal, Session};
use std::alloc::{Allocator, Global};
use wblock_call::Style;
use wblock_usage::Spot;
use wblock_usage::debugging::Command;
use wtypes::NoMemory;

/// What a command prints.
#[derive(Debug, Drop)]
pub(crate) enum Said<A: Allocator> {
    /// This line or these lines, each with its newline, or a line with a JSON object.
    Line(String<A>),
    /// That it is refused.
    Refused(Refusal),
}

/// Makes so many turns.
fn step(
    alloc: Global,
    style: Style,
    session: &mut Session<'_, Global>,
    count: u64,
) -> Result<Said<Global>, NoMemory>
    ensures { IfOk result (Performs style (Command.Step count) session.old session.new) }
{
    match session.step(count) {
        Ok(_) => Ok(Said::Line(state_told(alloc, style.json, session)?)),
        Err(_) => Err(NoMemory),
    }
}

/// Goes so many turns back.
fn back(
    alloc: Global,
    style: Style,
    session: &mut Session<'_, Global>,
    count: u64,
) -> Result<Said<Global>, NoMemory>
    ensures { IfOk result (Performs style (Command.Back count) session.old session.new) }
{
    match session.back(count) {
        Ok(_) => Ok(Said::Line(state_told(alloc, style.json, session)?)),
        Err(Refusal::BeforeStart) => Ok(Said::Refused(Refusal::BeforeStart)),
        Err(_) => Err(NoMemory),
    }
}

/// Goes on to a break or to the end.
fn cont(
    alloc: Global,
    style: Style,
    session: &mut Session<'_, Global>,
) -> Result<Said<Global>, NoMemory>
    ensures { IfOk result (Performs style Command.Cont session.old session.new) }
{
    match session.cont() {
        Ok(_) => Ok(Said::Line(state_told(alloc, style.json, session)?)),
        Err(_) => Err(NoMemory),
    }
}

/// The place that a spot names. None where its name is that of no function that the contract that is called exports.
fn place_named<A: Allocator + Copy>(session: &Session<'_, A>, spot: Spot<'_>) -> Option<Place>
    ensures { result ≡ place_named session.now spot.entry }
{
    let called = session.called();
    match spot {
        Spot::Own(func, ordinal) => Some(Place {
            contract: called,
            func,
            ordinal,
        }),
        Spot::Of(contract, func, ordinal) => Some(Place {
            contract,
            func,
            ordinal,
        }),
        Spot::Exported(name, ordinal) => match session.exported_function(name) {
            Some(func) => Some(Place {
                contract: called,
                func,
                ordinal,
            }),
            None => None,
        },
    }
}

/// Sets a break.
fn break_at(
    alloc: Global,
    style: Style,
    session: &mut Session<'_, Global>,
    spot: Spot<'_>,
) -> Result<Said<Global>, NoMemory>
    ensures { IfOk result (Performs style (Command.Break spot.entry) session.old session.new) }
{
    let Some(place) = place_named(session, spot) else {
        return Ok(Said::Refused(Refusal::NoSuchPlace));
    };
    match session.break_at(place) {
        Ok(()) => Ok(Said::Line(ok_told(alloc, style.json)?)),
        Err(Refusal::NoSuchPlace) => Ok(Said::Refused(Refusal::NoSuchPlace)),
        Err(_) => Err(NoMemory),
    }
}

/// Clears a break.
fn clear(
    alloc: Global,
    style: Style,
    session: &mut Session<'_, Global>,
    spot: Spot<'_>,
) -> Result<Said<Global>, NoMemory>
    ensures { IfOk result (Performs style (Command.Clear spot.entry) session.old session.new) }
{
    let Some(place) = place_named(session, spot) else {
        return Ok(Said::Refused(Refusal::NoSuchPlace));
    };
    match session.clear(place) {
        Ok(()) => Ok(Said::Line(ok_told(alloc, style.json)?)),
        Err(_) => Ok(Said::Refused(Refusal::NoSuchPlace)),
    }
}

/// Shows bytes of memory.
fn bytes(
    alloc: Global,
    style: Style,
    session: &Session<'_, Global>,
    from: u64,
    count: u64,
) -> Result<Said<Global>, NoMemory>
    ensures { IfOk result (Performs style (Command.Bytes from count) session.now session.now) }
{
    match session.bytes(from, count) {
        Ok(bytes) => Ok(Said::Line(bytes_told(alloc, style.json, bytes.as_slice())?)),
        Err(Refusal::OutOfRange) => Ok(Said::Refused(Refusal::OutOfRange)),
        Err(_) => Err(NoMemory),
    }
}

/// Does a command.
pub(crate) fn perform(
    alloc: Global,
    style: Style,
    session: &mut Session<'_, Global>,
    command: Command<'_>,
) -> Result<Said<Global>, NoMemory>
    ensures { IfOk result (Performs style command.entry session.old session.new) }
{
    match command {
        Command::Step(count) => step(alloc, style, session, count),
        Command::Back(count) => back(alloc, style, session, count),
        Command::Cont => cont(alloc, style, session),
        Command::Place => Ok(Said::Line(state_told(alloc, style.json, session)?)),
        Command::Break(spot) => break_at(alloc, style, session, spot),
        Command::Clear(spot) => clear(alloc, style, session, spot),
        Command::Stack => Ok(Said::Line(values_told(alloc, style.json, "stack", session.stack())?)),
        Command::Locals => Ok(Said::Line(values_told(
            alloc,
            style.json,
            "locals",
            session.locals(),
        )?)),
        Command::Globals => Ok(Said::Line(values_told(
            alloc,
            style.json,
            "globals",
            session.globals(),
        )?)),
        Command::Cells => Ok(Said::Line(cells_told(alloc, style, session)?)),
        Command::Where => Ok(Said::Line(where_told(alloc, style.json, session)?)),
        Command::Bytes(from, count) => bytes(alloc, style, session, from, count),
    }
}
