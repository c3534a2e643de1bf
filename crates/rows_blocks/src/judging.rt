//! Blocks that fit their calls or do not, before a call is run.

use block_judge::{Reason, judge};
use rows_books::words::{cut, short, text_of};
use rows_files::Refused;
use rows_files::scene::{Scene, scene_of, world_of};
use rows_files::words::lines_before;
use std::alloc::Global;

/// The order of a block that fits the world, the calls and the fuel of the lines, or why it does not fit them: the block stands behind an empty line.
pub(crate) fn judged(alloc: Global, input: &[u8]) -> Result<String, Refused> {
    let (lines, bytes) = lines_before(input)?;
    let Scene {
        contracts,
        cells,
        later: _,
        calls,
        order: _,
        version: _,
        fuel,
        runs: _,
        acts: _,
        committed: _,
        handed: _,
    } = scene_of(alloc, lines)?;
    let world = world_of(contracts, cells)?;
    if calls.len() > 65_535 {
        return Err(Refused::Line);
    }
    let fit = judge(alloc, &world, &calls, fuel, bytes)?;
    let order = fit.order.as_slice();
    Ok(format!(in alloc; "fits, {order:?}\n")?)
}

/// The reason of this name, at this place where it has one.
fn reason_of(name: &str, place: &str) -> Result<Reason, Refused> {
    let reason = match name {
        "Malformed" => Reason::Malformed,
        "WrongWorld" => Reason::WrongWorld,
        "WrongCalls" => Reason::WrongCalls,
        "BadOrder" => Reason::BadOrder(short(place)?),
        "OverBudget" => Reason::OverBudget,
        "RoomLeft" => Reason::RoomLeft(short(place)?),
        "BadTurns" => Reason::BadTurns(short(place)?),
        "Deviates" => Reason::Deviates(short(place)?),
        "WrongEnd" => Reason::WrongEnd,
        _ => return Err(Refused::Line),
    };
    Ok(reason)
}

/// The number of a reason, and its place: a line has its name, and the place where it has one.
pub(crate) fn reason(alloc: Global, line: &[u8]) -> Result<String, Refused> {
    let (name, place) = cut(text_of(line)?);
    let reason = reason_of(name, place)?;
    let number = reason.number();
    let place = reason.place();
    Ok(format!(in alloc; "{number} {place:?}\n")?)
}
