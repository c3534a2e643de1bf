//! What commands tell of a call as JSON.

ghost use Rattle.std.specs.Prelude.{◌≡◌, IfOk, OnOk, map, string_bytes};
ghost use Rattle.serde_json.specs.View.{view};
ghost use Rattle.wblock_json.specs.Json.{array_of, maybe, small, IsJson, IsLineOf};
ghost use Rattle.wblock_debug.specs.StatesJson.{at_data, bytes_data, cells_data, done_data, frame_data, ok_data, place_data, receipt_data, state_data, values_data, where_data};
ghost use Rattle.wblock_debug.specs.Lines.{OthersAreAsBefore};

use debugger::OpenFrame;
use debugger::session::Session;
use serde_json::{Map, Value as Json, json};
use serial::touched_by;
use spec_ledger::{Outcome, Receipt};
use std::alloc::{AllocError, Global};
use wblock_call::changes_of;
use wblock_json::{hex_of, large_of, value_line, values_of, with_member, with_receipt};
use wtypes::{NoMemory, Value};

/// The function and the instruction to come, of this contract at this level.
#[tactic(auto, unfolding(crate::specs::StatesJson::place_data))]
fn place_of(
    alloc: Global,
    contract: u32,
    level: usize,
    place: (u32, u32),
) -> Result<Json, AllocError>
    ensures { IfOk result (λ v. view v ≡ place_data contract level place) }
{
    json!(in alloc; {
        "contract": contract,
        "level": level,
        "function": place.0,
        "instruction": place.1,
    })
}

/// Where a call stands that has not ended.
fn at_of(
    alloc: Global,
    session: &Session<'_, Global>,
    ending: Option<Outcome>,
    place: Option<(u32, u32)>,
) -> Result<Json, AllocError>
    ensures { IfOk result (λ v. view v ≡ at_data session.now ending place) }
{
    match (ending, place) {
        (Some(_), _) => Ok(Json::Null),
        (None, None) => Ok(Json::Null),
        (None, Some(place)) => place_of(alloc, session.contract(), session.level(), place),
    }
}

#[tactic(auto, unfolding(crate::specs::StatesJson::receipt_data))]
fn receipt_of(alloc: Global, receipt: Receipt) -> Result<Json, AllocError>
    ensures { IfOk result (λ v. view v ≡ receipt_data receipt) }
{
    let members = Map::new(alloc);
    let members = with_receipt(alloc, members, receipt)?;
    Ok(Json::from(members))
}

/// How a call has ended.
fn done_of(
    alloc: Global,
    session: &Session<'_, Global>,
    ending: Option<Outcome>,
) -> Result<Json, AllocError>
    ensures { IfOk result (λ v. view v ≡ done_data session.now ending) }
{
    match ending {
        None => Ok(Json::Null),
        Some(outcome) => receipt_of(
            alloc,
            Receipt {
                outcome,
                used: session.turns(),
                asks: session.asks(),
            },
        ),
    }
}

#[tactic(auto, unfolding(crate::specs::StatesJson::state_data))]
fn state_of(alloc: Global, session: &Session<'_, Global>) -> Result<Json, AllocError>
    ensures { IfOk result (λ v. view v ≡ state_data session.now) }
{
    let turns = large_of(alloc, session.turns() as u128)?;
    let at = at_of(alloc, session, session.ending(), session.place())?;
    let done = done_of(alloc, session, session.ending())?;
    json!(in alloc; {"turns": turns, "at": at, "done": done})
}

/// The line of a state.
pub(crate) fn state_json_of(
    alloc: Global,
    session: &Session<'_, Global>,
) -> Result<String, AllocError>
    ensures { IfOk result (λ text. IsLineOf (IsJson (state_data session.now)) (string_bytes text)) }
{
    let value = state_of(alloc, session)?;
    value_line(alloc, &value)
}

#[tactic(auto, unfolding(crate::specs::StatesJson::values_data))]
fn named_of(alloc: Global, name: &str, values: &[Value]) -> Result<Json, AllocError>
    ensures { IfOk result (λ v. view v ≡ values_data name.now values.now) }
{
    let members = Map::new(alloc);
    let members = with_member(alloc, members, name, values_of(alloc, values)?)?;
    Ok(Json::from(members))
}

/// The line of values under a name.
pub(crate) fn values_json_of(
    alloc: Global,
    name: &str,
    values: &[Value],
) -> Result<String, AllocError>
    ensures { IfOk result (λ text. IsLineOf (IsJson (values_data name.now values.now)) (string_bytes text)) }
{
    let value = named_of(alloc, name, values)?;
    value_line(alloc, &value)
}

#[tactic(auto, unfolding(crate::specs::StatesJson::cells_data))]
fn cells_of(alloc: Global, signed: bool, session: &Session<'_, Global>) -> Result<Json, NoMemory>
    ensures data { IfOk result (λ v. view v ≡ cells_data signed session.now) }
    ensures others { OnOk result (OthersAreAsBefore session.now) }
{
    let touched = touched_by(alloc, session.trace())?;
    let changes = changes_of(
        alloc,
        signed,
        touched.lock_modes(),
        session.start(),
        session.cells(),
    )?;
    let cells = json!(in alloc; {"cells": changes})?;
    Ok(cells)
}

/// The line of the cells that stand otherwise than at the start of the session, keys and numbers signed or not.
pub(crate) fn cells_json_of(
    alloc: Global,
    signed: bool,
    session: &Session<'_, Global>,
) -> Result<String, NoMemory>
    ensures text { IfOk result (λ text. IsLineOf (IsJson (cells_data signed session.now)) (string_bytes text)) }
    ensures others { OnOk result (OthersAreAsBefore session.now) }
{
    let value = cells_of(alloc, signed, session)?;
    let text = value_line(alloc, &value)?;
    Ok(text)
}

/// The ordinal of an instruction; nothing at the end of a body.
fn ordinal_of(ordinal: Option<u32>) -> Json
    ensures { view result ≡ maybe small ordinal }
{
    match ordinal {
        None => Json::Null,
        Some(ordinal) => Json::from(ordinal),
    }
}

/// A frame that is open.
#[tactic(auto, unfolding(crate::specs::StatesJson::frame_data))]
fn frame_of(alloc: Global, frame: OpenFrame) -> Result<Json, AllocError>
    ensures { IfOk result (λ v. view v ≡ frame_data frame) }
{
    let instruction = ordinal_of(frame.ordinal);
    json!(in alloc; {
        "contract": frame.contract,
        "level": frame.level,
        "function": frame.func,
        "instruction": instruction,
    })
}

fn frames_of(alloc: Global, frames: &[OpenFrame]) -> Result<Json, AllocError>
    ensures { IfOk result (λ v. view v ≡ array_of (map frame_data frames.now)) }
{
    let mut values = Vec::new(alloc);
    for frame in frames {
        values.push(frame_of(alloc, *frame)?)?;
    }
    Ok(Json::from(values))
}

#[tactic(auto, unfolding(crate::specs::StatesJson::where_data))]
fn where_of(alloc: Global, session: &Session<'_, Global>) -> Result<Json, NoMemory>
    ensures { IfOk result (λ v. view v ≡ where_data session.now) }
{
    let frames = session.frames()?;
    let values = frames_of(alloc, &frames)?;
    let value = json!(in alloc; {"where": values})?;
    Ok(value)
}

/// The line of the frames that are open.
pub(crate) fn where_json_of(
    alloc: Global,
    session: &Session<'_, Global>,
) -> Result<String, NoMemory>
    ensures { IfOk result (λ text. IsLineOf (IsJson (where_data session.now)) (string_bytes text)) }
{
    let value = where_of(alloc, session)?;
    let text = value_line(alloc, &value)?;
    Ok(text)
}

#[tactic(auto, unfolding(crate::specs::StatesJson::bytes_data))]
fn bytes_of(alloc: Global, bytes: &[u8]) -> Result<Json, AllocError>
    ensures { IfOk result (λ v. view v ≡ bytes_data bytes.now) }
{
    let digits = hex_of(alloc, bytes)?;
    json!(in alloc; {"bytes": digits})
}

/// The line of bytes.
pub(crate) fn bytes_json_of(alloc: Global, bytes: &[u8]) -> Result<String, AllocError>
    ensures { IfOk result (λ text. IsLineOf (IsJson (bytes_data bytes.now)) (string_bytes text)) }
{
    let value = bytes_of(alloc, bytes)?;
    value_line(alloc, &value)
}

#[tactic(auto, unfolding(crate::specs::StatesJson::ok_data))]
fn ok_of(alloc: Global) -> Result<Json, AllocError>
    ensures { IfOk result (λ v. view v ≡ ok_data) }
{
    json!(in alloc; {"ok": true})
}

/// The line of a break that was set or cleared.
pub(crate) fn ok_json_of(alloc: Global) -> Result<String, AllocError>
    ensures { IfOk result (λ text. IsLineOf (IsJson ok_data) (string_bytes text)) }
{
    let value = ok_of(alloc)?;
    value_line(alloc, &value)
}
