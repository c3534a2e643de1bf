//! What a command prints, in the form that is asked for.

ghost use Rattle.std.specs.Prelude.{◌≡◌, true, IfOk, OnOk, string_bytes};
ghost use Rattle.wblock_debug.specs.Lines.{OthersAreAsBefore, refusal_line, start_line};
ghost use Rattle.wblock_debug.specs.Tells.{TellsBytes, TellsCells, TellsOk, TellsRefusal, TellsStart, TellsState, TellsValues, TellsWhere};

use crate::cells::cells_text_of;
use crate::lines::{bytes_line_of, state_line_of, values_line_of, where_text_of};
use crate::states_json::{
    bytes_json_of, cells_json_of, ok_json_of, state_json_of, values_json_of, where_json_of,
};
use debugger::session::{Refusal, Session};
use std::alloc::{AllocError, Global};
use wblock_call::Style;
use wblock_json::json_refusal;
use wtypes::{NoMemory, Value};

/// The state of a session.
pub(crate) fn state_told(
    alloc: Global,
    json: bool,
    session: &Session<'_, Global>,
) -> Result<String, AllocError>
    ensures { IfOk result (λ line. TellsState json session.now (string_bytes line)) }
{
    if json {
        state_json_of(alloc, session)
    } else {
        state_line_of(alloc, session)
    }
}

/// Values under a name.
pub(crate) fn values_told(
    alloc: Global,
    json: bool,
    name: &str,
    values: &[Value],
) -> Result<String, AllocError>
    ensures { IfOk result (λ line. TellsValues json name.now values.now (string_bytes line)) }
{
    if json {
        values_json_of(alloc, name, values)
    } else {
        values_line_of(alloc, name, values)
    }
}

/// The cells that stand otherwise than at the start of a session.
pub(crate) fn cells_told(
    alloc: Global,
    style: Style,
    session: &Session<'_, Global>,
) -> Result<String, NoMemory>
    ensures text { IfOk result (λ text. TellsCells style.json style.signed session.now (string_bytes text)) }
    ensures others { OnOk result (OthersAreAsBefore session.now) }
{
    if style.json {
        cells_json_of(alloc, style.signed, session)
    } else {
        cells_text_of(alloc, style.signed, session)
    }
}

/// The frames that are open.
pub(crate) fn where_told(
    alloc: Global,
    json: bool,
    session: &Session<'_, Global>,
) -> Result<String, NoMemory>
    ensures { IfOk result (λ text. TellsWhere json session.now (string_bytes text)) }
{
    if json {
        where_json_of(alloc, session)
    } else {
        where_text_of(alloc, session)
    }
}

/// Bytes of memory.
pub(crate) fn bytes_told(alloc: Global, json: bool, bytes: &[u8]) -> Result<String, AllocError>
    ensures { IfOk result (λ line. TellsBytes json bytes.now (string_bytes line)) }
{
    if json {
        bytes_json_of(alloc, bytes)
    } else {
        bytes_line_of(alloc, bytes)
    }
}

/// That a break was set or cleared.
pub(crate) fn ok_told(alloc: Global, json: bool) -> Result<String, AllocError>
    ensures { IfOk result (λ line. TellsOk json (string_bytes line)) }
{
    if json {
        ok_json_of(alloc)
    } else {
        "ok\n".to_string(alloc)
    }
}

/// `refused N`.
fn refusal_line_of(alloc: Global, refusal: Refusal) -> Result<String, AllocError>
    ensures { IfOk result (λ line. string_bytes line ≡ refusal_line refusal) }
{
    let code = refusal.code();
    let line = format!(in alloc; "refused {code}\n")?;
    Ok(line)
}

/// The same as JSON, with a sentence.
fn refusal_json_of(alloc: Global, refusal: Refusal, why: &str) -> Result<String, AllocError>
    ensures { IfOk result (λ line. TellsRefusal true refusal (string_bytes line)) }
{
    let code = refusal.code();
    let line = format!(in alloc; "refused command {code}\n")?;
    json_refusal(alloc, None, line.as_str(), why)
}

/// That a command is refused, with a sentence.
pub(crate) fn refusal_told(
    alloc: Global,
    json: bool,
    refusal: Refusal,
    why: &str,
) -> Result<String, AllocError>
    ensures { IfOk result (λ line. TellsRefusal json refusal (string_bytes line)) }
{
    if json {
        refusal_json_of(alloc, refusal, why)
    } else {
        refusal_line_of(alloc, refusal)
    }
}

/// `refused start N`.
fn start_line_of(alloc: Global, code: u8) -> Result<String, AllocError>
    ensures { IfOk result (λ line. string_bytes line ≡ start_line code) }
{
    let line = format!(in alloc; "refused start {code}\n")?;
    Ok(line)
}

/// The same as JSON, with a sentence.
fn start_json_of(alloc: Global, code: u8, why: &str) -> Result<String, AllocError>
    ensures { IfOk result (λ line. TellsStart true code (string_bytes line)) }
{
    let line = start_line_of(alloc, code)?;
    json_refusal(alloc, None, line.as_str(), why)
}

/// That a call does not start, with a sentence.
pub(crate) fn start_told(
    alloc: Global,
    json: bool,
    code: u8,
    why: &str,
) -> Result<String, AllocError>
    ensures { IfOk result (λ line. TellsStart json code (string_bytes line)) }
{
    if json {
        start_json_of(alloc, code, why)
    } else {
        start_line_of(alloc, code)
    }
}
