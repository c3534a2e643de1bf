//! A refusal in the form that is asked for.

ghost use Rattle.std.specs.Prelude.{◌≡◌, IfOk, IfErr, string_bytes};
ghost use Rattle.wblock_line.specs.Forms.{IsInForm, IsRefusalIn};

use crate::answer::{Answer, Fault};
use std::alloc::{AllocError, Global};
use wblock_json::json_refusal;

/// The answer of a refusal with this line, which ends with a newline, and with this sentence: the line is printed, or a line with the JSON object of both.
///
/// # Errors
///
/// `NoMemory` alone.
pub fn refuse<'a>(
    alloc: Global,
    json: bool,
    line: String,
    why: String,
) -> Result<Answer<'a>, Fault<'a>>
    ensures told { IfOk result (IsRefusalIn json (string_bytes line)) }
    ensures fault { IfErr result (λ f. f ≡ Fault.NoMemory) }
{
    if !json {
        return Ok(Answer::Refused(line, why));
    }
    match json_refusal(alloc, None, line.as_str(), why.as_str()) {
        Ok(told) => Ok(Answer::Refused(told, why)),
        Err(AllocError) => Err(Fault::NoMemory),
    }
}

/// An answer in the form that is asked for: of a refusal the line or the JSON object, and else the answer as it is.
///
/// # Errors
///
/// `NoMemory` alone.
pub fn in_form<'a>(alloc: Global, json: bool, answer: Answer<'a>) -> Result<Answer<'a>, Fault<'a>>
    ensures told { IfOk result (IsInForm json answer.entry) }
    ensures fault { IfErr result (λ f. f ≡ Fault.NoMemory) }
{
    match answer {
        Answer::Refused(line, why) => refuse(alloc, json, line, why),
        Answer::Done(writes, text) => Ok(Answer::Done(writes, text)),
    }
}
