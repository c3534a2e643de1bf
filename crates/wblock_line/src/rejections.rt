//! Why a block is rejected: the line, or the same as JSON, and the sentence.

ghost use Rattle.std.specs.Prelude.{◌≡◌, IfOk, string_bytes};
ghost use Rattle.block_judge.specs.Judging.{told};
ghost use Rattle.serde_json.specs.View.{view};
ghost use Rattle.wblock_json.specs.Json.{IsJson, IsLineOf};
ghost use Rattle.wblock_line.specs.Rejections.{reject_data, reject_line, IsRejectText, Rejects};

use crate::answer::Answer;
use block::read_block;
use block_judge::Reason;
use serde_json::{Value as Json, json};
use std::alloc::{AllocError, Global};
use wblock_json::{maybe_number, value_line};
use wblock_words::{advice_on, block_words};

/// `reject N`, and behind it the position or the call that the reason speaks of, where it speaks of one.
fn reject_line_of(alloc: Global, reason: Reason) -> Result<String, AllocError>
    ensures { IfOk result (λ line. string_bytes line ≡ reject_line (told reason)) }
{
    let number = reason.number();
    let line = match reason.place() {
        Some(place) => format!(in alloc; "reject {number} {place}\n")?,
        None => format!(in alloc; "reject {number}\n")?,
    };
    Ok(line)
}

/// The sentence of a block of these bytes that is rejected.
pub fn reason_words(alloc: Global, bytes: &[u8], reason: Reason) -> Result<String, AllocError> {
    if reason == Reason::Malformed {
        if let Err(refusal) = read_block(alloc, bytes) {
            return block_words(alloc, bytes, refusal);
        }
    }
    let advice = advice_on(reason.number());
    format!(in alloc; "block: {reason}; {advice}")
}

/// The reason and the sentence as JSON.
#[tactic(auto, unfolding(crate::specs::Rejections::reject_data))]
fn reject_of(alloc: Global, reason: Reason, sentence: &str) -> Result<Json, AllocError>
    ensures { IfOk result (λ v. view v ≡ reject_data (told reason) sentence.now) }
{
    let number = reason.number();
    let place = maybe_number(reason.place());
    json!(in alloc; {
        "verdict": "reject",
        "reason": number,
        "place": place,
        "sentence": sentence,
        "after": null,
    })
}

/// The line of the reason and the sentence as JSON.
fn reject_json_of(alloc: Global, reason: Reason, sentence: &str) -> Result<String, AllocError>
    ensures { IfOk result (λ text. IsLineOf (IsJson (reject_data (told reason) sentence.now)) (string_bytes text)) }
{
    let value = reject_of(alloc, reason, sentence)?;
    value_line(alloc, &value)
}

/// What is printed of a block of these bytes that is rejected: `reject N`, and behind it the position or the call that the reason speaks of, where it
/// speaks of one; or a line with the JSON object of these. The sentence behind it says why.
///
/// # Errors
///
/// Memory was refused.
pub fn rejection_of(
    alloc: Global,
    json: bool,
    bytes: &[u8],
    reason: Reason,
) -> Result<(String, String), AllocError>
    ensures { IfOk result (λ x. IsRejectText json (told reason) (string_bytes x.1) (string_bytes x.0)) }
{
    let why = reason_words(alloc, bytes, reason)?;
    if json {
        let object = reject_json_of(alloc, reason, why.as_str())?;
        return Ok((object, why));
    }
    let line = reject_line_of(alloc, reason)?;
    Ok((line, why))
}

/// The answer that a block of these bytes is rejected: `reject N`, and behind it the position or the call that the reason speaks of, where it speaks of
/// one; or a line with the JSON object of these. The sentence says why.
///
/// # Errors
///
/// Memory was refused.
pub fn reject<'a>(
    alloc: Global,
    json: bool,
    bytes: &[u8],
    reason: Reason,
) -> Result<Answer<'a>, AllocError>
    ensures { IfOk result (Rejects json (told reason)) }
{
    let (line, why) = rejection_of(alloc, json, bytes, reason)?;
    Ok(Answer::Refused(line, why))
}
