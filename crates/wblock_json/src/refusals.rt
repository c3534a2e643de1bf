//! A refusal as JSON.

ghost use Rattle.std.specs.Prelude.{◌≡◌, IfOk, map, string_bytes};
ghost use Rattle.std.specs.List.{before_first};
ghost use Rattle.serde_json.specs.View.{view};
ghost use Rattle.wblock_calls.specs.Words.{texts};
ghost use Rattle.wblock_json.specs.Json.{array_of, maybe, small, IsJson, IsLineOf};
ghost use Rattle.wblock_json.specs.Refusals.{is_newline, kind_data, number_data, numbers_in, reason_data, refusal_data};

use crate::values::{null, value_line, with_member, word_of};
use serde_json::{Map, Value as Json, json};
use std::alloc::{AllocError, Global};
use wblock_calls::split_words;

/// A line without its newline.
#[tactic(auto, using(crate::proofs::Fronts::all_before))]
fn front_of<'a>(line: &'a str) -> &'a str
    ensures { result.now ≡ before_first is_newline line.entry.now }
{
    match line.split_once('\n') {
        Some((front, _)) => front,
        None => line,
    }
}

/// The kind of a refusal, by the words of its line.
fn kind_of(alloc: Global, words: &[&str]) -> Result<Json, AllocError>
    ensures { IfOk result (λ v. view v ≡ kind_data (texts words.now)) }
{
    match words {
        [] => Ok(null()),
        [_] => Ok(null()),
        [_, kind, ..] => word_of(alloc, *kind),
    }
}

/// The words behind the kind.
fn numbers_behind<'l, 'w>(words: &'l [&'w str]) -> &'l [&'w str]
    ensures { texts result.now ≡ numbers_in (texts words.entry.now) }
{
    match words {
        [] => words,
        [_] => &words[1..],
        [_, _, numbers @ ..] => numbers,
    }
}

/// A number as the line spells it; nothing where the line has a dash.
fn number_of(alloc: Global, word: &str) -> Result<Json, AllocError>
    ensures { IfOk result (λ v. view v ≡ number_data word.now) }
{
    if word == "-" {
        return Ok(null());
    }
    word_of(alloc, word)
}

fn numbers_of(alloc: Global, words: &[&str]) -> Result<Json, AllocError>
    ensures { IfOk result (λ v. view v ≡ array_of (map number_data (texts words.now))) }
{
    let mut values = Vec::new(alloc);
    for word in words {
        values.push(number_of(alloc, *word)?)?;
    }
    Ok(Json::from(values))
}

/// The number of a module, where one is at fault.
fn count_of(number: Option<usize>) -> Json
    ensures { view result ≡ maybe small number }
{
    match number {
        None => Json::Null,
        Some(number) => Json::from(number),
    }
}

/// What is told of a line of these words and its sentence, and of the module of this number.
#[tactic(auto, unfolding(crate::specs::Refusals::reason_data))]
fn reason_of(
    alloc: Global,
    number: Option<usize>,
    words: &[&str],
    sentence: &str,
) -> Result<Json, AllocError>
    ensures { IfOk result (λ v. view v ≡ reason_data number (texts words.now) sentence.now) }
{
    let members = Map::new(alloc);
    let members = with_member(alloc, members, "kind", kind_of(alloc, words)?)?;
    let members = with_member(alloc, members, "module", count_of(number))?;
    let numbers = numbers_of(alloc, numbers_behind(words))?;
    let members = with_member(alloc, members, "numbers", numbers)?;
    let members = with_member(alloc, members, "sentence", word_of(alloc, sentence)?)?;
    Ok(Json::from(members))
}

#[tactic(auto, unfolding(crate::specs::Refusals::refusal_data))]
fn refusal_of(
    alloc: Global,
    number: Option<usize>,
    line: &str,
    sentence: &str,
) -> Result<Json, AllocError>
    ensures { IfOk result (λ v. view v ≡ refusal_data number line.now sentence.now) }
{
    let words = split_words(alloc, front_of(line))?;
    let reason = reason_of(alloc, number, words.as_slice(), sentence)?;
    json!(in alloc; {"refused": reason})
}

/// A refusal as JSON, by its line, `refused KIND NUMBER...`, and its sentence: a line with an object of its kind, its numbers and the sentence, and of the
/// number of the module at fault, where it is one of several.
///
/// # Errors
///
/// Memory was refused.
pub fn json_refusal(
    alloc: Global,
    number: Option<usize>,
    line: &str,
    sentence: &str,
) -> Result<String, AllocError>
    ensures { IfOk result (λ text. IsLineOf (IsJson (refusal_data number line.now sentence.now)) (string_bytes text)) }
{
    let value = refusal_of(alloc, number, line, sentence)?;
    value_line(alloc, &value)
}
