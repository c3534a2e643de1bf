//! What rows of data ask of the crates of modules in text and in binary, each by a word: an answer is what is found, by the derived `Debug` of its parts,
//! or why nothing is found.
#![tactic(auto)]

mod bytes;
mod entries;
mod fields;
mod flats;
mod instrs;
mod large;
mod modules;
mod modules_of;
mod names;
mod numbers;
mod parts;
mod refused;
mod steps;
mod verdict;
mod words;

pub use crate::modules_of::module_answer;
use crate::refused::{Refused, text_of};
pub use instrs::put_instrs;
use std::alloc::Global;
use std::str::from_utf8;

/// What is answered to a text, where it is a question of tokens and words.
fn answer_to_words(alloc: Global, kind: &str, text: &str) -> Option<Result<String, Refused>> {
    let told = match kind {
        "tokens" => words::tokens_of(alloc, text),
        "integer" => words::integer(alloc, text),
        "words" => words::words_of(alloc, text),
        "string" => words::string(alloc, text),
        "unsigned_32" => words::unsigned(alloc, text),
        "bits_32" => words::of_32_bits(alloc, text),
        "bits_64" => words::of_64_bits(alloc, text),
        "number" => names::number_of(alloc, text),
        "space" => names::space(alloc, text),
        "labels" => names::labels(alloc, text),
        _ => return None,
    };
    Some(told)
}

/// What is answered to a text, where it is a question of bodies, fields and parts.
fn answer_to_fields(alloc: Global, kind: &str, text: &str) -> Option<Result<String, Refused>> {
    let told = match kind {
        "body" => flats::body_of(alloc, text),
        "steps" => steps::steps(alloc, text),
        "fields" => fields::fields_of(alloc, text),
        "types" => names::types(alloc, text),
        "spaces" => names::spaces(alloc, text),
        "index" => names::index_of(alloc, text),
        "field_parts" => parts::field_parts(alloc, text),
        "text_parts" => parts::text_parts(alloc, text),
        "expression" => instrs::expression_of(alloc, text),
        _ => return None,
    };
    Some(told)
}

/// What is answered to a text, where it is a question of whole modules.
fn answer_to_modules(alloc: Global, kind: &str, text: &str) -> Option<Result<String, Refused>> {
    let told = match kind {
        "fault" => modules::fault(alloc, text),
        "refusal" => modules::refusal(alloc, text),
        "assemble" => modules::assembled(alloc, text),
        "again" => modules::again(alloc, text),
        "written" => modules::written(alloc, text),
        _ => return None,
    };
    Some(told)
}

/// What is answered to bytes: none where there is no such kind.
fn answer_to(alloc: Global, kind: &str, input: &[u8]) -> Option<Result<String, Refused>> {
    if kind == "written_of_bytes" {
        return Some(modules::written_of_bytes(alloc, input));
    }
    let text = from_utf8(input).ok()?;
    match answer_to_words(alloc, kind, text) {
        Some(told) => Some(told),
        None => match answer_to_fields(alloc, kind, text) {
            Some(told) => Some(told),
            None => answer_to_modules(alloc, kind, text),
        },
    }
}

/// The answer to a question of this kind: none where there is no such kind, or no memory.
pub fn answer(alloc: Global, kind: &str, input: &[u8]) -> Option<String> {
    let answered = answer_to(alloc, kind, input)?;
    text_of(alloc, answered)
}
