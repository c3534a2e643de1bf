//! What rows of data ask of the crates of modules in binary, each by a word: an answer is what is found, by the derived `Debug` of its parts, or why
//! nothing is found.

use crate::refused::{Refused, text_of};
use std::alloc::Global;

/// What is answered to bytes: none where there is no such kind.
fn answer_to(alloc: Global, kind: &str, input: &[u8]) -> Option<Result<String, Refused>> {
    let told = match kind {
        "verdict" => crate::verdict::verdict_text(alloc, input),
        "many_exports" => crate::large::many_exports(alloc, input),
        "load" => crate::bytes::loaded(alloc, input),
        "module" => crate::bytes::module(alloc, input),
        "shortest" => crate::bytes::shortest(alloc, input),
        "instructions" => crate::bytes::instructions(alloc, input),
        "number_at" => crate::numbers::number_at(alloc, input),
        "spelled_numbers" => crate::numbers::spelled(alloc, input),
        "entry" => crate::entries::entry(alloc, input),
        "asked_entry" => crate::entries::asked(alloc, input),
        _ => return None,
    };
    Some(told)
}

/// The answer to a question of this kind: none where there is no such kind, or no memory.
pub fn module_answer(alloc: Global, kind: &str, input: &[u8]) -> Option<String> {
    let answered = answer_to(alloc, kind, input)?;
    text_of(alloc, answered)
}
