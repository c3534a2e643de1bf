//! The kinds that libraries answer.

use crate::{kept, words};
use rows_script::Kinds;
use std::alloc::Global;

/// Asks one library after another.
#[derive(Drop)]
pub(crate) struct Libraries {}

impl Kinds for Libraries {
    fn answer(&self, alloc: Global, kind: &str, input: &[u8]) -> Option<String> {
        answer_of(alloc, kind, input)
    }
}

/// What a kind makes of these bytes, as a text; None where no library has it, or memory is refused.
fn answer_of(alloc: Global, kind: &str, input: &[u8]) -> Option<String> {
    if let Some(answer) = rows_texts::answer(alloc, kind, input) {
        return Some(answer);
    }
    if let Some(answer) = rows_texts::module_answer(alloc, kind, input) {
        return Some(answer);
    }
    if let Some(answer) = rows_machine::answer(alloc, kind, input) {
        return Some(answer);
    }
    if let Some(answer) = rows_books::answer(alloc, kind, input) {
        return Some(answer);
    }
    if let Some(answer) = rows_files::answer(alloc, kind, input) {
        return Some(answer);
    }
    if let Some(answer) = rows_blocks::answer(alloc, kind, input) {
        return Some(answer);
    }
    if let Some(answer) = words::answer(alloc, kind, input) {
        return Some(answer);
    }
    kept::answer(alloc, kind, input)
}
