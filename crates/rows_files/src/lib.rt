//! What rows of data ask of files, each by a word: what bytes are read as, as records, calls, blocks and worlds, and how they are written; and what the lines
//! of a row say of contracts, cells and calls.
#![tactic(auto)]

mod changes;
pub mod files;
pub mod put;
mod record_kinds;
mod refused;
pub mod scene;
pub mod words;

pub use refused::Refused;
use std::alloc::Global;

/// What is answered to fields of files, and to what is to be written: none where there is no such kind.
fn answer_to_files(alloc: Global, kind: &str, input: &[u8]) -> Option<Result<String, Refused>> {
    let told = match kind {
        "record_numbers" => record_kinds::numbers(alloc, input),
        "record_field" => record_kinds::field(alloc, input),
        "rejected" => record_kinds::rejected(alloc, input),
        "made_world" => files::made_world(alloc, input),
        "cut_short" => files::cut_short(alloc, input),
        "fuelless_block" => files::fuelless_block(alloc, input),
        "versions" => files::versions(alloc, input),
        "sha256" => files::sha256(alloc, input),
        "fronts" => changes::fronts(alloc, input),
        "changes" => changes::changes(alloc, input),
        _ => return None,
    };
    Some(told)
}

/// What bytes are read as: none where nothing of this kind is read.
fn read(alloc: Global, kind: &str, input: &[u8]) -> Option<Result<String, Refused>> {
    let told = match kind {
        "record_value" => record_kinds::value(alloc, input),
        "record_receipt" => record_kinds::receipt(alloc, input),
        "receipt_text" => record_kinds::receipt_text(alloc, input),
        "value_text" => record_kinds::value_text(alloc, input),
        "record_entry" => record_kinds::entry(alloc, input),
        "record_profile" => record_kinds::profile(alloc, input),
        "record_position" => record_kinds::position(alloc, input),
        "calls" => files::calls(alloc, input),
        "block" => files::block(alloc, input),
        "world" => files::world(alloc, input),
        "cells" => files::cells(alloc, input),
        _ => return None,
    };
    Some(told)
}

/// What is answered to a question: none where there is no such kind.
fn answer_to(alloc: Global, kind: &str, input: &[u8]) -> Option<Result<String, Refused>> {
    match answer_to_files(alloc, kind, input) {
        Some(told) => Some(told),
        None => read(alloc, kind, input),
    }
}

/// The answer to a question, or why there is none; none where memory is refused.
pub fn answer_of(alloc: Global, told: Result<String, Refused>) -> Option<String> {
    match told {
        Ok(found) => Some(found),
        Err(refusal) => {
            if refusal.is_of_memory() {
                return None;
            }
            format!(in alloc; "{refusal:?}\n").ok()
        }
    }
}

/// The answer to a question of this kind: none where there is no such kind, or no memory.
pub fn answer(alloc: Global, kind: &str, input: &[u8]) -> Option<String> {
    answer_of(alloc, answer_to(alloc, kind, input)?)
}
