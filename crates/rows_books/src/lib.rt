//! What rows of data ask of storage, each by a word: what operations on cells reply, which locks go together, and what the book of calls and its shards
//! answer.
#![tactic(auto)]

mod acts;
mod books;
mod cell_ops;
mod one_shard;
mod parts;
mod put;
mod refused;
mod scene;
mod tables;
pub mod words;

pub use refused::Refused;
use std::alloc::Global;

/// What is answered to bytes: none where there is no such kind.
fn answer_to(alloc: Global, kind: &str, input: &[u8]) -> Option<Result<String, Refused>> {
    let told = match kind {
        "book" => books::answer_to(alloc, input),
        "book_events" => books::events(alloc, input),
        "storage" => cell_ops::answer_to(alloc, input),
        "lock_table" => tables::lock_table(alloc, input),
        "home" => parts::home(alloc, input),
        "is_part" => parts::is_part(alloc, input),
        "put_together" => parts::put_together(alloc, input),
        "shard" => one_shard::answer_to(alloc, input),
        _ => return None,
    };
    Some(told)
}

/// The answer to a question of this kind: none where there is no such kind, or no memory.
pub fn answer(alloc: Global, kind: &str, input: &[u8]) -> Option<String> {
    match answer_to(alloc, kind, input)? {
        Ok(found) => Some(found),
        Err(Refused::NoMemory) => None,
        Err(refusal) => format!(in alloc; "{refusal:?}\n").ok(),
    }
}
