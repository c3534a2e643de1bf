//! What rows of data ask of blocks and what they are made of, each by a word: what calls come to that run in an order, what locks in an order are, and
//! whether a block fits its calls.
#![tactic(auto)]

mod adopting;
mod judging;
mod locks;
mod publishing;
mod runs;

use rows_files::{Refused, answer_of};
use std::alloc::Global;

/// What is answered to calls over cells: none where there is no such kind.
fn answer_to_calls(alloc: Global, kind: &str, input: &[u8]) -> Option<Result<String, Refused>> {
    let told = match kind {
        "serial" => runs::serial(alloc, input),
        "alone" => runs::alone(alloc, input),
        "replayed" => runs::replayed(alloc, input),
        "trace_locks" => runs::trace_locks(alloc, input),
        "serial_block" => runs::serial_block(alloc, input),
        "published" => publishing::published(alloc, input),
        "adopted" => adopting::adopted(alloc, input),
        "judged" => judging::judged(alloc, input),
        "reason" => judging::reason(alloc, input),
        _ => return None,
    };
    Some(told)
}

/// What is answered to locks: none where there is no such kind.
fn answer_to_locks(alloc: Global, kind: &str, input: &[u8]) -> Option<Result<String, Refused>> {
    let told = match kind {
        "lock_profiles" => locks::lock_profiles(alloc, input),
        "lock_profile" => locks::lock_profile(alloc, input),
        "lock_graph" => locks::lock_graph(alloc, input),
        "lock_waves" => locks::lock_waves(alloc, input),
        _ => return None,
    };
    Some(told)
}

/// What is answered to a question: none where there is no such kind.
fn answer_to(alloc: Global, kind: &str, input: &[u8]) -> Option<Result<String, Refused>> {
    match answer_to_calls(alloc, kind, input) {
        Some(told) => Some(told),
        None => answer_to_locks(alloc, kind, input),
    }
}

/// The answer to a question of this kind: none where there is no such kind, or no memory.
pub fn answer(alloc: Global, kind: &str, input: &[u8]) -> Option<String> {
    answer_of(alloc, answer_to(alloc, kind, input)?)
}
