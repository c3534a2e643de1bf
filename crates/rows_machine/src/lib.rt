//! What rows of data ask of the machine and of the debugger, each by a word: an answer is what a call comes to, by the derived `Debug` of its parts, or why
//! it comes to nothing.
#![tactic(auto)]

mod alike;
mod finishes;
mod machines;
mod memories;
mod over_operands;
mod put;
mod question;
mod refused;
mod sessions;
mod turns;

use crate::refused::Refused;
use interp::start::StartRefusal;
pub use machines::make_turn;
use std::alloc::Global;

/// What is answered to bytes: none where there is no such kind.
fn answer_to(alloc: Global, kind: &str, input: &[u8]) -> Option<Result<String, Refused>> {
    let told = match kind {
        "run" => finishes::run(alloc, input),
        "without_fuel" => finishes::without_fuel(alloc, input),
        "turns" => turns::answer_to(alloc, input),
        "alike" => alike::alike(alloc, input),
        "session" => sessions::answer_to(alloc, input),
        "operands" => over_operands::answer_to(alloc, input),
        "memory" => memories::answer_to(alloc, input),
        _ => return None,
    };
    Some(told)
}

/// Why a call does not start: the refusal, and what it says.
fn not_started(alloc: Global, refusal: StartRefusal) -> Option<String> {
    format!(in alloc; "{refusal:?}\n{refusal}\n").ok()
}

/// The answer to a question of this kind: none where there is no such kind, or no memory.
pub fn answer(alloc: Global, kind: &str, input: &[u8]) -> Option<String> {
    match answer_to(alloc, kind, input)? {
        Ok(found) => Some(found),
        Err(Refused::NoMemory) => None,
        Err(Refused::Start(refusal)) => not_started(alloc, refusal),
        Err(refusal) => format!(in alloc; "{refusal:?}\n").ok(),
    }
}
