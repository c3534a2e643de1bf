//! What words ask to debug, and the words of what can be measured.

use crate::lines::words_of;
use bench::USAGE;
use std::alloc::Global;
use std::str::from_utf8;
use wblock_debug::debugging_of;
use wblock_line::split_words;
use wblock_usage::debugging::{Command, command_of, commands_of};

/// The command that a word is, or None.
fn command(alloc: Global, word: &str) -> Option<String> {
    let command = command_of(alloc, word).ok()?;
    format!(in alloc; "{command:?}\n").ok()
}

/// The commands that words are, or None.
fn commands(alloc: Global, line: &str) -> Option<String> {
    let words = words_of(alloc, line)?;
    let commands = commands_of(alloc, &words).ok()?;
    format!(in alloc; "{commands:?}\n").ok()
}

/// Commands as they are written for a programmer, or None.
fn commands_text(alloc: Global, commands: &[Command]) -> Option<String> {
    format!(in alloc; "{commands:?}").ok()
}

/// What a line asks to debug, or None.
fn debugging(alloc: Global, line: &str) -> Option<String> {
    let words: Vec<&str> = line.split(' ').collect(alloc).ok()?;
    let line = split_words(alloc, &words).ok()??;
    let Some(asked) = debugging_of(alloc, &line).ok()? else {
        return "None\n".to_string(alloc).ok();
    };
    let call = format!(in alloc;
        "world {} calls {} call {}",
        asked.world, asked.calls, asked.call
    )
    .ok()?;
    let place = format!(in alloc; "block {:?} fuel {:?}", asked.block, asked.fuel).ok()?;
    let commands = commands_text(alloc, asked.commands.as_slice())?;
    format!(in alloc; "{call} {commands} {place}\n").ok()
}

/// What words are as commands of the debugger, or what a line of words asks of it, or what can be measured; None where there is no such kind, or memory is
/// refused.
pub(crate) fn answer(alloc: Global, kind: &str, input: &[u8]) -> Option<String> {
    match kind {
        "command" => command(alloc, from_utf8(input).ok()?),
        "commands" => commands(alloc, from_utf8(input).ok()?),
        "debugging" => debugging(alloc, from_utf8(input).ok()?),
        "measuring" => format!(in alloc; "{USAGE}\n").ok(),
        _ => None,
    }
}
