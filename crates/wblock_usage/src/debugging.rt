//! A command and its word.

ghost use Rattle.std.specs.Prelude.{◌≡◌, ◌≢◌, List, ◌∷◌, ◌++◌, IfOk, MatchOption};
ghost use Rattle.wblock_calls.specs.Words.{texts};
ghost use Rattle.wblock_usage.specs.Words.{AreNoBytes, HasNoColon, IsNotPlain, IsNoMove, IsNoBreak, IsSpotInRange, Spells, Spell, spot_text};
ghost use Rattle.wblock_usage.specs.declared.debugging.Command.{Command as Asked};
ghost use Rattle.wblock_usage.specs.declared.spot.Spot.{Spot as Named};

use crate::numbers::{after_name, number_after, numbers_after};
use crate::spot::{Spot, spot_of};
use std::alloc::{AllocError, Global};
use wblock_line::is_word;

/// A command of a debugger.
#[derive(Clone, Copy, Debug)]
pub enum Command<'w> {
    /// `step:N`: makes so many turns, or as many as there are.
    Step(u64),
    /// `back:N`: goes so many turns back.
    Back(u64),
    /// `cont`: goes on to the next break, or to the end.
    Cont,
    /// `place`: shows where the call stands.
    Place,
    /// `break:F:O`, `break:C:F:O` or `break:NAME:O`: sets a break at this place, in each level that runs its contract.
    Break(Spot<'w>),
    /// `clear:F:O`, `clear:C:F:O` or `clear:NAME:O`: clears the break there.
    Clear(Spot<'w>),
    /// `stack`: shows the values of the innermost frame.
    Stack,
    /// `locals`: shows the locals of the innermost frame.
    Locals,
    /// `globals`: shows the globals of the innermost level, after the end those of the outer one.
    Globals,
    /// `cells`: shows the cells that stand otherwise than at the start.
    Cells,
    /// `where`: shows the frames that are open at all levels.
    Where,
    /// `bytes:FROM:N`: shows so many bytes from this address on of the same level's memory.
    Bytes(u64, u64),
}

/// The command of a word that has no numbers.
fn plain_of<'w>(word: &str) -> Option<Command<'w>>
    ensures { MatchOption result (IsNotPlain word.now) (Spells word.now) }
{
    if is_word(word, "cont") {
        return Some(Command::Cont);
    }
    if is_word(word, "place") {
        return Some(Command::Place);
    }
    if is_word(word, "stack") {
        return Some(Command::Stack);
    }
    if is_word(word, "locals") {
        return Some(Command::Locals);
    }
    if is_word(word, "globals") {
        return Some(Command::Globals);
    }
    if is_word(word, "cells") {
        return Some(Command::Cells);
    }
    if is_word(word, "where") {
        return Some(Command::Where);
    }
    None
}

/// The command of a word that has a number of turns.
fn move_of<'w>(alloc: Global, word: &str) -> Result<Option<Command<'w>>, AllocError>
    ensures { IfOk result (λ found. MatchOption found (IsNoMove word.now) (Spells word.now)) }
{
    if let Some(count) = number_after(alloc, word, "step")? {
        return Ok(Some(Command::Step(count)));
    }
    if let Some(count) = number_after(alloc, word, "back")? {
        return Ok(Some(Command::Back(count)));
    }
    Ok(None)
}

/// The place that stands behind a name and a colon.
fn spot_after<'w>(alloc: Global, word: &'w str, name: &str) -> Result<Option<Spot<'w>>, AllocError>
    requires { HasNoColon name.now }
    ensures { IfOk result (λ found. MatchOption found ((s : Named) → IsSpotInRange s → word.entry.now ≢ name.now ++ 58 ∷ spot_text s) (λ s. IsSpotInRange s × (word.entry.now ≡ name.now ++ 58 ∷ spot_text s))) }
{
    match after_name(word, name) {
        Some(text) => spot_of(alloc, text),
        None => Ok(None),
    }
}

/// The command of a word that sets or clears a break.
fn break_of<'w>(alloc: Global, word: &'w str) -> Result<Option<Command<'w>>, AllocError>
    ensures { IfOk result (λ found. MatchOption found (IsNoBreak word.entry.now) (Spells word.entry.now)) }
{
    if let Some(spot) = spot_after(alloc, word, "break")? {
        return Ok(Some(Command::Break(spot)));
    }
    if let Some(spot) = spot_after(alloc, word, "clear")? {
        return Ok(Some(Command::Clear(spot)));
    }
    Ok(None)
}

/// The command of a word that asks for bytes.
fn bytes_of<'w>(alloc: Global, word: &str) -> Result<Option<Command<'w>>, AllocError>
    ensures { IfOk result (λ found. MatchOption found (AreNoBytes word.now) (Spells word.now)) }
{
    match numbers_after(alloc, word, "bytes")? {
        Some((from, count)) => Ok(Some(Command::Bytes(from, count))),
        None => Ok(None),
    }
}

/// The command that a word spells: `step:N`, `back:N`, `cont`, `place`, `break:F:O`, `break:C:F:O`, `break:NAME:O`, `clear` with the same, `stack`, `locals`,
/// `globals`, `cells`, `where` or `bytes:FROM:N`. Numbers are decimal with no needless zero, C, F and O of 32 bits and the others of 64. NAME is all that stands before the last
/// colon, and neither a number of 32 bits nor two with a colon between them. None where the word spells none.
pub fn command_of<'w>(alloc: Global, word: &'w str) -> Result<Option<Command<'w>>, AllocError>
    ensures { IfOk result (λ found. MatchOption found ((c : Asked) → ¬ Spells word.entry.now c) (Spells word.entry.now)) }
{
    if let Some(command) = plain_of(word) {
        return Ok(Some(command));
    }
    if let Some(command) = move_of(alloc, word)? {
        return Ok(Some(command));
    }
    if let Some(command) = break_of(alloc, word)? {
        return Ok(Some(command));
    }
    bytes_of(alloc, word)
}

/// The commands that these words spell, one each. None where one of them spells none.
pub fn commands_of<'w>(
    alloc: Global,
    words: &[&'w str],
) -> Result<Option<Vec<Command<'w>>>, AllocError>
    ensures { IfOk result (λ found. MatchOption found ((cs : List Asked) → ¬ Spell (texts words.now) cs) (λ cs. Spell (texts words.now) cs.items)) }
{
    let mut commands = Vec::new(alloc);
    let mut at = 0;
    while at < words.len() {
        let Some(command) = command_of(alloc, words[at])? else {
            return Ok(None);
        };
        commands.push(command)?;
        at += 1;
    }
    Ok(Some(commands))
}
