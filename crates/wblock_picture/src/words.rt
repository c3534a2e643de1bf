//! The locks of a position, and outcomes, in words.

ghost use Rattle.std.specs.Prelude.{◌≡◌, ◌-◌, ◌≤◌, length, take, IfOk, string_bytes};
ghost use Rattle.wblock_picture.specs.Words.{entry_text, entries_text, more_text, locks_text, letter};

use crate::first::first_of;
use crate::scene::MOST_LOCKS;
use figures::{lock_text_of, word_of_mode};
use spec_ledger::{Entry, Outcome};
use std::alloc::{AllocError, Global};

/// The letter of a box, which is its class too: `R` returned, `T` trapped, `F` out of fuel, `X` rejected.
pub(crate) fn letter_of(outcome: Outcome) -> &'static str
    ensures { result.now ≡ letter outcome }
{
    match outcome {
        Outcome::Returned(_) => "R",
        Outcome::Trapped(_) => "T",
        Outcome::OutOfFuel => "F",
        Outcome::Rejected(_) => "X",
    }
}

/// A line for a lock that a position holds.
fn entry_text_of(alloc: Global, entry: Entry) -> Result<String, AllocError>
    ensures { IfOk result (λ text. string_bytes text ≡ entry_text entry) }
{
    let lock = lock_text_of(alloc, entry.lock)?;
    let mode = word_of_mode(entry.mode);
    let turn = entry.turn;
    format!(in alloc; "\n{lock} {mode} turn {turn}")
}

/// A line for each of these locks.
fn entries_text_of(alloc: Global, entries: &[Entry]) -> Result<String, AllocError>
    ensures { IfOk result (λ text. string_bytes text ≡ entries_text entries.now) }
{
    let mut text = String::new(alloc);
    for entry in entries {
        let line = entry_text_of(alloc, *entry)?;
        text.push_str(line.as_str())?;
    }
    Ok(text)
}

/// The line that tells how many locks are not told.
fn more_text_of(alloc: Global, more: usize) -> Result<String, AllocError>
    ensures { IfOk result (λ text. string_bytes text ≡ more_text more) }
{
    match more {
        0 => Ok(String::new(alloc)),
        more => format!(in alloc; "\n{more} more"),
    }
}

/// The locks of a position, the first of them.
pub(crate) fn locks_text_of(alloc: Global, entries: &[Entry]) -> Result<String, AllocError>
    ensures { IfOk result (λ text. string_bytes text ≡ locks_text entries.now) }
{
    let lines = entries_text_of(alloc, first_of(entries, MOST_LOCKS))?;
    let more = more_text_of(alloc, entries.len().saturating_sub(MOST_LOCKS))?;
    format!(in alloc; "{lines}{more}")
}
