//! Words and numbers of what is told of a block.

ghost use Rattle.std.specs.Prelude.{◌≡◌, IfOk, string_bytes};
ghost use Rattle.figures.specs.Words.{hundredth, kind_word, lock_text, mode_word};

use spec_ledger::{Kind, Lock, Mode};
use std::alloc::{AllocError, Allocator, Global};

/// The word of a kind of locks.
pub fn word_of_kind(kind: Kind) -> &'static str
    ensures { result.now ≡ kind_word kind }
{
    match kind {
        Kind::Map => "map",
        Kind::Counter => "counter",
    }
}

/// A lock, as `map C:K` or `counter C:K`.
///
/// # Errors
///
/// The allocator refused memory.
pub fn lock_text_of<A: Allocator>(alloc: A, lock: Lock) -> Result<String<A>, AllocError>
    ensures { IfOk result (λ text. string_bytes text ≡ lock_text lock) }
{
    let kind = word_of_kind(lock.kind);
    let contract = lock.contract;
    let key = lock.key;
    let text = format!(in alloc; "{kind} {contract}:{key}")?;
    Ok(text)
}

/// The word of a mode.
pub fn word_of_mode(mode: Mode) -> &'static str
    ensures { result.now ≡ mode_word mode }
{
    match mode {
        Mode::Read => "read",
        Mode::Add => "add",
        Mode::Excl => "excl",
    }
}

/// A hundredth of a number, with two decimals.
///
/// # Errors
///
/// The allocator refused memory.
pub fn hundredth_of(alloc: Global, number: u128) -> Result<String, AllocError>
    ensures { IfOk result (λ text. string_bytes text ≡ hundredth number) }
{
    let whole = number / 100;
    let tenths = number / 10 % 10;
    let hundredths = number % 10;
    let text = format!(in alloc; "{whole}.{tenths}{hundredths}")?;
    Ok(text)
}
