//! The lines that tell what a call alone over cells came to.

ghost use Rattle.std.specs.Prelude.{◌≡◌, Some, IfOk, string_bytes};
ghost use Rattle.lock_profile.specs.Groups.{pair_of, pairs};
ghost use Rattle.wblock_call.specs.Effects.{change_line, change_lines, effects_text, is_same, lock_line, lock_lines, lock_text, maybe_number};

use figures::{word_of_kind, word_of_mode};
use lock_profile::Held;
use serial::Executed;
use spec_ledger::Lock;
use std::alloc::{AllocError, Allocator, Global};
use std::fmt;
use storage::Cells;
use wblock_calls::{NumberText, ReceiptText};

/// A number, printed in decimal, signed or not, or as `-` where there is none.
#[derive(Clone, Copy, Debug, PartialEq, Eq)]
pub struct MaybeNumber {
    /// The number, if there is one.
    pub number: Option<u64>,
    /// Whether it is printed signed.
    pub signed: bool,
}

impl fmt::Display for MaybeNumber {
    ghost output = { λ n. Some (maybe_number n.signed n.number) };

    fn fmt<W: fmt::Write>(&self, f: &mut fmt::Formatter<W>) -> fmt::Result {
        let signed = self.signed;
        match self.number {
            None => write!(f, "-"),
            Some(number) => {
                let number = NumberText { number, signed };
                write!(f, "{number}")
            }
        }
    }
}

/// A lock, as `map C:K` or `counter C:K`, its key signed or not.
fn lock_text_of<A: Allocator>(alloc: A, signed: bool, lock: Lock) -> Result<String<A>, AllocError>
    ensures { IfOk result (λ text. string_bytes text ≡ lock_text signed lock) }
{
    let kind = word_of_kind(lock.kind);
    let contract = lock.contract;
    let key = NumberText {
        number: lock.key,
        signed,
    };
    let text = format!(in alloc; "{kind} {contract}:{key}")?;
    Ok(text)
}

/// `lock LOCK MODE`.
fn lock_line_of(alloc: Global, signed: bool, held: Held) -> Result<String, AllocError>
    ensures { IfOk result (λ line. string_bytes line ≡ lock_line signed (pair_of held)) }
{
    let lock = lock_text_of(alloc, signed, held.lock)?;
    let mode = word_of_mode(held.mode);
    let line = format!(in alloc; "lock {lock} {mode}\n")?;
    Ok(line)
}

/// A line for each lock.
fn lock_lines_of(alloc: Global, signed: bool, locks: &[Held]) -> Result<String, AllocError>
    ensures { IfOk result (λ text. string_bytes text ≡ lock_lines signed (pairs locks.now)) }
{
    let mut text = String::new(alloc);
    for held in locks {
        let line = lock_line_of(alloc, signed, *held)?;
        text.push_str(line.as_str())?;
    }
    Ok(text)
}

/// Whether two cells hold the same.
pub(crate) fn is_same(one: Option<u64>, other: Option<u64>) -> bool
    ensures { result ≡ is_same one other }
{
    match (one, other) {
        (None, None) => true,
        (Some(one), Some(other)) => one == other,
        (None, Some(_)) | (Some(_), None) => false,
    }
}

/// `LOCK BEFORE -> LATER` of a cell that is changed, and of another one nothing.
fn change_line_of<A: Allocator + Copy>(
    alloc: A,
    signed: bool,
    lock: Lock,
    before: Option<u64>,
    later: Option<u64>,
) -> Result<String<A>, AllocError>
    ensures { IfOk result (λ line. string_bytes line ≡ change_line signed lock before later) }
{
    if is_same(before, later) {
        return Ok(String::new(alloc));
    }
    let lock = lock_text_of(alloc, signed, lock)?;
    let before = MaybeNumber {
        number: before,
        signed,
    };
    let later = MaybeNumber {
        number: later,
        signed,
    };
    let line = format!(in alloc; "{lock} {before} -> {later}\n")?;
    Ok(line)
}

/// A line for each cell at these locks that is changed, keys and numbers signed or not.
pub fn change_lines_of<A: Allocator + Copy>(
    alloc: A,
    signed: bool,
    locks: &[Held],
    before: &Cells<A>,
    later: &Cells<A>,
) -> Result<String<A>, AllocError>
    ensures { IfOk result (λ text. string_bytes text ≡ change_lines signed before.now.cells later.now.cells (pairs locks.now)) }
{
    let mut text = String::new(alloc);
    for held in locks {
        let lock = held.lock;
        let line = change_line_of(alloc, signed, lock, before.get(lock), later.get(lock))?;
        text.push_str(line.as_str())?;
    }
    Ok(text)
}

/// The lines of a call that was executed over the cells `before` and left the cells `later`: its receipt, the locks that it asked for with their modes, and
/// the cells at them that it changed, keys and numbers of cells signed or not.
pub(crate) fn effects_text_of(
    alloc: Global,
    signed: bool,
    executed: &Executed,
    before: &Cells,
    later: &Cells,
) -> Result<String, AllocError>
    ensures { IfOk result (λ text. string_bytes text ≡ effects_text signed (record { receipt = executed.now.receipt; touched = executed.now.touched }) before.now.cells later.now.cells) }
{
    let receipt = ReceiptText(executed.receipt);
    let held = executed.touched.lock_modes();
    let locks = lock_lines_of(alloc, signed, held)?;
    let changes = change_lines_of(alloc, signed, held, before, later)?;
    let text = format!(in alloc; "{receipt}\n{locks}{changes}")?;
    Ok(text)
}
