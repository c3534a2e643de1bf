//! The calls that a text spells.

ghost use Rattle.std.specs.Prelude.{◌≡◌, ◌≤◌, map, IfOk, IfErr, vec_len};
ghost use Rattle.wblock_calls.specs.Texts.{SpellsCalls, lines_of};
ghost use Rattle.wblock_calls.specs.Refusals.{Tells};

use crate::line::call_of;
use call::Call;
use std::alloc::{AllocError, AllocFailed, Global};
use thiserror::Error;

/// The most calls of a text.
pub const MOST_CALLS: usize = 65_535;

/// Why a text gives no calls.
#[derive(Clone, Copy, Debug, PartialEq, Eq, Error)]
pub enum CallsRefusal {
    /// The first line that spells no call or is not ended, counted from 1.
    #[error("line {0} spells no call")]
    Line(usize),
    /// Each line spells a call, and they are more than 65,535.
    #[error("the calls are more than 65,535")]
    TooMany,
    /// Memory was refused.
    #[error("memory was refused")]
    NoMemory,
}

impl From<AllocError> for CallsRefusal {
    ghost use Rattle.wblock_calls.specs.declared.reader.CallsRefusal.TheVariants.{NoMemory};

    ghost from_gives = { λ _ e. e ≡ NoMemory };

    fn from(_error: AllocError) -> CallsRefusal {
        CallsRefusal::NoMemory
    }
}

impl From<AllocFailed<Call>> for CallsRefusal {
    ghost use Rattle.wblock_calls.specs.declared.reader.CallsRefusal.TheVariants.{NoMemory};

    ghost from_gives = { λ _ e. e ≡ NoMemory };

    fn from(_error: AllocFailed<Call>) -> CallsRefusal {
        CallsRefusal::NoMemory
    }
}

/// What stands between the newlines of a text.
fn split_lines<'a>(alloc: Global, text: &'a [u8]) -> Result<Vec<&'a [u8]>, AllocError>
    ensures { IfOk result (λ v. map (λ l. l.now) v.items ≡ lines_of text.entry.now) }
{
    text.split(|b| *b == b'\n').collect(alloc)
}

/// The calls of a text that has a line `CONTRACT FUEL ENTRY ARG...` for each call: single spaces, each line ended by a
/// newline, numbers in decimal with no needless zero, an ARG as `i32:N` or `i64:N` within its signed range, and an
/// ENTRY that is not empty and has no control character. An empty text has no calls. A refusal for too many calls
/// comes only where no line is at fault.
pub fn read_calls(alloc: Global, text: &[u8]) -> Result<Vec<Call>, CallsRefusal>
    ensures spelled { IfOk result (λ calls. SpellsCalls text.now calls.items) }
    ensures few { IfOk result (λ calls. vec_len calls ≤ 65535) }
    ensures refused { IfErr result (Tells text.now) }
{
    let lines = split_lines(alloc, text)?;
    // The list of lines is never empty.
    let Some((last, ended)) = lines.as_slice().split_last() else {
        return Err(CallsRefusal::Line(1));
    };
    let mut calls = Vec::new(alloc);
    let mut at = 0;
    while at < ended.len() {
        let Some(call) = call_of(alloc, ended[at])? else {
            return Err(CallsRefusal::Line(at + 1));
        };
        calls.push(call)?;
        at += 1;
    }
    if !last.is_empty() {
        return Err(CallsRefusal::Line(at + 1));
    }
    if calls.len() > MOST_CALLS {
        return Err(CallsRefusal::TooMany);
    }
    Ok(calls)
}
