//! A line as a call.

ghost use Rattle.std.specs.Prelude.{◌≡◌, IfOk, MatchOption, map};
ghost use Rattle.spec_execution.specs.Run.{ContractCall};
ghost use Rattle.wblock_calls.specs.Texts.{AreCall, IsLineOf, words_of};

use crate::words::{is_plain, number_of, values_of};
use call::Call;
use std::alloc::{AllocError, Global};
use std::str::from_utf8;

/// The call that the words `CONTRACT FUEL ENTRY ARG...` spell, each as in a line of calls. None where they spell none.
pub fn call_of_words(alloc: Global, words: &[&str]) -> Result<Option<Call>, AllocError>
    ensures { IfOk result (λ found. MatchOption found ((c : ContractCall) → ¬ AreCall (map (λ w. w.now) words.now) c) (AreCall (map (λ w. w.now) words.now))) }
{
    if words.len() < 3 || words[2].is_empty() || !is_plain(words[2]) {
        return Ok(None);
    }
    let Some(contract) = number_of(alloc, words[0])? else {
        return Ok(None);
    };
    let Ok(contract) = u32::try_from(contract) else {
        return Ok(None);
    };
    let Some(fuel) = number_of(alloc, words[1])? else {
        return Ok(None);
    };
    let Some(args) = values_of(alloc, &words[3..])? else {
        return Ok(None);
    };
    let entry = words[2].to_string(alloc)?;
    Ok(Call::new(contract, entry, args, fuel))
}

/// The call that a line spells, which has no newline.
pub(crate) fn call_of(alloc: Global, line: &[u8]) -> Result<Option<Call>, AllocError>
    ensures { IfOk result (λ found. MatchOption found ((c : ContractCall) → ¬ IsLineOf line.now c) (IsLineOf line.now)) }
{
    let Ok(line) = from_utf8(line) else {
        return Ok(None);
    };
    let words = split_words(alloc, line)?;
    call_of_words(alloc, words.as_slice())
}

/// What stands between the spaces of a line.
pub fn split_words<'a>(alloc: Global, line: &'a str) -> Result<Vec<&'a str>, AllocError>
    ensures { IfOk result (λ v. map (λ w. w.now) v.items ≡ words_of line.entry.now) }
{
    line.split(' ').collect(alloc)
}
