//! Words that have numbers behind a name.

ghost use Rattle.std.specs.Prelude.{◌≡◌, ◌≢◌, ◌<◌, ◌^◌, ℕ, List, ◌∷◌, ◌++◌, IfOk, MatchOption};
ghost use Rattle.wblock_usage.specs.Words.{HasNoColon, two_numbers, with_number, with_numbers};

use std::alloc::{AllocError, Global};
use wblock_calls::number_of;

/// What stands before and after the first colon of a word.
pub fn parts_of<'a>(word: &'a str) -> Option<(&'a str, &'a str)>
    ensures { MatchOption result (HasNoColon word.entry.now) (λ x. HasNoColon x.0.now × (word.entry.now ≡ x.0.now ++ 58 ∷ x.1.now)) }
{
    word.split_once(':')
}

/// What stands behind a name and a colon.
pub fn after_name<'a>(word: &'a str, name: &str) -> Option<&'a str>
    requires { HasNoColon name.now }
    ensures { MatchOption result ((rest : List ℕ) → word.entry.now ≢ name.now ++ 58 ∷ rest) (λ rest. word.entry.now ≡ name.now ++ 58 ∷ rest.now) }
{
    let Some((front, rest)) = parts_of(word) else {
        return None;
    };
    if front == name { Some(rest) } else { None }
}

/// The number of `NAME:N`.
pub fn number_after(alloc: Global, word: &str, name: &str) -> Result<Option<u64>, AllocError>
    requires { HasNoColon name.now }
    ensures { IfOk result (λ found. MatchOption found ((n : ℕ) → n < 2 ^ 64 → word.now ≢ with_number name.now n) (λ n. word.now ≡ with_number name.now n)) }
{
    match after_name(word, name) {
        Some(number) => number_of(alloc, number),
        None => Ok(None),
    }
}

/// The numbers of `M:N`.
fn pair_of(alloc: Global, word: &str) -> Result<Option<(u64, u64)>, AllocError>
    ensures { IfOk result (λ found. MatchOption found ((m n : ℕ) → m < 2 ^ 64 → n < 2 ^ 64 → word.now ≢ two_numbers m n) (λ x. word.now ≡ two_numbers x.0 x.1)) }
{
    let Some((first, second)) = parts_of(word) else {
        return Ok(None);
    };
    let Some(first) = number_of(alloc, first)? else {
        return Ok(None);
    };
    let Some(second) = number_of(alloc, second)? else {
        return Ok(None);
    };
    Ok(Some((first, second)))
}

/// The numbers of `NAME:M:N`.
pub fn numbers_after(
    alloc: Global,
    word: &str,
    name: &str,
) -> Result<Option<(u64, u64)>, AllocError>
    requires { HasNoColon name.now }
    ensures { IfOk result (λ found. MatchOption found ((m n : ℕ) → m < 2 ^ 64 → n < 2 ^ 64 → word.now ≢ with_numbers name.now m n) (λ x. word.now ≡ with_numbers name.now x.0 x.1)) }
{
    match after_name(word, name) {
        Some(numbers) => pair_of(alloc, numbers),
        None => Ok(None),
    }
}
