//! Words as numbers and values.

ghost use Rattle.std.specs.Prelude.{◌≡◌, ◌≢◌, ◌<◌, ◌^◌, ℕ, ℤ, List, IfOk, MatchBool, MatchOption, FitsSigned, decimal, map};
ghost use Rattle.std.specs.List.{All};
ghost use Rattle.std.specs.Int.{w32, w64};
ghost use Rattle.std.specs.Fmt.{signed_decimal};
ghost use Rattle.wtypes.specs.declared.Value.{Value as AValue};
ghost use Rattle.wblock_calls.specs.Texts.{value_text, IsInRange, IsPlain, AreValues};

use std::alloc::{AllocError, Global};
use wtypes::Value;

/// Whether a word has no control character.
pub(crate) fn is_plain(word: &str) -> bool
    ensures { MatchBool result (All IsPlain word.now) (¬ All IsPlain word.now) }
{
    word.bytes().all(|b| b >= b' ' && b != 127)
}

/// The number of 64 bits that a word spells, in decimal with no needless zero.
pub fn number_of(alloc: Global, word: &str) -> Result<Option<u64>, AllocError>
    ensures { IfOk result (λ found. MatchOption found ((n : ℕ) → n < 2 ^ 64 → word.now ≢ decimal n) (λ n. word.now ≡ decimal n)) }
{
    let Ok(n) = word.parse::<u64>() else {
        return Ok(None);
    };
    let again = n.to_string(alloc)?;
    if again.as_str() == word {
        Ok(Some(n))
    } else {
        Ok(None)
    }
}

/// The signed number of 32 bits that a word spells, in decimal with no needless zero or sign.
fn i32_of(alloc: Global, word: &str) -> Result<Option<i32>, AllocError>
    ensures { IfOk result (λ found. MatchOption found ((n : ℤ) → FitsSigned w32 n → word.now ≢ signed_decimal n) (λ n. word.now ≡ signed_decimal n)) }
{
    let Ok(n) = word.parse::<i32>() else {
        return Ok(None);
    };
    let again = n.to_string(alloc)?;
    if again.as_str() == word {
        Ok(Some(n))
    } else {
        Ok(None)
    }
}

/// The signed number of 64 bits that a word spells, in decimal with no needless zero or sign.
fn i64_of(alloc: Global, word: &str) -> Result<Option<i64>, AllocError>
    ensures { IfOk result (λ found. MatchOption found ((n : ℤ) → FitsSigned w64 n → word.now ≢ signed_decimal n) (λ n. word.now ≡ signed_decimal n)) }
{
    let Ok(n) = word.parse::<i64>() else {
        return Ok(None);
    };
    let again = n.to_string(alloc)?;
    if again.as_str() == word {
        Ok(Some(n))
    } else {
        Ok(None)
    }
}

/// The value that a word spells, as `i32:N` or `i64:N` within its signed range.
fn value_of(alloc: Global, word: &str) -> Result<Option<Value>, AllocError>
    ensures none { IfOk result (λ found. MatchOption found ((v : AValue) → IsInRange v → word.now ≢ value_text v) (λ v. word.now ≡ value_text v)) }
    ensures in_range { IfOk result (λ found. MatchOption found (Unit {0}) IsInRange) }
{
    let Some((kind, number)) = word.split_once(':') else {
        return Ok(None);
    };
    if kind == "i32" {
        return Ok(i32_of(alloc, number)?.map(Value::I32));
    }
    if kind == "i64" {
        return Ok(i64_of(alloc, number)?.map(Value::I64));
    }
    Ok(None)
}

/// The values that these words spell.
pub(crate) fn values_of(alloc: Global, words: &[&str]) -> Result<Option<Vec<Value>>, AllocError>
    ensures { IfOk result (λ found. MatchOption found ((vs : List AValue) → ¬ AreValues (map (λ w. w.now) words.now) vs) (λ vs. AreValues (map (λ w. w.now) words.now) vs.items)) }
{
    let mut values = Vec::new(alloc);
    let mut at = 0;
    while at < words.len() {
        let Some(value) = value_of(alloc, words[at])? else {
            return Ok(None);
        };
        values.push(value)?;
        at += 1;
    }
    Ok(Some(values))
}
