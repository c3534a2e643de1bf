//! What sentences are made of: the name and the number of what they speak of, and words as they are shown.

ghost use Rattle.std.specs.Prelude.{◌≡◌, ◌≤◌, ◌⊎◌, ◌++◌, IfOk, codes, decimal, length, string_bytes};
ghost use Rattle.wblock_calls.specs.Sentences.{Begins};

use std::alloc::{AllocError, Global};

/// A word as it is shown: dots stand for one that is longer than 60 bytes or has control characters.
pub fn printable(word: &str) -> &str
    ensures word { (result.now ≡ word.now) ⊎ (result.now ≡ codes "..") }
    ensures short { length result.now ≤ 60 }
{
    if word.len() > 60 || word.bytes().any(|b| b < b' ' || b == 127) {
        return "..";
    }
    word
}

/// A sentence: what it speaks of, by its name and number, and what is said of it.
pub fn place_line(
    alloc: Global,
    name: &str,
    number: usize,
    said: &str,
) -> Result<String, AllocError>
    ensures { IfOk result (λ s. Begins (name.now ++ decimal number) (string_bytes s)) }
{
    format!(in alloc; "{name}{number}{said}")
}
