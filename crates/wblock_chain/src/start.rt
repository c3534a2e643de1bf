//! The words that ask for a session.

ghost use Rattle.std.specs.Prelude.{ℕ, List, IfOk, MatchOption};
ghost use Rattle.wblock_calls.specs.Words.{texts};
ghost use Rattle.wblock_line.specs.Words.{choices};
ghost use Rattle.wblock_chain.specs.Words.{AsksChain, IsChain};

use std::alloc::{AllocError, Global};
use wblock_line::{is_word, split_words};

/// The name of the file of the world, where these words and options are `chain WORLD`.
fn world_in<'a>(words: &[&'a str], options: &[(&str, &str)]) -> Option<&'a str>
    ensures { MatchOption result ((world : List ℕ) → ¬ IsChain (record { words = texts words.now; options = choices options.now }) world) (λ world. IsChain (record { words = texts words.now; options = choices options.now }) world.now) }
{
    if !options.is_empty() || words.len() != 2 || !is_word(words[0], "chain") {
        return None;
    }
    Some(words[1])
}

/// The name of the file of the world of the session that these words ask for, `chain WORLD`; or None where they ask for none.
///
/// # Errors
///
/// The allocator refused memory.
pub fn session_world_of<'a>(
    alloc: Global,
    words: &'a [&'a str],
) -> Result<Option<&'a str>, AllocError>
    ensures { IfOk result (λ found. MatchOption found ((world : List ℕ) → ¬ AsksChain (texts words.entry.now) world) (λ world. AsksChain (texts words.entry.now) world.now)) }
{
    match split_words(alloc, words)? {
        Some(line) => Ok(world_in(line.words.as_slice(), line.options.as_slice())),
        None => Ok(None),
    }
}
