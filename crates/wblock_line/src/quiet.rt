//! The word that asks for no progress.

ghost use Rattle.std.specs.Prelude.{◌≡◌, IfOk};
ghost use Rattle.wblock_calls.specs.Words.{texts};
ghost use Rattle.wblock_line.specs.ProgressOfWords.{is_quiet, others, has_quiet};

use std::alloc::{AllocError, Global};

/// The word.
const QUIET: &str = "--quiet";

/// The word without the dashes.
pub const QUIET_NAME: &str = "quiet";

/// The words of a line without `--quiet`.
#[derive(Debug, Drop)]
pub struct Words<'w> {
    /// The others, in their order.
    pub others: Vec<&'w str>,
    /// Whether `--quiet` stood among them.
    pub quiet: bool,
}

/// Whether a word is `--quiet`.
fn is_quiet(word: &str) -> bool
    ensures { result ≡ is_quiet word.now }
{
    word == QUIET
}

/// Takes `--quiet` out of the words, wherever it stands.
pub fn without_quiet<'w>(alloc: Global, words: &[&'w str]) -> Result<Words<'w>, AllocError>
    ensures others { IfOk result (λ line. texts line.others.items ≡ others (texts words.now)) }
    ensures quiet { IfOk result (λ line. line.quiet ≡ has_quiet (texts words.now)) }
{
    let mut others = Vec::new(alloc);
    let mut quiet = false;
    for word in words {
        if is_quiet(*word) {
            quiet = true;
        } else {
            others.push(*word)?;
        }
    }
    Ok(Words { others, quiet })
}
