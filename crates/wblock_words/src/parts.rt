//! The parts of a custom section.

ghost use Rattle.std.specs.Prelude.{ℕ, List, MatchOption};
ghost use Rattle.spec_modules.specs.Syntax.{Name};
ghost use Rattle.wblock_words.specs.Parts.{HasNumber, HasSized, HasName, HasSection};

use leb::read_u32;
use std::str::from_utf8;

/// A number, and what stands behind it.
pub(crate) fn number_and_rest(bytes: &[u8]) -> Option<(u32, &[u8])>
    ensures { MatchOption result ((n : ℕ) (rest : List ℕ) → ¬ HasNumber bytes.now n rest) (λ x. HasNumber bytes.now x.0 x.1.now) }
{
    let (number, end) = read_u32(bytes, 0)?;
    Some((number, &bytes[end..]))
}

/// So many bytes as a number says, and what stands behind them.
pub(crate) fn sized_and_rest(bytes: &[u8]) -> Option<(&[u8], &[u8])>
    ensures { MatchOption result ((content rest : List ℕ) → ¬ HasSized bytes.now content rest) (λ x. HasSized bytes.now x.0.now x.1.now) }
{
    let (size, rest) = number_and_rest(bytes)?;
    if size as usize > rest.len() {
        return None;
    }
    Some(rest.split_at(size as usize))
}

/// The id of a section, its content, and what stands behind it.
pub(crate) fn section_and_rest(bytes: &[u8]) -> Option<(u8, &[u8], &[u8])>
    ensures { MatchOption result ((id : ℕ) (content rest : List ℕ) → ¬ HasSection bytes.now id content rest) (λ x. HasSection bytes.now x.0 x.1.now x.2.now) }
{
    let (id, after) = bytes.split_first()?;
    let (content, rest) = sized_and_rest(after)?;
    Some((*id, content, rest))
}

/// A name, and what stands behind it.
pub(crate) fn name_and_rest(bytes: &[u8]) -> Option<(&str, &[u8])>
    ensures { MatchOption result ((n : Name) (rest : List ℕ) → ¬ HasName bytes.now n rest) (λ x. HasName bytes.now x.0.now x.1.now) }
{
    let (content, rest) = sized_and_rest(bytes)?;
    match from_utf8(content) {
        Ok(name) => Some((name, rest)),
        Err(_) => None,
    }
}
