//! What the words of a line ask to call.

ghost use Rattle.std.specs.Prelude.{ℕ, List, IfOk, MatchOption};
ghost use Rattle.wblock_calls.specs.Words.{texts};
ghost use Rattle.wblock_line.specs.Words.{choices};
ghost use Rattle.wblock_call.specs.Calling.{AsksCall, IsCallOf};
ghost use Rattle.wblock_call.specs.declared.called.Calling.{Calling as TheCalling};

use crate::style::{Style, is_style_alone, style_in};
use call::Call;
use std::alloc::{AllocError, Global};
use wblock_calls::call_of_words;
use wblock_line::is_word;

/// What is to be called.
#[derive(Debug, Drop)]
pub struct Calling<'w> {
    /// The name of the file of the world.
    pub world: &'w str,
    /// The call.
    pub call: Call,
    /// How it is told what it comes to.
    pub style: Style,
}

/// The world and the words of the call.
fn parts_of<'l, 'w>(words: &'l [&'w str]) -> Option<(&'w str, &'l [&'w str])>
    ensures { MatchOption result ((world : List ℕ) (spelling : List (List ℕ)) → ¬ IsCallOf (texts words.entry.now) world spelling) (λ x. IsCallOf (texts words.entry.now) x.0.now (texts x.1.now)) }
{
    if words.len() < 2 || !is_word(words[0], "call") {
        return None;
    }
    Some((words[1], &words[2..]))
}

/// What a line of these words and options asks to call: `call WORLD CONTRACT FUEL ENTRY ARG... [--json] [--signed]`, behind WORLD the words of a line of
/// calls. None where it asks for no such thing.
pub fn calling_of<'w>(
    alloc: Global,
    words: &[&'w str],
    options: &[(&str, &str)],
) -> Result<Option<Calling<'w>>, AllocError>
    ensures { IfOk result (λ found. MatchOption found ((c : TheCalling) → ¬ AsksCall (record { words = texts words.now; options = choices options.now }) c) (AsksCall (record { words = texts words.now; options = choices options.now }))) }
{
    let Some(style) = style_in(alloc, options)? else {
        return Ok(None);
    };
    let alone = is_style_alone(alloc, options)?;
    if !alone {
        return Ok(None);
    }
    let Some((world, spelling)) = parts_of(words) else {
        return Ok(None);
    };
    let Some(call) = call_of_words(alloc, spelling)? else {
        return Ok(None);
    };
    Ok(Some(Calling { world, call, style }))
}
