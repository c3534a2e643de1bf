//! The words of a line, with its options taken out.

ghost use Rattle.std.specs.Prelude.{◌≡◌, ◌≤◌, ◌<◌, ◌↔◌, Bool, IfOk, IfSome, IsTrue, MatchOption, Some, None, length, map, option_map, if◌then◌else◌};
ghost use Rattle.wblock_line.specs.Words.{choices, split, line_of, is_option, is_switch, has_value, halves, AsksAlone, IsTaken};

use std::alloc::{AllocError, Global};

/// The words of a line and its options.
#[derive(Debug, Drop)]
pub struct Line<'a> {
    /// The words that are no options, in their order.
    pub words: Vec<&'a str>,
    /// The options, each with its name, hyphens included, and its value, which is empty for one that has none, in their order.
    pub options: Vec<(&'a str, &'a str)>,
}

/// Whether a word is this one.
pub fn is_word(word: &str, name: &str) -> bool
    ensures { IsTrue result ↔ (word.now ≡ name.now) }
{
    word == name
}

fn begins_option(word: &str) -> bool
    ensures { result ≡ is_option word.now }
{
    word.starts_with('-')
}

/// The switch that asks for JSON.
pub const JSON_SWITCH: &str = "--json";

/// The switch that lets a file be written in the place of one that is there.
pub const FORCE_SWITCH: &str = "--force";

/// The switch that lets workers over one book run calls, as the papers describe it.
pub const BOOSTED_SWITCH: &str = "--boosted";

/// The switch that asks for signed numbers of cells.
pub const SIGNED_SWITCH: &str = "--signed";

/// The switch that asks for the text of a module that need not be valid.
pub const UNCHECKED_SWITCH: &str = "--unchecked";

/// Whether the option of this name has no value.
pub fn is_switch(word: &str) -> bool
    ensures { result ≡ is_switch word.now }
{
    word == JSON_SWITCH
        || word == FORCE_SWITCH
        || word == BOOSTED_SWITCH
        || word == SIGNED_SWITCH
        || word == UNCHECKED_SWITCH
}

/// The two parts of `NAME=VALUE`, or a switch and no value.
fn halves_of<'a>(word: &'a str) -> Option<(&'a str, &'a str)>
    ensures { option_map (λ x. (x.0.now, x.1.now)) result ≡ (if has_value word.entry.now then Some (halves word.entry.now) else None) }
{
    if is_switch(word) {
        return Some((word, ""));
    }
    word.split_once('=')
}

/// Takes the first word into the line, an option with its value, and says how many words that were; or None where the value is not there.
fn take_word<'a>(line: &mut Line<'a>, words: &[&'a str]) -> Result<Option<usize>, AllocError>
    requires { 0 < length words.now }
    ensures taken { IfOk result (λ n. IsTaken (line_of line.old) (map (λ w. w.now) words.now) (line_of line.new) n) }
    ensures some { IfOk result (λ found. IfSome found (λ n. 0 < n)) }
    ensures within { IfOk result (λ found. IfSome found (λ n. n ≤ length words.now)) }
{
    let word = words[0];
    if !begins_option(word) {
        line.words.push(word)?;
        return Ok(Some(1));
    }
    if let Some(halves) = halves_of(word) {
        line.options.push(halves)?;
        return Ok(Some(1));
    }
    if words.len() == 1 {
        return Ok(None);
    }
    line.options.push((word, words[1]))?;
    Ok(Some(2))
}

/// The words of a line with its options taken out: a word that begins with a hyphen is an option, `NAME=VALUE` or `NAME VALUE`, and stands
/// anywhere; `--json`, `--force`, `--boosted`, `--signed` and `--unchecked` have no value, and are taken as options with an empty one. None where the last word is an option without its value.
pub fn split_words<'a>(alloc: Global, words: &'a [&'a str]) -> Result<Option<Line<'a>>, AllocError>
    ensures { IfOk result (λ found. option_map line_of found ≡ split (map (λ w. w.now) words.entry.now)) }
{
    let mut line = Line {
        words: Vec::new(alloc),
        options: Vec::new(alloc),
    };
    let mut at = 0;
    while at < words.len() {
        match take_word(&mut line, &words[at..])? {
            Some(taken) => at += taken,
            None => return Ok(None),
        }
    }
    Ok(Some(line))
}

/// Whether options are the switch of this name, alone and without a value, or nothing; or None where they are something else.
pub fn switch_alone(options: &[(&str, &str)], name: &str) -> Option<bool>
    ensures { MatchOption result ((given : Bool) → ¬ AsksAlone name.now (choices options.now) given) (AsksAlone name.now (choices options.now)) }
{
    if options.is_empty() {
        return Some(false);
    }
    if options.len() > 1 || !is_word(options[0].0, name) || !options[0].1.is_empty() {
        return None;
    }
    Some(true)
}
