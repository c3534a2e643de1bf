//! What a line of a session asks for.

ghost use Rattle.std.specs.Prelude.{◌≡◌, ◌↔◌, ℕ, List, [], ◌∷◌, ◌++◌, IfOk, IfSome, MatchOption, OnOk, IsTrue, codes};
ghost use Rattle.std.specs.Str.{bytes_eq};
ghost use Rattle.wblock_calls.specs.Texts.{words_of};
ghost use Rattle.wblock_calls.specs.Words.{texts};
ghost use Rattle.wblock_line.specs.Words.{choices, line_of};
ghost use Rattle.wblock_chain.specs.Words.{IsAsked, IsFewAsked, IsOwn, IsOverAsked, IsOverWorld, has_calls, named, named_as, named_behind, named_both, named_calls, single_line, single_options, single_words, takes_calls};
ghost use Rattle.wblock_chain.specs.declared.asked.SessionCommand.{SessionCommand as Asked};

use std::alloc::{AllocError, Global};
use wblock_calls::split_words;
use wblock_commands::{Command, command_of};
use wblock_line::{Line, is_word};

/// The name of the file of calls that stand behind a line. No word is it, since words have no spaces.
pub(crate) const CALLS_HERE: &str = "calls -";

/// The name of the file of a block whose bytes are told.
pub(crate) const TOLD_BLOCK: &str = "block -";

/// What a line of a session asks for.
#[derive(Debug, Drop)]
pub enum SessionCommand<'l, 'w> {
    /// `mine`, `validate`, `call` or `deploy`, as the program has them, over the session's world.
    Single(Command<'l, 'w>),
    /// `save FILE`: the world's bytes in a file.
    Save(&'w str),
    /// `digest`: SHA-256 of the world's bytes.
    Digest,
    /// `quit`: the end of the session.
    Quit,
}

/// Whether two words are the same.
fn are_same(word: &str, other: &str) -> bool
    ensures { result ≡ bytes_eq word.now other.now }
{
    word == other
}

/// Whether a word is that of a command that has CALLS.
fn has_calls(word: &str) -> bool
    ensures { result ≡ has_calls word.now }
{
    are_same(word, "mine") || are_same(word, "validate")
}

/// Whether the words begin with `mine -` or `validate -`: the calls stand behind the line then.
pub(crate) fn takes_calls(words: &[&str]) -> bool
    ensures { result ≡ takes_calls (texts words.now) }
{
    match words {
        [word, calls, ..] => has_calls(*word) && are_same(*calls, "-"),
        _ => false,
    }
}

/// `-` by the name of its file, and each other word as it is.
fn named_as<'a>(name: &'a str, word: &'a str) -> &'a str
    ensures { result.now ≡ named_as name.entry.now word.entry.now }
{
    if are_same(word, "-") { name } else { word }
}

/// Puts the words behind `mine`, CALLS and BLOCK by the names of their files.
fn push_both<'a>(made: &mut Vec<&'a str>, words: &[&'a str]) -> Result<(), AllocError>
    ensures { OnOk result (texts made.new.items ≡ texts made.old.items ++ named_both (texts words.now)) }
{
    match words {
        [] => Ok(()),
        [calls] => {
            made.push(named_as(CALLS_HERE, *calls))?;
            Ok(())
        }
        [calls, block, others @ ..] => {
            made.push(named_as(CALLS_HERE, *calls))?;
            made.push(named_as(TOLD_BLOCK, *block))?;
            made.extend_from_slice(others)?;
            Ok(())
        }
    }
}

/// Puts the words behind `validate`, CALLS by the name of its file.
fn push_calls<'a>(made: &mut Vec<&'a str>, words: &[&'a str]) -> Result<(), AllocError>
    ensures { OnOk result (texts made.new.items ≡ texts made.old.items ++ named_calls (texts words.now)) }
{
    match words {
        [] => Ok(()),
        [calls, others @ ..] => {
            made.push(named_as(CALLS_HERE, *calls))?;
            made.extend_from_slice(others)?;
            Ok(())
        }
    }
}

/// Puts the words behind the first.
fn push_behind<'a>(made: &mut Vec<&'a str>, word: &str, words: &[&'a str]) -> Result<(), AllocError>
    ensures { OnOk result (texts made.new.items ≡ texts made.old.items ++ named_behind word.now (texts words.now)) }
{
    if are_same(word, "mine") {
        return push_both(made, words);
    }
    if are_same(word, "validate") {
        return push_calls(made, words);
    }
    made.extend_from_slice(words)?;
    Ok(())
}

/// The words with CALLS `-` and BLOCK `-` by the names of their files.
fn named_words<'a>(alloc: Global, words: &[&'a str]) -> Result<Vec<&'a str>, AllocError>
    ensures { IfOk result (λ made. texts made.items ≡ named (texts words.now)) }
{
    let mut made = Vec::new(alloc);
    match words {
        [] => Ok(made),
        [word, others @ ..] => {
            made.push(*word)?;
            push_behind(&mut made, *word, others)?;
            Ok(made)
        }
    }
}

/// The words of a line's text, with CALLS `-` and BLOCK `-` by the names of their files.
pub(crate) fn line_words<'a>(alloc: Global, text: &'a str) -> Result<Vec<&'a str>, AllocError>
    ensures { IfOk result (λ made. texts made.items ≡ named (words_of text.entry.now)) }
{
    let words = split_words(alloc, text)?;
    named_words(alloc, words.as_slice())
}

/// The words of the program's line that a line of a session over the world of this name stands for.
fn single_words<'a>(
    alloc: Global,
    name: &'a str,
    words: &[&'a str],
) -> Result<Vec<&'a str>, AllocError>
    ensures { IfOk result (λ made. texts made.items ≡ single_words name.entry.now (texts words.now)) }
{
    let mut made = Vec::new(alloc);
    match words {
        [] => Ok(made),
        [word, others @ ..] => {
            made.push(*word)?;
            made.push(name)?;
            made.extend_from_slice(others)?;
            if !are_same(*word, "mine") {
                return Ok(made);
            }
            made.push(name)?;
            Ok(made)
        }
    }
}

/// The options of that line.
fn single_options<'a>(
    alloc: Global,
    name: &'a str,
    words: &[&'a str],
    options: &[(&'a str, &'a str)],
) -> Result<Vec<(&'a str, &'a str)>, AllocError>
    ensures { IfOk result (λ made. choices made.items ≡ single_options name.entry.now (texts words.now) (choices options.now)) }
{
    let mut made = Vec::new(alloc);
    made.extend_from_slice(options)?;
    match words {
        [] => Ok(made),
        [word, ..] => {
            if are_same(*word, "validate") {
                made.push(("--next", name))?;
                return Ok(made);
            }
            if are_same(*word, "deploy") {
                made.push(("--onto", name))?;
                return Ok(made);
            }
            Ok(made)
        }
    }
}

/// The program's line that a line of a session over the world of this name stands for.
pub(crate) fn single_line<'a>(
    alloc: Global,
    name: &'a str,
    line: &Line<'a>,
) -> Result<Line<'a>, AllocError>
    ensures { IfOk result (λ made. line_of made ≡ single_line name.entry.now (line_of line.now)) }
{
    let words = single_words(alloc, name, line.words.as_slice())?;
    let options = single_options(alloc, name, line.words.as_slice(), line.options.as_slice())?;
    Ok(Line { words, options })
}

/// Whether a session has this command.
fn is_over_world(command: &Command) -> bool
    ensures { IsTrue result ↔ IsOverWorld command.now }
{
    match command {
        Command::Stored => false,
        Command::Help(_) => false,
        Command::Version => false,
        Command::Asm(_, _, _) => false,
        Command::Text(_, _, _, _) => false,
        Command::Check(_, _, _) => false,
        Command::Deploy(_) => true,
        Command::Mine(task) => !is_word(task.block, CALLS_HERE),
        Command::Validate(task) => !is_word(task.block, CALLS_HERE),
        Command::Call(_) => true,
        Command::Debug(_) => false,
        Command::Show(_) => false,
    }
}

/// The file of `save FILE`, where the words are these.
fn saved_in<'w>(words: &[&'w str]) -> Option<&'w str>
    ensures { MatchOption result ((file : List ℕ) → ¬ (texts words.now ≡ codes "save" ∷ file ∷ [])) (λ file. texts words.now ≡ codes "save" ∷ file.now ∷ []) }
{
    if words.len() != 2 || !is_word(words[0], "save") {
        return None;
    }
    Some(words[1])
}

/// Whether this word stands alone.
fn is_alone(words: &[&str], word: &str) -> bool
    ensures { IsTrue result ↔ (texts words.now ≡ word.now ∷ []) }
{
    match words {
        [only] => is_word(*only, word),
        _ => false,
    }
}

/// What the words of a line ask for that are no single command's.
fn own_command_of<'l, 'w>(line: &Line<'w>) -> Option<SessionCommand<'l, 'w>>
    ensures { MatchOption result ((c : Asked) → ¬ IsOwn (line_of line.now) c) (IsOwn (line_of line.now)) }
{
    if !line.options.is_empty() {
        return None;
    }
    let words = line.words.as_slice();
    if is_alone(words, "digest") {
        return Some(SessionCommand::Digest);
    }
    if is_alone(words, "quit") {
        return Some(SessionCommand::Quit);
    }
    match saved_in(words) {
        Some(file) => Some(SessionCommand::Save(file)),
        None => None,
    }
}

/// What a line asks for in a session over the world of a name, of which `single` is the program's line; or None where it asks for nothing.
pub fn session_command_of<'l, 'w>(
    alloc: Global,
    _name: &'w str,
    line: &Line<'w>,
    single: &'l Line<'w>,
) -> Result<Option<SessionCommand<'l, 'w>>, AllocError>
    requires { line_of single.now ≡ single_line _name.now (line_of line.now) }
    ensures few { IfOk result (λ found. IfSome found IsFewAsked) }
    ensures over { IfOk result (λ found. IfSome found (IsOverAsked _name.entry.now)) }
    ensures asked { IfOk result (λ found. MatchOption found ((c : Asked) → ¬ IsAsked _name.entry.now (line_of line.now) c) (IsAsked _name.entry.now (line_of line.now))) }
{
    if let Some(own) = own_command_of(line) {
        return Ok(Some(own));
    }
    let Some(command) = command_of(alloc, single)? else {
        return Ok(None);
    };
    if !is_over_world(&command) {
        return Ok(None);
    }
    Ok(Some(SessionCommand::Single(command)))
}
