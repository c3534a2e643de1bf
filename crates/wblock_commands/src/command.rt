//! What a line of words asks for.

ghost use Rattle.std.specs.Prelude.{◌≡◌, ◌↔◌, ℕ, List, [], ◌∷◌, Bool, Option, IfOk, IfSome, IsTrue, MatchOption, codes};
ghost use Rattle.wblock_line.specs.Words.{line_of};
ghost use Rattle.wblock_calls.specs.Words.{texts};
ghost use Rattle.wblock_line.specs.Words.{choices};
ghost use Rattle.wblock_commands.specs.Words.{AsksStored, AsksAsm, AsksText, AsksShow, AsksCheck, NamesModules, AsksDeploy, AsksMine, AsksValidate, CountsValidate, SpellsValidate, AsksNoTask, IsLineOf, IsApart, KeepsInputs, NextIsApart, SpellsShow, PictureIsApart, AsksHelp, IsTold, HasFew};
ghost use Rattle.wblock_commands.specs.declared.command.Command.{Command as Asked};
ghost use Rattle.wblock_commands.specs.declared.command.Deploying.{Deploying as TheDeploying};
ghost use Rattle.wblock_blocks.specs.declared.mine.Mining.{Mining as TheMining};
ghost use Rattle.wblock_blocks.specs.declared.validate.Validation.{Validation as TheValidation};
ghost use Rattle.wblock_show.specs.declared.file.Showing.{Showing as TheShowing};

use crate::options::{
    boosted_in, calls_in, force_in, form_in, fuel_in, has_only_deploying, has_only_mining,
    has_only_showing, has_only_two, has_only_validation, heap_in, json_in, next_in, onto_in,
    signed_in, tries_in, unchecked_in, workers_in,
};
use std::alloc::{AllocError, Global};
use wblock_blocks::{Mining, Validation};
use wblock_call::{Calling, calling_of};
use wblock_debug::{Debugging, debugging_of};
use wblock_line::{JSON_SWITCH, Line, UNCHECKED_SWITCH, is_word, switch_alone};
use wblock_show::{Form, Showing};
use wblock_usage::declared::HEAP;

/// What is to be deployed.
#[derive(Clone, Copy, Debug)]
pub struct Deploying<'l, 'w> {
    /// The name of the file that is to hold the world.
    pub world: &'w str,
    /// The names of the files of the modules, 1 to 1,024, in their order.
    pub modules: &'l [&'w str],
    /// The name of the file of the world that is gone on from; None where that is the world of nothing.
    pub onto: Option<&'w str>,
    /// Whether the world may be written in the place of a file that is there.
    pub forced: bool,
    /// Whether it is told as JSON.
    pub json: bool,
}

/// A command with its words.
#[derive(Debug, Drop)]
pub enum Command<'l, 'w> {
    /// No words: the two stored calls of the stored contract.
    Stored,
    /// `--help` or `-h` among these words: how the program, or the command of the first word, is called.
    Help(&'l [&'w str]),
    /// `--version` alone: the program's name and version.
    Version,
    /// `asm TEXT MODULE [--json]`: the module that a text names, in its shortest spelling; told as JSON or not.
    Asm(&'w str, &'w str, bool),
    /// `text MODULE TEXT [--unchecked] [--json]`: a text that names a module, which is valid; or, with the first switch, valid or not; told as JSON or not.
    Text(&'w str, &'w str, bool, bool),
    /// `check MODULE [--heap N] [--json]`: whether a module is valid, its tree in an arena or in a heap of N bytes, 1,024 to 16,777,216; told as JSON or not.
    Check(&'w str, Option<u32>, bool),
    /// `deploy WORLD MODULE... [--onto OLD] [--force] [--json]`: the world of these modules, 1 to 1,024, behind the contracts of OLD.
    Deploy(Deploying<'l, 'w>),
    /// `mine WORLD CALLS BLOCK NEXT --fuel N [--workers 4] [--boosted] [--tries 3] [--json]`: a block of the calls over the world, and the world after it.
    Mine(Mining<'w>),
    /// `validate WORLD CALLS BLOCK --fuel N [--workers 4] [--next NEXT] [--json]`: the verdict on the block, and the world after it.
    Validate(Validation<'w>),
    /// `call WORLD CONTRACT FUEL ENTRY ARG... [--json] [--signed]`: what one call comes to that runs alone.
    Call(Calling<'w>),
    /// `debug WORLD CALLS CALL CMD... [--block BLOCK [--fuel N]] [--json] [--signed]`: a call that runs alone, or in a block, turn by turn.
    Debug(Debugging<'w>),
    /// `show FILE [--calls CALLS] [--json] [--signed]`: what is in a module, a world or a block; or `show FILE --svg PICTURE`: a picture of a block.
    Show(Showing<'w>),
}

/// Whether a line has neither words nor options.
fn is_stored(words: &[&str], options: &[(&str, &str)]) -> bool
    ensures { IsTrue result ↔ AsksStored (record { words = texts words.now; options = choices options.now }) }
{
    words.is_empty() && options.is_empty()
}

/// Whether a word is none of these.
pub(crate) fn is_apart(word: &str, others: &[&str]) -> bool
    ensures { IsTrue result ↔ IsApart word.now (texts others.now) }
{
    match others {
        [] => true,
        [other, rest @ ..] => !is_word(*other, word) && is_apart(word, rest),
    }
}

/// The module and the heap of `check`, and whether it is told as JSON.
fn check_of<'w>(
    alloc: Global,
    words: &[&'w str],
    options: &[(&str, &str)],
) -> Result<Option<(&'w str, Option<u32>, bool)>, AllocError>
    ensures { IfOk result (λ found. MatchOption found ((target : List ℕ) (heap : Option ℕ) (json : Bool) → ¬ AsksCheck (record { words = texts words.now; options = choices options.now }) target heap json) (λ x. AsksCheck (record { words = texts words.now; options = choices options.now }) x.0.now x.1 x.2)) }
{
    if words.len() != 2
        || !is_word(words[0], "check")
        || !has_only_two(options, HEAP.word, JSON_SWITCH)
    {
        return Ok(None);
    }
    let Some(heap) = heap_in(alloc, options)? else {
        return Ok(None);
    };
    let Some(json) = json_in(alloc, options)? else {
        return Ok(None);
    };
    Ok(Some((words[1], heap, json)))
}

/// The text and the module of `asm`, and whether it is told as JSON.
fn asm_of<'w>(words: &[&'w str], options: &[(&str, &str)]) -> Option<(&'w str, &'w str, bool)>
    ensures { MatchOption result ((text target : List ℕ) (json : Bool) → ¬ AsksAsm (record { words = texts words.now; options = choices options.now }) text target json) (λ x. AsksAsm (record { words = texts words.now; options = choices options.now }) x.0.now x.1.now x.2) }
{
    if words.len() != 3 || !is_word(words[0], "asm") {
        return None;
    }
    if is_word(words[1], words[2]) {
        return None;
    }
    let Some(json) = switch_alone(options, JSON_SWITCH) else {
        return None;
    };
    Some((words[1], words[2], json))
}

/// The module and the text of `text`, whether the module is left unchecked, and whether it is told as JSON.
fn text_of<'w>(
    alloc: Global,
    words: &[&'w str],
    options: &[(&str, &str)],
) -> Result<Option<(&'w str, &'w str, bool, bool)>, AllocError>
    ensures { IfOk result (λ found. MatchOption found ((source target : List ℕ) (unchecked json : Bool) → ¬ AsksText (record { words = texts words.now; options = choices options.now }) source target unchecked json) (λ x. AsksText (record { words = texts words.now; options = choices options.now }) x.0.now x.1.now x.2 x.3)) }
{
    if words.len() != 3
        || !is_word(words[0], "text")
        || !has_only_two(options, UNCHECKED_SWITCH, JSON_SWITCH)
    {
        return Ok(None);
    }
    if is_word(words[1], words[2]) {
        return Ok(None);
    }
    let Some(unchecked) = unchecked_in(alloc, options)? else {
        return Ok(None);
    };
    let Some(json) = json_in(alloc, options)? else {
        return Ok(None);
    };
    Ok(Some((words[1], words[2], unchecked, json)))
}

/// What `show` is asked for, whatever PICTURE is.
fn spelled_showing<'w>(
    alloc: Global,
    words: &[&'w str],
    options: &[(&'w str, &'w str)],
) -> Result<Option<Showing<'w>>, AllocError>
    ensures { IfOk result (λ found. MatchOption found ((s : TheShowing) → ¬ SpellsShow (record { words = texts words.now; options = choices options.now }) s) (SpellsShow (record { words = texts words.now; options = choices options.now }))) }
{
    if words.len() != 2 || !is_word(words[0], "show") || !has_only_showing(options) {
        return Ok(None);
    }
    let Some(calls) = calls_in(alloc, options)? else {
        return Ok(None);
    };
    let Some(form) = form_in(alloc, options)? else {
        return Ok(None);
    };
    let Some(signed) = signed_in(alloc, options)? else {
        return Ok(None);
    };
    Ok(Some(Showing {
        file: words[1],
        calls,
        form,
        signed,
    }))
}

/// Whether PICTURE, where there is one, is asked for without CALLS and takes not the place of FILE.
fn picture_is_apart(showing: Showing) -> bool
    ensures { IsTrue result ↔ PictureIsApart showing.entry }
{
    match showing.form {
        Form::Text => true,
        Form::Json => true,
        Form::Picture(picture) => showing.calls.is_none() && !is_word(showing.file, picture),
    }
}

/// What `show` is asked for.
fn showing_of<'w>(
    alloc: Global,
    words: &[&'w str],
    options: &[(&'w str, &'w str)],
) -> Result<Option<Showing<'w>>, AllocError>
    ensures { IfOk result (λ found. MatchOption found ((s : TheShowing) → ¬ AsksShow (record { words = texts words.now; options = choices options.now }) s) (AsksShow (record { words = texts words.now; options = choices options.now }))) }
{
    let Some(showing) = spelled_showing(alloc, words, options)? else {
        return Ok(None);
    };
    if !picture_is_apart(showing) {
        return Ok(None);
    }
    Ok(Some(showing))
}

/// The world and the modules of `deploy`, whatever the options.
fn modules_of<'l, 'w>(words: &'l [&'w str]) -> Option<(&'w str, &'l [&'w str])>
    ensures { MatchOption result ((world : List ℕ) (modules : List (List ℕ)) → ¬ NamesModules (texts words.entry.now) world modules) (λ x. NamesModules (texts words.entry.now) x.0.now (texts x.1.now)) }
{
    if words.len() < 3 || words.len() > 1_026 || !is_word(words[0], "deploy") {
        return None;
    }
    let modules = &words[2..];
    if !is_apart(words[1], modules) {
        return None;
    }
    Some((words[1], modules))
}

/// What `deploy` is asked for.
fn deploying_of<'l, 'w>(
    alloc: Global,
    words: &'l [&'w str],
    options: &[(&'w str, &'w str)],
) -> Result<Option<Deploying<'l, 'w>>, AllocError>
    ensures { IfOk result (λ found. MatchOption found ((d : TheDeploying) → ¬ AsksDeploy (record { words = texts words.entry.now; options = choices options.now }) d) (AsksDeploy (record { words = texts words.entry.now; options = choices options.now }))) }
{
    let Some((world, modules)) = modules_of(words) else {
        return Ok(None);
    };
    if !has_only_deploying(options) {
        return Ok(None);
    }
    let Some(onto) = onto_in(alloc, options)? else {
        return Ok(None);
    };
    let Some(forced) = force_in(alloc, options)? else {
        return Ok(None);
    };
    let Some(json) = json_in(alloc, options)? else {
        return Ok(None);
    };
    Ok(Some(Deploying {
        world,
        modules,
        onto,
        forced,
        json,
    }))
}

/// Whether BLOCK and NEXT take the place of no file that is read, nor of one another; NEXT may be WORLD.
fn keeps_inputs(mining: Mining) -> bool
    ensures { IsTrue result ↔ KeepsInputs mining.entry }
{
    !is_word(mining.world, mining.block)
        && !is_word(mining.calls, mining.block)
        && !is_word(mining.next, mining.block)
        && !is_word(mining.calls, mining.next)
}

/// What `mine` is asked for.
fn mining_of<'w>(
    alloc: Global,
    words: &[&'w str],
    options: &[(&'w str, &'w str)],
) -> Result<Option<Mining<'w>>, AllocError>
    ensures { IfOk result (λ found. MatchOption found ((m : TheMining) → ¬ AsksMine (record { words = texts words.now; options = choices options.now }) m) (AsksMine (record { words = texts words.now; options = choices options.now }))) }
{
    if words.len() != 5 || !is_word(words[0], "mine") || !has_only_mining(options) {
        return Ok(None);
    }
    let Some(fuel) = fuel_in(alloc, options)? else {
        return Ok(None);
    };
    let Some(workers) = workers_in(alloc, options)? else {
        return Ok(None);
    };
    let Some(tries) = tries_in(alloc, options)? else {
        return Ok(None);
    };
    let Some(boosted) = boosted_in(alloc, options)? else {
        return Ok(None);
    };
    let Some(json) = json_in(alloc, options)? else {
        return Ok(None);
    };
    let mining = Mining {
        world: words[1],
        calls: words[2],
        block: words[3],
        next: words[4],
        fuel,
        workers,
        tries,
        boosted,
        json,
    };
    if !keeps_inputs(mining) {
        return Ok(None);
    }
    Ok(Some(mining))
}

/// Whether NEXT takes the place of neither CALLS nor BLOCK; it may be WORLD.
fn next_is_apart(validation: Validation) -> bool
    ensures { IsTrue result ↔ NextIsApart validation.entry }
{
    match validation.next {
        Some(next) => !is_word(validation.calls, next) && !is_word(validation.block, next),
        None => true,
    }
}

/// What `validate` is asked for, without NEXT.
fn counted_validation<'w>(
    alloc: Global,
    words: &[&'w str],
    options: &[(&'w str, &'w str)],
) -> Result<Option<Validation<'w>>, AllocError>
    ensures { IfOk result (λ found. MatchOption found ((world calls block : List ℕ) (fuel workers : ℕ) → ¬ CountsValidate (record { words = texts words.now; options = choices options.now }) world calls block fuel workers) (λ v. CountsValidate (record { words = texts words.now; options = choices options.now }) v.world.now v.calls.now v.block.now v.fuel v.workers)) }
{
    if words.len() != 4 || !is_word(words[0], "validate") || !has_only_validation(options) {
        return Ok(None);
    }
    let Some(fuel) = fuel_in(alloc, options)? else {
        return Ok(None);
    };
    let Some(workers) = workers_in(alloc, options)? else {
        return Ok(None);
    };
    Ok(Some(Validation {
        world: words[1],
        calls: words[2],
        block: words[3],
        fuel,
        workers,
        boosted: false,
        next: None,
        json: false,
    }))
}

/// What `validate` is asked for, whatever NEXT is.
fn spelled_validation<'w>(
    alloc: Global,
    words: &[&'w str],
    options: &[(&'w str, &'w str)],
) -> Result<Option<Validation<'w>>, AllocError>
    ensures { IfOk result (λ found. MatchOption found ((v : TheValidation) → ¬ SpellsValidate (record { words = texts words.now; options = choices options.now }) v) (SpellsValidate (record { words = texts words.now; options = choices options.now }))) }
{
    let Some(counted) = counted_validation(alloc, words, options)? else {
        return Ok(None);
    };
    let Some(boosted) = boosted_in(alloc, options)? else {
        return Ok(None);
    };
    let Some(next) = next_in(alloc, options)? else {
        return Ok(None);
    };
    let Some(json) = json_in(alloc, options)? else {
        return Ok(None);
    };
    Ok(Some(Validation {
        boosted,
        next,
        json,
        ..counted
    }))
}

/// What `validate` is asked for.
fn validation_of<'w>(
    alloc: Global,
    words: &[&'w str],
    options: &[(&'w str, &'w str)],
) -> Result<Option<Validation<'w>>, AllocError>
    ensures { IfOk result (λ found. MatchOption found ((v : TheValidation) → ¬ AsksValidate (record { words = texts words.now; options = choices options.now }) v) (AsksValidate (record { words = texts words.now; options = choices options.now }))) }
{
    let Some(validation) = spelled_validation(alloc, words, options)? else {
        return Ok(None);
    };
    if !next_is_apart(validation) {
        return Ok(None);
    }
    Ok(Some(validation))
}

/// The command over a world and calls that a line asks for.
fn task_of<'l, 'w>(alloc: Global, line: &'l Line<'w>) -> Result<Option<Command<'l, 'w>>, AllocError>
    ensures { IfOk result (λ found. MatchOption found (AsksNoTask (line_of line.entry.now)) (IsLineOf (line_of line.entry.now))) }
{
    let words = line.words.as_slice();
    let options = line.options.as_slice();
    if let Some(task) = mining_of(alloc, words, options)? {
        return Ok(Some(Command::Mine(task)));
    }
    if let Some(task) = validation_of(alloc, words, options)? {
        return Ok(Some(Command::Validate(task)));
    }
    if let Some(task) = calling_of(alloc, words, options)? {
        return Ok(Some(Command::Call(task)));
    }
    match debugging_of(alloc, line)? {
        Some(task) => Ok(Some(Command::Debug(task))),
        None => Ok(None),
    }
}

/// The command of a line, or None where the line asks for nothing.
pub fn command_of<'l, 'w>(
    alloc: Global,
    line: &'l Line<'w>,
) -> Result<Option<Command<'l, 'w>>, AllocError>
    ensures { IfOk result (λ found. MatchOption found ((c : Asked) → ¬ IsLineOf (line_of line.entry.now) c) (IsLineOf (line_of line.entry.now))) }
{
    let words = line.words.as_slice();
    let options = line.options.as_slice();
    if is_stored(words, options) {
        return Ok(Some(Command::Stored));
    }
    if let Some((text, target, json)) = asm_of(words, options) {
        return Ok(Some(Command::Asm(text, target, json)));
    }
    if let Some((source, target, unchecked, json)) = text_of(alloc, words, options)? {
        return Ok(Some(Command::Text(source, target, unchecked, json)));
    }
    if let Some((target, heap, json)) = check_of(alloc, words, options)? {
        return Ok(Some(Command::Check(target, heap, json)));
    }
    if let Some(task) = deploying_of(alloc, words, options)? {
        return Ok(Some(Command::Deploy(task)));
    }
    if let Some(task) = showing_of(alloc, words, options)? {
        return Ok(Some(Command::Show(task)));
    }
    match task_of(alloc, line)? {
        Some(task) => Ok(Some(task)),
        None => Ok(None),
    }
}

/// Whether `--help` or `-h` stands among the words.
fn asks_help(words: &[&str]) -> bool
    ensures { IsTrue result ↔ AsksHelp (texts words.now) }
{
    !(is_apart("--help", words) && is_apart("-h", words))
}

/// Whether the words are `--version` alone.
fn asks_version(words: &[&str]) -> bool
    ensures { IsTrue result ↔ (texts words.now ≡ codes "--version" ∷ []) }
{
    words.len() == 1 && is_word(words[0], "--version")
}

/// What words ask to be told of the program, or None where they do not.
pub(crate) fn watched_command<'a>(words: &'a [&'a str]) -> Option<Command<'a, 'a>>
    ensures told { MatchOption result ((c : Asked) → ¬ IsTold (texts words.entry.now) c) (IsTold (texts words.entry.now)) }
    ensures few { IfSome result HasFew }
{
    if asks_help(words) {
        return Some(Command::Help(words));
    }
    if asks_version(words) {
        return Some(Command::Version);
    }
    None
}
