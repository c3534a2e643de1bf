//! What is said of a line of words that asks for nothing, and what the program says of itself.

ghost use Rattle.std.specs.Prelude.{◌≡◌, IfOk, IfErr, IsErr, string_bytes};
ghost use Rattle.clap.specs.Words.{kind_of};
ghost use Rattle.wblock_line.specs.Answers.{EndsLine};
ghost use Rattle.wblock_usage.specs.Texts.{TellsText};

use crate::declared::{
    BLOCK, BOOSTED, CALLS, FORCE, FUEL, FileOption, HEAP, JSON, NEXT, NumberOption, ONTO, QUIET,
    SIGNED, SVG, Switch, TRIES, UNCHECKED, WORKERS,
};
use crate::misuse::misuse_text;
use clap::builder::ValueParser;
use clap::error::ErrorKind;
use clap::{Arg, ArgAction, Command, Error};
use std::alloc::{AllocError, Global};
use wblock_line::{Answer, Fault};

/// A word that has to stand, and what it means.
fn required<'a>(alloc: Global, name: &'a str, help: &'a str) -> Arg<'a> {
    Arg::new(alloc, name).required(true).help(help)
}

/// An option that is a number, as it is declared.
fn number<'a>(alloc: Global, option: NumberOption) -> Arg<'a> {
    let arg = Arg::new(alloc, option.name)
        .long(option.name)
        .value_name("N")
        .value_parser(ValueParser::unsigned(option.least, option.most))
        .help(option.help);
    match option.usual {
        Some(usual) => arg.default_value(usual.word),
        None => arg,
    }
}

/// An option that is a file's name, as it is declared.
fn file<'a>(alloc: Global, option: FileOption) -> Arg<'a> {
    Arg::new(alloc, option.name)
        .long(option.name)
        .value_name(option.value)
        .help(option.help)
}

/// An option without a value, as it is declared.
fn switch<'a>(alloc: Global, option: Switch) -> Arg<'a> {
    Arg::new(alloc, option.name)
        .long(option.name)
        .action(ArgAction::SetTrue)
        .help(option.help)
}

fn world<'a>(alloc: Global) -> Arg<'a> {
    required(
        alloc,
        "WORLD",
        "The file of the world, which `deploy`, `mine` or `validate` wrote",
    )
}

fn calls<'a>(alloc: Global) -> Arg<'a> {
    required(
        alloc,
        "CALLS",
        "The file of the calls: a line `CONTRACT FUEL ENTRY ARG...` for each",
    )
}

/// The fuel, which has to be given.
fn fuel<'a>(alloc: Global) -> Arg<'a> {
    number(alloc, FUEL).required(true)
}

fn asm<'a>(alloc: Global) -> Result<Command<'a>, AllocError> {
    Command::new(alloc, "asm")
        .about("Assembles a module in text, and writes it in binary")
        .arg(required(alloc, "TEXT", "The file of the module in text"))?
        .arg(required(alloc, "MODULE", "The file to be written; another than TEXT"))?
        .arg(switch(alloc, JSON))
}

fn text<'a>(alloc: Global) -> Result<Command<'a>, AllocError> {
    Command::new(alloc, "text")
        .about(
            "Writes a module in text, one instruction a line: `asm` of it gives the module again",
        )
        .arg(required(alloc, "MODULE", "The file of the module in binary"))?
        .arg(required(alloc, "TEXT", "The file to be written; another than MODULE"))?
        .arg(switch(alloc, UNCHECKED))?
        .arg(switch(alloc, JSON))
}

fn check<'a>(alloc: Global) -> Result<Command<'a>, AllocError> {
    Command::new(alloc, "check")
        .about("Says whether a module is valid")
        .arg(required(alloc, "MODULE", "The file of the module in binary"))?
        .arg(number(alloc, HEAP))?
        .arg(switch(alloc, JSON))
}

fn deploy<'a>(alloc: Global) -> Result<Command<'a>, AllocError> {
    Command::new(alloc, "deploy")
        .about("Makes a world of modules, or goes on from one, and writes it")
        .arg(required(
            alloc,
            "WORLD",
            "The file to be written; no MODULE's, and without --force none that is there but OLD",
        ))?
        .arg(required(
            alloc,
            "MODULE",
            "The files of the modules, 1 to 1024; they are the contracts 0, 1, 2 .., behind those of OLD",
        )
        .num_args(1..))?
        .arg(file(alloc, ONTO))?
        .arg(switch(alloc, FORCE))?
        .arg(switch(alloc, JSON))
}

fn mine<'a>(alloc: Global) -> Result<Command<'a>, AllocError> {
    Command::new(alloc, "mine")
        .about("Runs calls over a world at once, and writes a block of them and the world after it")
        .arg(world(alloc))?
        .arg(calls(alloc))?
        .arg(required(
            alloc,
            "BLOCK",
            "The file of the block, to be written; no other file of the line",
        ))?
        .arg(required(
            alloc,
            "NEXT",
            "The file of the world after it, to be written; it may be WORLD",
        ))?
        .arg(fuel(alloc))?
        .arg(number(alloc, WORKERS))?
        .arg(switch(alloc, BOOSTED))?
        .arg(number(alloc, TRIES))?
        .arg(switch(alloc, JSON))?
        .arg(switch(alloc, QUIET))
}

fn validate<'a>(alloc: Global) -> Result<Command<'a>, AllocError> {
    Command::new(alloc, "validate")
        .about("Says whether a block is one of these calls over this world")
        .arg(world(alloc))?
        .arg(calls(alloc))?
        .arg(required(alloc, "BLOCK", "The file of the block"))?
        .arg(fuel(alloc).help(
            "The fuel with which the block was mined, 0 to 18446744073709551615",
        ))?
        .arg(number(alloc, WORKERS))?
        .arg(switch(alloc, BOOSTED))?
        .arg(file(alloc, NEXT))?
        .arg(switch(alloc, JSON))?
        .arg(switch(alloc, QUIET))
}

fn call<'a>(alloc: Global) -> Result<Command<'a>, AllocError> {
    Command::new(alloc, "call")
        .about("Runs one call alone over a world, shows what it comes to, and writes nothing")
        .arg(world(alloc))?
        .arg(required(alloc, "CONTRACT", "The number of the contract, from 0"))?
        .arg(required(
            alloc,
            "FUEL",
            "The most fuel that the call may use, 0 to 18446744073709551615",
        ))?
        .arg(required(alloc, "ENTRY", "The name of the function that is exported"))?
        .arg(
            Arg::new(alloc, "ARG").num_args(0..).help(
                "The arguments, each `i32:N` or `i64:N` with N in signed decimal",
            ),
        )?
        .arg(switch(alloc, JSON))?
        .arg(switch(alloc, SIGNED))
}

fn chain<'a>(alloc: Global) -> Result<Command<'a>, AllocError> {
    Command::new(alloc, "chain")
        .about("Keeps a world, and answers lines of standard input over it")
        .after_help(
            "A line is `mine CALLS BLOCK ..`, `validate CALLS BLOCK ..`, `call CONTRACT FUEL ENTRY ARG...` or `deploy MODULE...`, each over the world that is kept, or `save FILE`, `digest` or `quit`. CALLS `-` stands for calls behind the line, up to an empty line; BLOCK `-` of `mine` tells the block's bytes. Each answer ends with a line `status N`.",
        )
        .arg(world(alloc))?
        .arg(switch(alloc, QUIET))
}

fn debug<'a>(alloc: Global) -> Result<Command<'a>, AllocError> {
    Command::new(alloc, "debug")
        .about(
            "Runs one call, alone over a world or in a block, turn by turn, and shows its states",
        )
        .arg(world(alloc))?
        .arg(calls(alloc))?
        .arg(required(alloc, "CALL", "The number of the call, from 0"))?
        .arg(required(
            alloc,
            "CMD",
            "step:N, back:N, cont, place, break:F:O or break:C:F:O or break:NAME:O, clear with the same, stack, locals, globals, cells, where, bytes:FROM:N",
        )
        .num_args(1..))?
        .arg(file(alloc, BLOCK))?
        .arg(number(alloc, FUEL).help(
            "The fuel with which BLOCK is judged, 0 to 18446744073709551615: the calls before CALL run for at most this; if not given, it is the least that its calls need",
        ))?
        .arg(switch(alloc, JSON))?
        .arg(switch(alloc, SIGNED))?
        .arg(switch(alloc, QUIET))
}

fn show<'a>(alloc: Global) -> Result<Command<'a>, AllocError> {
    Command::new(alloc, "show")
        .about("Shows what is in a module, a world or a block, or draws a block")
        .arg(required(
            alloc,
            "FILE",
            "The file of the module, the world or the block",
        ))?
        .arg(file(alloc, CALLS))?
        .arg(switch(alloc, JSON))?
        .arg(switch(alloc, SIGNED))?
        .arg(file(alloc, SVG))
}

fn program<'a>(alloc: Global) -> Result<Command<'a>, AllocError> {
    Command::new(alloc, "wblock")
        .no_binary_name(true)
        .bin_name("wblock")?
        .version("0.1.0")
        .about(
            "Runs blocks of calls of smart contracts in parallel, and validates them; without words, a stored example",
        )
        .after_help(
            "Status: 0 done, 1 refused, 2 usage, 3 a file or the output failed, 4 memory was refused. Answers stand on standard output, what explains them on standard error.",
        )
        .subcommand_required(true)
        .disable_help_subcommand(true)
        .subcommand(asm(alloc)?)?
        .subcommand(text(alloc)?)?
        .subcommand(check(alloc)?)?
        .subcommand(deploy(alloc)?)?
        .subcommand(mine(alloc)?)?
        .subcommand(validate(alloc)?)?
        .subcommand(call(alloc)?)?
        .subcommand(chain(alloc)?)?
        .subcommand(debug(alloc)?)?
        .subcommand(show(alloc)?)
}

/// The text of what the command line's reader answers where it gives no matches. Want of memory has none.
fn text_of(alloc: Global, error: &Error) -> Result<String, AllocError>
    ensures { kind_of error.now ≡ ErrorKind.OutOfMemory → IsErr result }
{
    if error.kind() == ErrorKind::OutOfMemory {
        return Err(AllocError);
    }
    error.to_string(alloc)
}

/// What the command line's reader says of these words; what is wrong by the program's own reading where it does not refuse them.
fn said_of<'a>(alloc: Global, words: &'a [&'a str]) -> Result<String, AllocError> {
    match program(alloc)?.try_get_matches_from(words) {
        Ok(_) => misuse_text(alloc, words),
        Err(error) => text_of(alloc, &error),
    }
}

/// The text of a refusal of these words, or of the help that they ask for; where the command line's reader does not refuse them, `usage` and
/// what is wrong. It ends with a newline.
pub fn usage_text<'a>(alloc: Global, words: &'a [&'a str]) -> Result<String, AllocError>
    ensures { IfOk result (λ text. EndsLine (string_bytes text)) }
{
    let mut text = said_of(alloc, words)?;
    if !text.ends_with('\n') {
        text.push('\n')?;
    }
    Ok(text)
}

const HELP: [&str; 1] = ["--help"];

const ASM: [&str; 2] = ["asm", "--help"];

const TEXT: [&str; 2] = ["text", "--help"];

const CHECK: [&str; 2] = ["check", "--help"];

const DEPLOY: [&str; 2] = ["deploy", "--help"];

const MINE: [&str; 2] = ["mine", "--help"];

const VALIDATE: [&str; 2] = ["validate", "--help"];

const CALL: [&str; 2] = ["call", "--help"];

const CHAIN: [&str; 2] = ["chain", "--help"];

const DEBUG: [&str; 2] = ["debug", "--help"];

const SHOW: [&str; 2] = ["show", "--help"];

const VERSION: [&str; 1] = ["--version"];

/// The words that ask for help on what these words begin with.
fn topic_of(words: &[&str]) -> &'static [&'static str] {
    let Some(word) = words.first() else {
        return HELP.as_slice();
    };
    match *word {
        "asm" => ASM.as_slice(),
        "text" => TEXT.as_slice(),
        "check" => CHECK.as_slice(),
        "deploy" => DEPLOY.as_slice(),
        "mine" => MINE.as_slice(),
        "validate" => VALIDATE.as_slice(),
        "call" => CALL.as_slice(),
        "chain" => CHAIN.as_slice(),
        "debug" => DEBUG.as_slice(),
        "show" => SHOW.as_slice(),
        _ => HELP.as_slice(),
    }
}

/// The answer that prints what the command line's reader says of these words.
fn tell_text<'a>(alloc: Global, words: &[&str]) -> Result<Answer<'a>, Fault<'a>>
    ensures answer { IfOk result TellsText }
    ensures fault { IfErr result (λ f. f ≡ Fault.NoMemory) }
{
    match usage_text(alloc, words) {
        Ok(text) => Ok(Answer::Done(Vec::new(alloc), text)),
        Err(AllocError) => Err(Fault::NoMemory),
    }
}

/// The answer to `--help` among these words: how the command of the first word is called, or the program.
///
/// # Errors
///
/// `NoMemory` alone.
pub fn tell_help<'a>(alloc: Global, words: &[&str]) -> Result<Answer<'a>, Fault<'a>>
    ensures answer { IfOk result TellsText }
    ensures fault { IfErr result (λ f. f ≡ Fault.NoMemory) }
{
    tell_text(alloc, topic_of(words))
}

/// The answer to `--version`.
///
/// # Errors
///
/// `NoMemory` alone.
pub fn tell_version<'a>(alloc: Global) -> Result<Answer<'a>, Fault<'a>>
    ensures answer { IfOk result TellsText }
    ensures fault { IfErr result (λ f. f ≡ Fault.NoMemory) }
{
    tell_text(alloc, VERSION.as_slice())
}
