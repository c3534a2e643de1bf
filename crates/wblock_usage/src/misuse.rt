//! What is wrong with words that the command line's reader takes and that ask for nothing, for people.

use crate::debugging::command_of;
use crate::declared::{BLOCK, CALLS, FUEL, NEXT, ONTO, SVG};
use std::alloc::{AllocError, Global};
use wblock_calls::{call_words, number_of};
use wblock_line::{FORCE_SWITCH, JSON_SWITCH, is_switch, split_words};

/// Two words of a line that name one file, the second of which would be written.
fn clash(alloc: Global, first: &str, second: &str, name: &str) -> Result<String, AllocError> {
    format!(in alloc;
        "usage: {first} and {second} are both `{name}`: {second} would take its place; name another file"
    )
}

/// What is said of an option whose value is no number.
fn no_number(alloc: Global, name: &str, value: &str) -> Result<String, AllocError> {
    format!(in alloc;
        "usage: `{value}` of `{name}` is no number: decimal without sign and needless zeros"
    )
}

/// What is wrong with the words of `deploy`: with their number or a name, or else that the file of the world is there.
fn deploying_misuse(
    alloc: Global,
    world: &str,
    modules: &[&str],
    options: &[(&str, &str)],
) -> Result<Option<String>, AllocError> {
    let count = modules.len();
    if count > 1_024 {
        return Ok(Some(format!(in alloc;
            "usage: {count} modules: a world has 1 to 1024 contracts"
        )?));
    }
    if modules.iter().any(|m| *m == world) {
        return Ok(Some(clash(alloc, "MODULE", "WORLD", world)?));
    }
    let is_forced = options.iter().any(|option| option.0 == FORCE_SWITCH);
    let is_once = match options {
        [] | [_] => true,
        [first, second] => first.0 != second.0,
        _ => false,
    };
    if !is_forced && is_once {
        return Ok(Some(format!(in alloc;
            "usage: WORLD `{world}` is there already: {FORCE_SWITCH} writes the new world in its place"
        )?));
    }
    Ok(None)
}

/// What is wrong with the words of `mine`.
fn mining_misuse(
    alloc: Global,
    names: (&str, &str, &str, &str),
) -> Result<Option<String>, AllocError> {
    let (world, calls, block, next) = names;
    if block == world {
        return Ok(Some(clash(alloc, "WORLD", "BLOCK", block)?));
    }
    if block == calls {
        return Ok(Some(clash(alloc, "CALLS", "BLOCK", block)?));
    }
    if block == next {
        return Ok(Some(clash(alloc, "BLOCK", "NEXT", block)?));
    }
    if next == calls {
        return Ok(Some(clash(alloc, "CALLS", "NEXT", next)?));
    }
    Ok(None)
}

/// What is wrong with the file that options of `validate` name for the world after the block.
fn validation_misuse(
    alloc: Global,
    calls: &str,
    block: &str,
    options: &[(&str, &str)],
) -> Result<Option<String>, AllocError> {
    for (name, value) in options {
        if *name == NEXT.word && *value == calls {
            return Ok(Some(clash(alloc, "CALLS", "NEXT", calls)?));
        }
        if *name == NEXT.word && *value == block {
            return Ok(Some(clash(alloc, "BLOCK", "NEXT", block)?));
        }
    }
    Ok(None)
}

/// What is wrong with how options of `show` ask for a file to be shown.
fn showing_misuse(
    alloc: Global,
    file: &str,
    options: &[(&str, &str)],
) -> Result<Option<String>, AllocError> {
    let is_drawn = options.iter().any(|option| option.0 == SVG.word);
    for (name, value) in options {
        if *name == SVG.word && *value == file {
            return Ok(Some(clash(alloc, "FILE", "PICTURE", file)?));
        }
        if *name == CALLS.word && is_drawn {
            let text =
                "usage: a picture is drawn without the calls: leave `--calls` or `--svg` out".to_string(
                    alloc,
                )?;
            return Ok(Some(text));
        }
        if *name == JSON_SWITCH && is_drawn {
            let text =
                "usage: a file is shown in one form: leave `--json` or `--svg` out".to_string(
                    alloc,
                )?;
            return Ok(Some(text));
        }
    }
    Ok(None)
}

/// What is wrong with the fuel that options of `debug` name, or None.
fn debugging_fuel_misuse(
    alloc: Global,
    options: &[(&str, &str)],
) -> Result<Option<String>, AllocError> {
    let is_in_block = options.iter().any(|option| option.0 == BLOCK.word);
    for (name, value) in options {
        if *name == FUEL.word && !is_in_block {
            let text =
                "usage: `--fuel` bounds the calls of a block: name the block by `--block`, or leave `--fuel` out".to_string(
                    alloc,
                )?;
            return Ok(Some(text));
        }
        if *name == FUEL.word && number_of(alloc, *value)?.is_none() {
            return Ok(Some(no_number(alloc, *name, *value)?));
        }
    }
    Ok(None)
}

/// What is wrong with the words of `debug` behind the files.
fn debugging_misuse(
    alloc: Global,
    call: &str,
    commands: &[&str],
    options: &[(&str, &str)],
) -> Result<String, AllocError> {
    if let Some(text) = debugging_fuel_misuse(alloc, options)? {
        return Ok(text);
    }
    if number_of(alloc, call)?.is_none() {
        return format!(in alloc;
            "usage: `{call}` is no call's number: from 0 to 18446744073709551615, decimal without needless zeros"
        );
    }
    for command in commands {
        if command_of(alloc, *command)?.is_none() {
            return format!(in alloc;
                "usage: `{command}` is no CMD: step:N, back:N, cont, place, break:F:O or break:C:F:O or break:NAME:O, clear with the same, stack, locals, globals, cells, where, bytes:FROM:N, each number decimal without needless zeros"
            );
        }
    }
    format!(in alloc; "usage: there is no call {call} in CALLS: its lines count from 0")
}

/// What is wrong with the words of a call, or None where each of them may stand.
fn calling_misuse(alloc: Global, call: &[&str]) -> Result<Option<String>, AllocError> {
    match call_words(alloc, call)? {
        Some(fault) => Ok(Some(format!(in alloc; "usage: of the call, {fault}")?)),
        None => Ok(None),
    }
}

/// What is wrong with the words that are no options and with the files that options name, or None.
fn names_misuse(
    alloc: Global,
    words: &[&str],
    options: &[(&str, &str)],
) -> Result<Option<String>, AllocError> {
    match words {
        ["asm", text, target] if *text == *target => {
            Ok(Some(clash(alloc, "TEXT", "MODULE", *text)?))
        }
        ["text", source, target] if *source == *target => {
            Ok(Some(clash(alloc, "MODULE", "TEXT", *source)?))
        }
        ["deploy", world, modules @ ..] => deploying_misuse(alloc, *world, modules, options),
        ["mine", world, calls, block, next] => {
            mining_misuse(alloc, (*world, *calls, *block, *next))
        }
        ["validate", _, calls, block] => validation_misuse(alloc, *calls, *block, options),
        ["show", file] => showing_misuse(alloc, *file, options),
        ["call", _, call @ ..] => calling_misuse(alloc, call),
        ["debug", _, _, call, commands @ ..] => {
            Ok(Some(debugging_misuse(alloc, *call, commands, options)?))
        }
        _ => Ok(None),
    }
}

/// Whether the value of the option of this name is a file's name.
fn names_file(name: &str) -> bool {
    name == BLOCK.word
        || name == CALLS.word
        || name == NEXT.word
        || name == ONTO.word
        || name == SVG.word
}

/// `usage`, and what is wrong with words that the command line's reader takes.
pub fn misuse_text(alloc: Global, words: &[&str]) -> Result<String, AllocError> {
    let Some(line) = split_words(alloc, words)? else {
        return "usage: the value of the last option is missing".to_string(alloc);
    };
    if let Some(text) = names_misuse(alloc, line.words.as_slice(), line.options.as_slice())? {
        return Ok(text);
    }
    for (name, value) in &line.options {
        if is_switch(*name) {
            if !value.is_empty() {
                return format!(in alloc; "usage: `{name}` takes no value");
            }
            continue;
        }
        if !names_file(*name) && number_of(alloc, *value)?.is_none() {
            return no_number(alloc, *name, *value);
        }
    }
    "usage: an option stands once, and where its command takes it; `wblock --help` says more".to_string(
        alloc,
    )
}
