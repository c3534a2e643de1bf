//! What the words of a line ask to debug.

ghost use Rattle.std.specs.Prelude.{◌≡◌, ℕ, List, Option, IfOk, IfSome, MatchOption};
ghost use Rattle.std.specs.Borrow.{Bor};
ghost use Rattle.wblock_line.specs.Words.{line_of};
ghost use Rattle.wblock_calls.specs.Words.{texts};
ghost use Rattle.wblock_line.specs.Words.{choices};
ghost use Rattle.wblock_usage.specs.Words.{choice};
ghost use Rattle.wblock_debug.specs.Asks.{AreBlockWithFuel, AreBlockWithFuelInAnyOrder, AsksBlock, AsksDebug, AsksWords, IsSplit};
ghost use Rattle.wblock_debug.specs.declared.asked.Debugging.{Debugging as TheDebugging};

use std::alloc::{AllocError, Global};
use wblock_call::{Style, others_of, style_in};
use wblock_calls::number_of;
use wblock_line::{Line, is_word};
use wblock_usage::debugging::{Command, commands_of};

/// What is to be debugged.
#[derive(Debug, Drop)]
pub struct Debugging<'w> {
    /// The name of the file of the world.
    pub world: &'w str,
    /// The name of the file of the calls.
    pub calls: &'w str,
    /// The number of the call, from 0.
    pub call: u64,
    /// The commands, at least one, in their order.
    pub commands: Vec<Command<'w>>,
    /// The name of the file of the block in which the call is to run; None where it is to run alone over the world.
    pub block: Option<&'w str>,
    /// The fuel with which the block is judged, where one is given; else it is the least that the calls of the block need.
    pub fuel: Option<u64>,
    /// How it is told what is read of the states.
    pub style: Style,
}

/// The world, the calls, the word of the call and the words of the commands.
fn parts_of<'l, 'w>(words: &'l [&'w str]) -> Option<(&'w str, &'w str, &'w str, &'l [&'w str])>
    ensures { MatchOption result ((world calls call : List ℕ) (commands : List (List ℕ)) → ¬ IsSplit (texts words.entry.now) world calls call commands) (λ x. IsSplit (texts words.entry.now) x.0.now x.1.now x.2.now (texts x.3.now)) }
{
    if words.len() < 5 || !is_word(words[0], "debug") {
        return None;
    }
    Some((words[1], words[2], words[3], &words[4..]))
}

/// The block and the fuel that two options name, the block first.
fn block_with_fuel<'w>(
    alloc: Global,
    block: (&'w str, &'w str),
    fuel: (&'w str, &'w str),
) -> Result<Option<(&'w str, u64)>, AllocError>
    ensures { IfOk result (λ found. MatchOption found ((name : List ℕ) (n : ℕ) → ¬ AreBlockWithFuel (choice block.entry) (choice fuel.entry) name n) (λ x. AreBlockWithFuel (choice block.entry) (choice fuel.entry) x.0.now x.1)) }
{
    if !is_word(block.0, "--block") || !is_word(fuel.0, "--fuel") {
        return Ok(None);
    }
    match number_of(alloc, fuel.1)? {
        Some(number) => Ok(Some((block.1, number))),
        None => Ok(None),
    }
}

/// The block and its fuel, which two options name in either order.
fn fuelled_block<'w>(
    alloc: Global,
    first: (&'w str, &'w str),
    second: (&'w str, &'w str),
) -> Result<Option<(&'w str, u64)>, AllocError>
    ensures { IfOk result (λ found. MatchOption found ((name : List ℕ) (n : ℕ) → ¬ AreBlockWithFuelInAnyOrder (choice first.entry) (choice second.entry) name n) (λ x. AreBlockWithFuelInAnyOrder (choice first.entry) (choice second.entry) x.0.now x.1)) }
{
    if let Some(found) = block_with_fuel(alloc, first, second)? {
        return Ok(Some(found));
    }
    block_with_fuel(alloc, second, first)
}

/// The block that options name and the fuel with which it is judged, each if any; or None where they are no options of `debug`.
fn block_of<'w>(
    alloc: Global,
    options: &[(&'w str, &'w str)],
) -> Result<Option<(Option<&'w str>, Option<u64>)>, AllocError>
    ensures { IfOk result (λ found. MatchOption found ((block : Option (Bor (List ℕ))) (fuel : Option ℕ) → ¬ AsksBlock (choices options.now) block fuel) (λ x. AsksBlock (choices options.now) x.0 x.1)) }
{
    match options {
        [] => Ok(Some((None, None))),
        [only] => {
            if is_word(only.0, "--block") {
                Ok(Some((Some(only.1), None)))
            } else {
                Ok(None)
            }
        }
        [first, second] => match fuelled_block(alloc, *first, *second)? {
            Some((block, fuel)) => Ok(Some((Some(block), Some(fuel)))),
            None => Ok(None),
        },
        _ => Ok(None),
    }
}

/// What words ask for, in this block if any, judged with this fuel if any, and told in this style.
fn asked_by<'w>(
    alloc: Global,
    words: &[&'w str],
    block: Option<&'w str>,
    fuel: Option<u64>,
    style: Style,
) -> Result<Option<Debugging<'w>>, AllocError>
    ensures words { IfOk result (λ found. MatchOption found ((d : TheDebugging) → ¬ AsksWords (texts words.now) d) (AsksWords (texts words.now))) }
    ensures block { IfOk result (λ found. IfSome found (λ d. d.block ≡ block.entry)) }
    ensures fuel { IfOk result (λ found. IfSome found (λ d. d.fuel ≡ fuel)) }
    ensures style { IfOk result (λ found. IfSome found (λ d. d.style ≡ style)) }
{
    let Some((world, calls, call, commands)) = parts_of(words) else {
        return Ok(None);
    };
    let Some(call) = number_of(alloc, call)? else {
        return Ok(None);
    };
    let Some(commands) = commands_of(alloc, commands)? else {
        return Ok(None);
    };
    Ok(Some(Debugging {
        world,
        calls,
        call,
        commands,
        block,
        fuel,
        style,
    }))
}

/// What a line asks to debug: `debug WORLD CALLS CALL CMD... [--block BLOCK [--fuel N]] [--json] [--signed]`, with at least one command, the call a number
/// of 64 bits from 0, in decimal with no needless zero. None where the line asks for no such thing.
pub fn debugging_of<'w>(alloc: Global, line: &Line<'w>) -> Result<Option<Debugging<'w>>, AllocError>
    ensures { IfOk result (λ found. MatchOption found ((d : TheDebugging) → ¬ AsksDebug (line_of line.now) d) (AsksDebug (line_of line.now))) }
{
    let words = line.words.as_slice();
    let options = line.options.as_slice();
    let Some(style) = style_in(alloc, options)? else {
        return Ok(None);
    };
    let others = others_of(alloc, options)?;
    let Some((block, fuel)) = block_of(alloc, others.as_slice())? else {
        return Ok(None);
    };
    asked_by(alloc, words, block, fuel, style)
}
