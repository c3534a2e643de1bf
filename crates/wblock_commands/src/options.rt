//! What options ask for.

ghost use Rattle.std.specs.Borrow.{Bor};
ghost use Rattle.std.specs.Prelude.{◌≡◌, ◌≢◌, ◌≤◌, ◌<◌, ◌+◌, ◌^◌, ◌↔◌, ℕ, Bool, List, [], Option, IfOk, IsTrue, MatchOption, decimal, length};
ghost use Rattle.wblock_commands.specs.Options.{values_in, IsNumber, IsNumberOr, IsNameOrNone, IsForm, count_of, AsksFuel, AsksWorkers, AsksTries, AsksBoosted, AsksForce, AsksHeap, IsHeap, IsSwitch, AsksNext, AsksOnto, AsksCalls, AsksForm, AsksJson, AsksSigned, AsksUnchecked, HasOnlyDeploying, HasOnlyMining, HasOnlyTwo, HasOnlyValidation, HasOnlyShowing};
ghost use Rattle.wblock_calls.specs.Words.{texts};
ghost use Rattle.wblock_line.specs.Words.{choices};
ghost use Rattle.wblock_show.specs.declared.file.Form.{Form as TheForm};

use std::alloc::{AllocError, Global};
use wblock_calls::number_of;
use wblock_line::{BOOSTED_SWITCH, FORCE_SWITCH, JSON_SWITCH, SIGNED_SWITCH, UNCHECKED_SWITCH};
use wblock_show::Form;
use wblock_usage::declared::{
    CALLS, FUEL, HEAP, NEXT, ONTO, SVG, TRIES, USUAL_TRIES, USUAL_WORKERS, WORKERS,
};

/// The values of the options of a name, in their order.
fn values_of<'w>(
    alloc: Global,
    options: &[(&'w str, &'w str)],
    name: &str,
) -> Result<Vec<&'w str>, AllocError>
    ensures { IfOk result (λ values. texts values.items ≡ values_in name.now (choices options.now)) }
{
    let mut values = Vec::new(alloc);
    for option in options {
        if option.0 == name {
            values.push(option.1)?;
        }
    }
    Ok(values)
}

/// The number that a word spells, in decimal with no needless zero, where it is in the range.
fn number_within(
    alloc: Global,
    word: &str,
    least: u64,
    most: u64,
) -> Result<Option<u64>, AllocError>
    ensures none { IfOk result (λ found. MatchOption found ((n : ℕ) → least ≤ n → n ≤ most → word.now ≢ decimal n) (λ n. word.now ≡ decimal n)) }
    ensures within { IfOk result (λ found. MatchOption found (Unit {0}) (λ n. (least ≤ n) × (n ≤ most))) }
{
    let Some(number) = number_of(alloc, word)? else {
        return Ok(None);
    };
    if number < least {
        return Ok(None);
    }
    if number > most {
        return Ok(None);
    }
    Ok(Some(number))
}

/// The number that the only value spells, where it is in the range.
fn number_in(
    alloc: Global,
    values: &[&str],
    least: u64,
    most: u64,
) -> Result<Option<u64>, AllocError>
    ensures { IfOk result (λ found. MatchOption found ((n : ℕ) → ¬ IsNumber (texts values.now) least most n) (IsNumber (texts values.now) least most)) }
{
    match values {
        [word] => number_within(alloc, word, least, most),
        _ => Ok(None),
    }
}

/// The number in the range that the only value spells, or the usual one where there is no value.
fn count_in(
    alloc: Global,
    values: &[&str],
    usual: u32,
    least: u32,
    most: u32,
) -> Result<Option<u32>, AllocError>
    ensures { IfOk result (λ found. MatchOption found ((n : ℕ) → ¬ IsNumberOr usual (texts values.now) least most n) (IsNumberOr usual (texts values.now) least most)) }
{
    if values.is_empty() {
        return Ok(Some(usual));
    }
    match number_in(alloc, values, u64::from(least), u64::from(most))? {
        Some(number) => Ok(Some(number as u32)),
        None => Ok(None),
    }
}

/// The fuel that options ask for, a number of 64 bits; or None where they ask for none.
pub(crate) fn fuel_in(alloc: Global, options: &[(&str, &str)]) -> Result<Option<u64>, AllocError>
    ensures { IfOk result (λ found. MatchOption found ((n : ℕ) → ¬ AsksFuel (choices options.now) n) (AsksFuel (choices options.now))) }
{
    let values = values_of(alloc, options, FUEL.word)?;
    number_in(alloc, values.as_slice(), FUEL.least, FUEL.most)
}

/// The bytes of the heap that the only value spells, if there is one; or None where it spells none that a heap may have.
#[tactic(auto, using(crate::proofs::Heaps::no_heap))]
fn heap_of(alloc: Global, values: &[&str]) -> Result<Option<Option<u32>>, AllocError>
    ensures { IfOk result (λ found. MatchOption found ((heap : Option ℕ) → ¬ IsHeap (texts values.now) heap) (IsHeap (texts values.now))) }
{
    if values.is_empty() {
        return Ok(Some(None));
    }
    match number_in(alloc, values, HEAP.least, HEAP.most)? {
        Some(size) => Ok(Some(Some(size as u32))),
        None => Ok(None),
    }
}

/// The heap that options ask for, if any; or None where they ask for one otherwise than once and in its range.
pub(crate) fn heap_in(
    alloc: Global,
    options: &[(&str, &str)],
) -> Result<Option<Option<u32>>, AllocError>
    ensures { IfOk result (λ found. MatchOption found ((heap : Option ℕ) → ¬ AsksHeap (choices options.now) heap) (AsksHeap (choices options.now))) }
{
    let values = values_of(alloc, options, HEAP.word)?;
    heap_of(alloc, values.as_slice())
}

/// How many workers options ask for, 1 to 64, or 4 where they do not say; or None where they say something else.
pub(crate) fn workers_in(alloc: Global, options: &[(&str, &str)]) -> Result<Option<u32>, AllocError>
    ensures { IfOk result (λ found. MatchOption found ((n : ℕ) → ¬ AsksWorkers (choices options.now) n) (AsksWorkers (choices options.now))) }
{
    let values = values_of(alloc, options, WORKERS.word)?;
    count_in(
        alloc,
        values.as_slice(),
        USUAL_WORKERS.number,
        WORKERS.least as u32,
        WORKERS.most as u32,
    )
}

/// How often options ask to try a call at most, 1 to 16, or 3 times where they do not say; or None where they say something else.
pub(crate) fn tries_in(alloc: Global, options: &[(&str, &str)]) -> Result<Option<u32>, AllocError>
    ensures { IfOk result (λ found. MatchOption found ((n : ℕ) → ¬ AsksTries (choices options.now) n) (AsksTries (choices options.now))) }
{
    let values = values_of(alloc, options, TRIES.word)?;
    count_in(
        alloc,
        values.as_slice(),
        USUAL_TRIES.number,
        TRIES.least as u32,
        TRIES.most as u32,
    )
}

/// Whether a switch was given, once and without a value, by its values; or None where it was given otherwise.
fn switch_of(switches: &[&str]) -> Option<bool>
    ensures { MatchOption result ((given : Bool) → ¬ IsSwitch (texts switches.now) given) (IsSwitch (texts switches.now)) }
{
    match switches {
        [] => Some(false),
        [value] if value.is_empty() => Some(true),
        _ => None,
    }
}

/// Whether options ask for workers over one book; or None where they ask for it otherwise than once and without a value.
pub(crate) fn boosted_in(
    alloc: Global,
    options: &[(&str, &str)],
) -> Result<Option<bool>, AllocError>
    ensures { IfOk result (λ found. MatchOption found ((boosted : Bool) → ¬ AsksBoosted (choices options.now) boosted) (AsksBoosted (choices options.now))) }
{
    let switches = values_of(alloc, options, BOOSTED_SWITCH)?;
    Ok(switch_of(switches.as_slice()))
}

/// Whether options ask for JSON; or None where they ask for it otherwise than once and without a value.
pub(crate) fn json_in(alloc: Global, options: &[(&str, &str)]) -> Result<Option<bool>, AllocError>
    ensures { IfOk result (λ found. MatchOption found ((json : Bool) → ¬ AsksJson (choices options.now) json) (AsksJson (choices options.now))) }
{
    let switches = values_of(alloc, options, JSON_SWITCH)?;
    Ok(switch_of(switches.as_slice()))
}

/// Whether options ask that a world be written in the place of a file that is there; or None where they ask for it otherwise than once and without a
/// value.
pub(crate) fn force_in(alloc: Global, options: &[(&str, &str)]) -> Result<Option<bool>, AllocError>
    ensures { IfOk result (λ found. MatchOption found ((forced : Bool) → ¬ AsksForce (choices options.now) forced) (AsksForce (choices options.now))) }
{
    let switches = values_of(alloc, options, FORCE_SWITCH)?;
    Ok(switch_of(switches.as_slice()))
}

/// The name that the only value is, or that there is none; or None where there are several.
fn only_name<'w>(values: &[&'w str]) -> Option<Option<&'w str>>
    ensures { MatchOption result ((name : Option (Bor (List ℕ))) → ¬ IsNameOrNone (texts values.now) name) (IsNameOrNone (texts values.now)) }
{
    if values.is_empty() {
        return Some(None);
    }
    if values.len() > 1 {
        return None;
    }
    Some(Some(values[0]))
}

/// The form of a picture in the file of the only name, or lines where there is none; or None where there are several.
fn picture_of<'w>(pictures: &[&'w str]) -> Option<Form<'w>>
    ensures { MatchOption result ((form : TheForm) → ¬ IsForm [] (texts pictures.now) form) (IsForm [] (texts pictures.now)) }
{
    if pictures.is_empty() {
        return Some(Form::Text);
    }
    if pictures.len() > 1 {
        return None;
    }
    Some(Form::Picture(pictures[0]))
}

/// The form that the values of `--json` and of `--svg` ask for; or None where they ask for several, or `--json` has a value.
fn form_of<'w>(switches: &[&str], pictures: &[&'w str]) -> Option<Form<'w>>
    ensures { MatchOption result ((form : TheForm) → ¬ IsForm (texts switches.now) (texts pictures.now) form) (IsForm (texts switches.now) (texts pictures.now)) }
{
    if switches.is_empty() {
        return picture_of(pictures);
    }
    if switches.len() > 1 || !pictures.is_empty() {
        return None;
    }
    if switches[0].is_empty() {
        Some(Form::Json)
    } else {
        None
    }
}

/// The file that options name for the world after a block, if any; or None where they name several.
pub(crate) fn next_in<'w>(
    alloc: Global,
    options: &[(&'w str, &'w str)],
) -> Result<Option<Option<&'w str>>, AllocError>
    ensures { IfOk result (λ found. MatchOption found ((next : Option (Bor (List ℕ))) → ¬ AsksNext (choices options.now) next) (AsksNext (choices options.now))) }
{
    let values = values_of(alloc, options, NEXT.word)?;
    Ok(only_name(values.as_slice()))
}

/// The file that options name for the world that is gone on from, if any; or None where they name several.
pub(crate) fn onto_in<'w>(
    alloc: Global,
    options: &[(&'w str, &'w str)],
) -> Result<Option<Option<&'w str>>, AllocError>
    ensures { IfOk result (λ found. MatchOption found ((old : Option (Bor (List ℕ))) → ¬ AsksOnto (choices options.now) old) (AsksOnto (choices options.now))) }
{
    let values = values_of(alloc, options, ONTO.word)?;
    Ok(only_name(values.as_slice()))
}

/// The file that options name for the calls of a block, if any; or None where they name several.
pub(crate) fn calls_in<'w>(
    alloc: Global,
    options: &[(&'w str, &'w str)],
) -> Result<Option<Option<&'w str>>, AllocError>
    ensures { IfOk result (λ found. MatchOption found ((calls : Option (Bor (List ℕ))) → ¬ AsksCalls (choices options.now) calls) (AsksCalls (choices options.now))) }
{
    let values = values_of(alloc, options, CALLS.word)?;
    Ok(only_name(values.as_slice()))
}

/// How options ask for a file to be shown: as JSON, by a picture where they name a file for it, or else by lines; or None where they ask for several.
pub(crate) fn form_in<'w>(
    alloc: Global,
    options: &[(&'w str, &'w str)],
) -> Result<Option<Form<'w>>, AllocError>
    ensures { IfOk result (λ found. MatchOption found ((form : TheForm) → ¬ AsksForm (choices options.now) form) (AsksForm (choices options.now))) }
{
    let switches = values_of(alloc, options, JSON_SWITCH)?;
    let pictures = values_of(alloc, options, SVG.word)?;
    Ok(form_of(switches.as_slice(), pictures.as_slice()))
}

/// Whether options ask for signed numbers of cells; or None where they ask for them otherwise than once and without a value.
pub(crate) fn signed_in(alloc: Global, options: &[(&str, &str)]) -> Result<Option<bool>, AllocError>
    ensures { IfOk result (λ found. MatchOption found ((signed : Bool) → ¬ AsksSigned (choices options.now) signed) (AsksSigned (choices options.now))) }
{
    let switches = values_of(alloc, options, SIGNED_SWITCH)?;
    Ok(switch_of(switches.as_slice()))
}

/// Whether options ask for the text of a module that need not be valid; or None where they ask for it otherwise than once and without a value.
pub(crate) fn unchecked_in(
    alloc: Global,
    options: &[(&str, &str)],
) -> Result<Option<bool>, AllocError>
    ensures { IfOk result (λ found. MatchOption found ((unchecked : Bool) → ¬ AsksUnchecked (choices options.now) unchecked) (AsksUnchecked (choices options.now))) }
{
    let switches = values_of(alloc, options, UNCHECKED_SWITCH)?;
    Ok(switch_of(switches.as_slice()))
}

/// How many options have this name.
fn count_of(options: &[(&str, &str)], name: &str) -> usize
    ensures count { result ≡ count_of name.now (choices options.now) }
    ensures few { result ≤ length options.now }
{
    let mut count = 0;
    for option in options {
        if option.0 == name {
            count += 1;
        }
    }
    count
}

/// Whether all options have one of these two names.
pub(crate) fn has_only_two(options: &[(&str, &str)], first: &str, second: &str) -> bool
    ensures { IsTrue result ↔ HasOnlyTwo first.now second.now (choices options.now) }
{
    let firsts = count_of(options, first);
    let seconds = count_of(options, second);
    options.len() == firsts + seconds
}

/// Whether all options are options of `deploy`.
pub(crate) fn has_only_deploying(options: &[(&str, &str)]) -> bool
    ensures { IsTrue result ↔ HasOnlyDeploying (choices options.now) }
{
    let onto = count_of(options, ONTO.word);
    let force = count_of(options, FORCE_SWITCH);
    let json = count_of(options, JSON_SWITCH);
    options.len() == onto + force + json
}

/// Whether all options are options of `mine`.
pub(crate) fn has_only_mining(options: &[(&str, &str)]) -> bool
    ensures { IsTrue result ↔ HasOnlyMining (choices options.now) }
{
    let fuel = count_of(options, FUEL.word);
    let workers = count_of(options, WORKERS.word);
    let boosted = count_of(options, BOOSTED_SWITCH);
    let tries = count_of(options, TRIES.word);
    let json = count_of(options, JSON_SWITCH);
    options.len() == fuel + workers + boosted + tries + json
}

/// Whether all options are options of `validate`.
pub(crate) fn has_only_validation(options: &[(&str, &str)]) -> bool
    ensures { IsTrue result ↔ HasOnlyValidation (choices options.now) }
{
    let fuel = count_of(options, FUEL.word);
    let workers = count_of(options, WORKERS.word);
    let boosted = count_of(options, BOOSTED_SWITCH);
    let next = count_of(options, NEXT.word);
    let json = count_of(options, JSON_SWITCH);
    options.len() == fuel + workers + boosted + next + json
}

/// Whether all are options of `show`.
pub(crate) fn has_only_showing(options: &[(&str, &str)]) -> bool
    ensures { IsTrue result ↔ HasOnlyShowing (choices options.now) }
{
    let calls = count_of(options, CALLS.word);
    let switches = count_of(options, JSON_SWITCH);
    let pictures = count_of(options, SVG.word);
    let signed = count_of(options, SIGNED_SWITCH);
    options.len() == calls + switches + pictures + signed
}
