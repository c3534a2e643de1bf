//! The names of functions that a module carries in its custom section `name` (Core Specification, 7.4.1 Name Section).

ghost use Rattle.std.specs.Prelude.{◌≡◌, ◌≤◌, ℕ, List, IfOk, MatchOption, option_map};
ghost use Rattle.spec_modules.specs.Language.{◌⨾◌};
ghost use Rattle.spec_modules.specs.Grammar.{header};
ghost use Rattle.wblock_words.specs.Names.{AreNamesOf, IsFrom, Named, Rises, name_among, name_map, names_in};
ghost use Rattle.wblock_words.specs.Parts.{HasFunctions, HasNameSection, IsNameData, IsOnly, exactly, is_above};

use crate::parts::{name_and_rest, number_and_rest, section_and_rest};
use std::alloc::{AllocError, Allocator};

/// The name of a function.
#[derive(Clone, Copy, Debug)]
pub struct FunctionName<'b> {
    /// The number of the function, imports counted first.
    pub number: u32,
    /// Its name.
    pub name: &'b str,
}

/// What a module begins with: the magic and the version.
const HEADER: [u8; 8] = [0x00, 0x61, 0x73, 0x6D, 0x01, 0x00, 0x00, 0x00];

/// The id of a custom section, and the number of the subsection of the module's name.
const FIRST: u8 = 0;

/// The number of the subsection of the names of functions.
const FUNCTIONS: u8 = 1;

/// What stands behind the header of a module.
fn sections_of(bytes: &[u8]) -> Option<&[u8]>
    ensures { MatchOption result ((rest : List ℕ) → ¬ (header ⨾ exactly rest) bytes.now) (λ rest. (header ⨾ exactly rest.now) bytes.now) }
{
    if bytes.len() < HEADER.len() {
        return None;
    }
    let (front, rest) = bytes.split_at(HEADER.len());
    if front == HEADER.as_slice() {
        Some(rest)
    } else {
        None
    }
}

/// What a custom section `name` holds behind its name.
fn data_of(id: u8, content: &[u8]) -> Option<&[u8]>
    ensures { MatchOption result ((payload : List ℕ) → ¬ IsNameData id content.now payload) (λ payload. IsNameData id content.now payload.now) }
{
    if id != FIRST {
        return None;
    }
    let (title, payload) = name_and_rest(content)?;
    if title == "name" { Some(payload) } else { None }
}

/// What stands behind the name of the first custom section `name`. None where there is none.
fn name_section(bytes: &[u8]) -> Option<&[u8]>
    ensures { MatchOption result ((payload : List ℕ) → ¬ HasNameSection bytes.now payload) (λ payload. IsOnly (HasNameSection bytes.now) payload.now) }
{
    let mut rest = sections_of(bytes)?;
    while !rest.is_empty() {
        let (id, content, behind) = section_and_rest(rest)?;
        if let Some(payload) = data_of(id, content) {
            return Some(payload);
        }
        rest = behind;
    }
    None
}

/// What is in the subsection of the names of functions, which stands first or behind that of the module's name. None where there is none.
fn functions_in(payload: &[u8]) -> Option<&[u8]>
    ensures { MatchOption result ((functions : List ℕ) → ¬ HasFunctions payload.now functions) (λ functions. IsOnly (HasFunctions payload.now) functions.now) }
{
    let (first, content, behind) = section_and_rest(payload)?;
    if first == FUNCTIONS {
        return Some(content);
    }
    if first != FIRST {
        return None;
    }
    let (second, content, _behind) = section_and_rest(behind)?;
    if second == FUNCTIONS {
        Some(content)
    } else {
        None
    }
}

/// Whether a number is above the last of the names.
fn is_above(names: &[FunctionName<'_>], number: u32) -> bool
    ensures { result ≡ is_above (names_in names.now) number }
{
    match names.last() {
        Some(last) => last.number < number,
        None => true,
    }
}

/// The names that bytes spell, all of them. None where they spell none.
fn map_of<'b, A: Allocator + Copy>(
    alloc: A,
    bytes: &'b [u8],
) -> Result<Option<Vec<FunctionName<'b>, A>>, AllocError>
    ensures { IfOk result (λ found. MatchOption found ((names : List Named) → ¬ name_map names bytes.entry.now) (λ names. name_map (names_in names.items) bytes.entry.now)) }
{
    let Some((count, mut rest)) = number_and_rest(bytes) else {
        return Ok(None);
    };
    let mut names = Vec::new(alloc);
    for _ in 0..count {
        let Some((number, after)) = number_and_rest(rest) else {
            return Ok(None);
        };
        let Some((name, behind)) = name_and_rest(after) else {
            return Ok(None);
        };
        if !is_above(&names, number) {
            return Ok(None);
        }
        names.push(FunctionName { number, name })?;
        rest = behind;
    }
    if rest.is_empty() {
        Ok(Some(names))
    } else {
        Ok(None)
    }
}

/// The names of functions that a module carries, in the order of their numbers: those of its first custom section `name`. There is none where it has no such
/// section, or one that is not as the standard has it. Each byte is looked at once, and names are lent by the bytes.
///
/// # Errors
///
/// Memory was refused.
pub fn names_of<'b, A: Allocator + Copy>(
    alloc: A,
    bytes: &'b [u8],
) -> Result<Vec<FunctionName<'b>, A>, AllocError>
    ensures carried { IfOk result (λ names. AreNamesOf bytes.entry.now (names_in names.items)) }
    ensures rises { IfOk result (λ names. Rises (names_in names.items)) }
{
    let Some(payload) = name_section(bytes) else {
        return Ok(Vec::new(alloc));
    };
    let Some(functions) = functions_in(payload) else {
        return Ok(Vec::new(alloc));
    };
    match map_of(alloc, functions)? {
        Some(names) => Ok(names),
        None => Ok(Vec::new(alloc)),
    }
}

/// The name of the function of this number, which is the first of these where there is one.
pub fn first_name<'b>(names: &[FunctionName<'b>], number: u32) -> Option<&'b str>
    requires rises { Rises (names_in names.now) }
    requires from { IsFrom number (names_in names.now) }
    ensures { option_map (λ n. n.now) result ≡ name_among (names_in names.now) number }
{
    match names.split_first() {
        Some((first, _rest)) => {
            if first.number == number {
                Some(first.name)
            } else {
                None
            }
        }
        None => None,
    }
}

/// The names of the functions from this one on.
pub fn names_from<'n, 'b>(names: &'n [FunctionName<'b>], number: u32) -> &'n [FunctionName<'b>]
    requires { Rises (names_in names.now) }
    ensures rises { Rises (names_in result.now) }
    ensures from { IsFrom number (names_in result.now) }
    ensures same { (later : ℕ) → number ≤ later → name_among (names_in result.now) later ≡ name_among (names_in names.entry.now) later }
{
    let mut rest = names;
    while let [first, more @ ..] = rest {
        if first.number >= number {
            return rest;
        }
        rest = more;
    }
    rest
}
