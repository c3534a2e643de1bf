//! What a module defines.

ghost use Rattle.std.specs.Prelude.{◌≡◌, ◌+◌, ◌<◌, List, IfOk, Some, length, map, option_map, string_bytes};
ghost use Rattle.wblock_words.specs.Names.{Named, Rises, name_among, names_in};
ghost use Rattle.std.specs.List.{flat_map};
ghost use Rattle.spec_typing.specs.Modules.{imported_globals};
ghost use Rattle.module_tree.specs.ModuleView.{limits_view, func_view, global_view};
ghost use Rattle.module_tree.specs.Modules.{module_view};
ghost use Rattle.module_tree.specs.Readers.{imported_funcs, defined_func};
ghost use Rattle.wblock_contents.specs.Lines.{numbered};
ghost use Rattle.wblock_contents.specs.ModuleText.{amounts_text, called_text, func_line, limits_line, global_line, start_text, segments_text, defined_text};

use crate::names::quoted;
use crate::types::{global_type_text_of, limits_text_of, type_text_at};
use body_typing::spaces::Spaces;
use figures::first_func;
use module_tree::module::{Func, Global as Variable, Module};
use std::alloc::{AllocError, Global};
use wblock_words::{FunctionName, first_name, names_from};
use wtypes::Limits;

/// ` locals L instructions N`.
fn amounts_text_of(alloc: Global, locals: usize, instructions: u32) -> Result<String, AllocError>
    ensures { IfOk result (λ text. string_bytes text ≡ amounts_text locals instructions) }
{
    let text = format!(in alloc; " locals {locals} instructions {instructions}")?;
    Ok(text)
}

/// ` name "NAME"`, where there is a name.
fn called_text_of(alloc: Global, name: Option<&str>) -> Result<String, AllocError>
    ensures { IfOk result (λ text. string_bytes text ≡ called_text (option_map (λ n. n.now) name.entry)) }
{
    match name {
        None => Ok(String::new(alloc)),
        Some(name) => {
            let name = quoted(alloc, name)?;
            let text = format!(in alloc; " name {name}")?;
            Ok(text)
        }
    }
}

/// The line of the function of this number and this name.
fn func_line_of(
    alloc: Global,
    tree: &Module<Global>,
    number: u32,
    name: Option<&str>,
    func: &Func<Global>,
) -> Result<String, AllocError>
    requires { defined_func (module_view tree.now) number ≡ Some (func_view func.now) }
    ensures { IfOk result (λ line. (names : List Named) → option_map (λ n. n.now) name.entry ≡ name_among names number → string_bytes line ≡ func_line (module_view tree.now).types names number (func_view func.now)) }
{
    let func_type = type_text_at(alloc, &tree.types, func.type_index)?;
    let amounts = amounts_text_of(alloc, func.locals.len(), tree.size(number))?;
    let called = called_text_of(alloc, name)?;
    let line = format!(in alloc; "function {number}{func_type}{amounts}{called}\n")?;
    Ok(line)
}

/// A line for each defined function.
fn func_lines_of(
    alloc: Global,
    names: &[FunctionName<'_>],
    tree: &Module<Global>,
) -> Result<String, AllocError>
    requires { Rises (names_in names.now) }
    ensures { IfOk result (λ text. string_bytes text ≡ numbered (func_line (module_view tree.now).types (names_in names.now)) (imported_funcs (module_view tree.now).imports) (module_view tree.now).funcs) }
{
    let mut text = String::new(alloc);
    let mut number = first_func(tree);
    let mut left = names;
    for func in &tree.funcs {
        left = names_from(left, number);
        let name = first_name(left, number);
        let line = func_line_of(alloc, tree, number, name, func)?;
        text.push_str(line.as_str())?;
        number += 1;
    }
    Ok(text)
}

/// A line of a word and limits.
fn limits_line_of(alloc: Global, word: &str, limits: Limits) -> Result<String, AllocError>
    ensures { IfOk result (λ line. string_bytes line ≡ limits_line word.now (limits_view limits)) }
{
    let text = limits_text_of(alloc, limits)?;
    let line = format!(in alloc; "{word}{text}\n")?;
    Ok(line)
}

/// A line for each of these limits.
fn limits_lines_of(alloc: Global, word: &str, all: &[Limits]) -> Result<String, AllocError>
    ensures { IfOk result (λ text. string_bytes text ≡ flat_map (limits_line word.now) (map limits_view all.now)) }
{
    let mut text = String::new(alloc);
    for limits in all {
        let line = limits_line_of(alloc, word, *limits)?;
        text.push_str(line.as_str())?;
    }
    Ok(text)
}

/// The line of the global of this number.
fn global_line_of(
    alloc: Global,
    number: u128,
    global: &Variable<Global>,
) -> Result<String, AllocError>
    ensures { IfOk result (λ line. string_bytes line ≡ global_line number (global_view global.now)) }
{
    let text = global_type_text_of(alloc, global.global_type)?;
    let line = format!(in alloc; "global {number} {text}\n")?;
    Ok(line)
}

/// A line for each global, the first of this number. Numbers are so wide that none wraps.
fn global_lines_of(
    alloc: Global,
    first: usize,
    globals: &[Variable<Global>],
) -> Result<String, AllocError>
    ensures { IfOk result (λ text. string_bytes text ≡ numbered global_line first (map global_view globals.now)) }
{
    let mut text = String::new(alloc);
    let mut number = first as u128;
    for global in globals {
        let line = global_line_of(alloc, number, global)?;
        text.push_str(line.as_str())?;
        number += 1;
    }
    Ok(text)
}

/// A line for each defined global.
fn defined_globals_of(alloc: Global, tree: &Module<Global>) -> Result<String, AllocError>
    ensures { IfOk result (λ text. string_bytes text ≡ numbered global_line (length (imported_globals (module_view tree.now))) (module_view tree.now).globals) }
{
    let spaces = Spaces::of_module(&alloc, tree)?;
    global_lines_of(alloc, spaces.imported_globals, &tree.globals)
}

/// The line of the start function, where there is one.
fn start_text_of(alloc: Global, start: Option<u32>) -> Result<String, AllocError>
    ensures { IfOk result (λ text. string_bytes text ≡ start_text start) }
{
    match start {
        None => Ok(String::new(alloc)),
        Some(func) => format!(in alloc; "start {func}\n"),
    }
}

/// What a module defines, line by line, with these names of functions.
pub(crate) fn defined_text_of(
    alloc: Global,
    names: &[FunctionName<'_>],
    tree: &Module<Global>,
) -> Result<String, AllocError>
    requires { Rises (names_in names.now) }
    ensures { IfOk result (λ text. string_bytes text ≡ defined_text (names_in names.now) (module_view tree.now)) }
{
    let funcs = func_lines_of(alloc, names, tree)?;
    let tables = limits_lines_of(alloc, "table", &tree.tables)?;
    let memories = limits_lines_of(alloc, "memory", &tree.memories)?;
    let globals = defined_globals_of(alloc, tree)?;
    let start = start_text_of(alloc, tree.start)?;
    let elements = tree.elements.len();
    let datas = tree.datas.len();
    let text = format!(in alloc;
        "{funcs}{tables}{memories}{globals}{start}elements {elements}\ndata {datas}\n"
    )?;
    Ok(text)
}
