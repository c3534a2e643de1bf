//! What a module defines as JSON.

ghost use Rattle.std.specs.Prelude.{◌≡◌, ◌+◌, ◌<◌, ◌^◌, IfOk, Some, length, map, option_map, vec_len};
ghost use Rattle.serde_json.specs.Data.{string};
ghost use Rattle.serde_json.specs.View.{view};
ghost use Rattle.wblock_words.specs.Names.{Rises, names_in};
ghost use Rattle.body_typing.specs.Spaces.{AreSpaces};
ghost use Rattle.spec_modules.specs.Shape.{size};
ghost use Rattle.spec_typing.specs.Modules.{imported_globals};
ghost use Rattle.module_tree.specs.ModuleView.{func_view, global_view, limits_view};
ghost use Rattle.module_tree.specs.Modules.{module_view};
ghost use Rattle.module_tree.specs.Readers.{defined_func, imported_funcs};
ghost use Rattle.wblock_json.specs.Json.{array_of, maybe, numbered};
ghost use Rattle.wblock_json.specs.Modules.{func_data, global_data, limits_data, named_func_data};

use crate::types::{global_type_of, limits_of, type_at_index};
use crate::values::{null, word_of};
use body_typing::spaces::Spaces;
use figures::first_func;
use module_tree::module::{Func, Global as Variable, Module};
use serde_json::{Value as Json, json};
use std::alloc::{AllocError, Global};
use wblock_words::{FunctionName, first_name, names_from};
use wtypes::Limits;

/// How many instructions of all depths the function of a number has.
fn size_of(tree: &Module<Global>, number: u32, func: &Func<Global>) -> u32
    requires { defined_func (module_view tree.now) number ≡ Some (func_view func.now) }
    ensures { result ≡ size (func_view func.now).body }
{
    let _func = func;
    tree.size(number)
}

/// A name, as a string; nothing where there is none.
fn name_or_null(alloc: Global, name: Option<&str>) -> Result<Json, AllocError>
    ensures { IfOk result (λ v. view v ≡ maybe string (option_map (λ n. n.now) name.entry)) }
{
    match name {
        None => Ok(null()),
        Some(name) => word_of(alloc, name),
    }
}

/// The function of this number and this name.
#[tactic(auto, unfolding(crate::specs::Modules::func_data))]
fn func_of(
    alloc: Global,
    tree: &Module<Global>,
    number: u32,
    name: Option<&str>,
    func: &Func<Global>,
) -> Result<Json, AllocError>
    requires { defined_func (module_view tree.now) number ≡ Some (func_view func.now) }
    ensures { IfOk result (λ v. view v ≡ func_data (module_view tree.now).types (option_map (λ n. n.now) name.entry) number (func_view func.now)) }
{
    let func_type = type_at_index(alloc, &tree.types, func.type_index)?;
    let locals = func.locals.len();
    let instructions = size_of(tree, number, func);
    let called = name_or_null(alloc, name)?;
    json!(in alloc; {
        "index": number,
        "type": func_type,
        "locals": locals,
        "instructions": instructions,
        "name": called,
    })
}

/// The defined functions, with these names.
pub(crate) fn funcs_of(
    alloc: Global,
    names: &[FunctionName<'_>],
    tree: &Module<Global>,
) -> Result<Json, AllocError>
    requires { Rises (names_in names.now) }
    ensures { IfOk result (λ v. view v ≡ array_of (numbered (named_func_data (module_view tree.now).types (names_in names.now)) (imported_funcs (module_view tree.now).imports) (module_view tree.now).funcs)) }
{
    let mut values = Vec::new(alloc);
    let mut number = first_func(tree);
    let mut left = names;
    for func in &tree.funcs {
        left = names_from(left, number);
        let name = first_name(left, number);
        let value = func_of(alloc, tree, number, name, func)?;
        values.push(value)?;
        number += 1;
    }
    Ok(Json::from(values))
}

/// All of these limits.
pub(crate) fn all_limits_of(alloc: Global, all: &[Limits]) -> Result<Json, AllocError>
    ensures { IfOk result (λ v. view v ≡ array_of (map limits_data (map limits_view all.now))) }
{
    let mut values = Vec::new(alloc);
    for limits in all {
        values.push(limits_of(alloc, *limits)?)?;
    }
    Ok(Json::from(values))
}

/// The global of this number.
#[tactic(auto, unfolding(crate::specs::Modules::global_data))]
fn global_of(alloc: Global, number: u64, global: &Variable<Global>) -> Result<Json, AllocError>
    ensures { IfOk result (λ v. view v ≡ global_data number (global_view global.now)) }
{
    let global_type = global_type_of(alloc, global.global_type)?;
    json!(in alloc; {"index": number, "type": global_type})
}

/// The number of the first defined global. There is no more room in memory than numbers of globals.
fn first_global(tree: &Module<Global>, spaces: &Spaces<Global>) -> u64
    requires { AreSpaces spaces.now (module_view tree.now) }
    ensures number { result ≡ length (imported_globals (module_view tree.now)) }
    ensures room { result + vec_len tree.now.globals < 2 ^ 64 }
{
    let _count = spaces.globals.len();
    spaces.imported_globals as u64
}

/// The defined globals.
pub(crate) fn globals_of(
    alloc: Global,
    tree: &Module<Global>,
    spaces: &Spaces<Global>,
) -> Result<Json, AllocError>
    requires { AreSpaces spaces.now (module_view tree.now) }
    ensures { IfOk result (λ v. view v ≡ array_of (numbered global_data (length (imported_globals (module_view tree.now))) (module_view tree.now).globals)) }
{
    let mut values = Vec::new(alloc);
    let mut number = first_global(tree, spaces);
    for global in &tree.globals {
        values.push(global_of(alloc, number, global)?)?;
        number += 1;
    }
    Ok(Json::from(values))
}
