//! A module as JSON.

ghost use Rattle.std.specs.Prelude.{◌≡◌, IfOk, OnOk, length, string_bytes};
ghost use Rattle.serde_json.specs.View.{members_view, view};
ghost use Rattle.body_typing.specs.Spaces.{AreSpaces};
ghost use Rattle.module_tree.specs.Modules.{module_view};
ghost use Rattle.wblock_words.specs.Names.{Rises, names_in};
ghost use Rattle.wblock_json.specs.Json.{small, with_members, IsJson};
ghost use Rattle.wblock_json.specs.Modules.{module_data, module_members, IsModuleJson};

use crate::defined::{all_limits_of, funcs_of, globals_of};
use crate::interface::{exports_of, imports_of};
use crate::types::maybe_number;
use crate::values::text_of;
use body_typing::spaces::Spaces;
use module_tree::module::Module;
use serde_json::{Map, Value as Json, put};
use std::alloc::{AllocError, Global};
use wblock_words::{FunctionName, names_of};

/// How many element segments there are.
fn elements_of(tree: &Module<Global>) -> Json
    ensures { view result ≡ small (length (module_view tree.now).elements) }
{
    Json::from(tree.elements.len())
}

/// How many data segments there are.
fn datas_of(tree: &Module<Global>) -> Json
    ensures { view result ≡ small (length (module_view tree.now).datas) }
{
    Json::from(tree.datas.len())
}

/// Puts what is told of a module whose index spaces are these and whose functions have these names. Each value is made where it is put, so that none is held where memory is refused.
#[tactic(auto, unfolding(crate::specs::Modules::module_members))]
fn put_members(
    alloc: Global,
    map: &mut Map<String, Json>,
    size: usize,
    names: &[FunctionName<'_>],
    tree: &Module<Global>,
    spaces: &Spaces<Global>,
) -> Result<(), AllocError>
    requires spaces { AreSpaces spaces.now (module_view tree.now) }
    requires rises { Rises (names_in names.now) }
    ensures { OnOk result (members_view map.new.entries ≡ with_members (module_members size (names_in names.now) (module_view tree.now)) (members_view map.old.entries)) }
{
    put(map, alloc, "bytes", Json::from(size))?;
    let imports = imports_of(alloc, &tree.types, &tree.imports)?;
    put(map, alloc, "imports", imports)?;
    put(map, alloc, "exports", exports_of(alloc, tree, spaces)?)?;
    put(map, alloc, "functions", funcs_of(alloc, names, tree)?)?;
    put(map, alloc, "tables", all_limits_of(alloc, &tree.tables)?)?;
    let memories = all_limits_of(alloc, &tree.memories)?;
    put(map, alloc, "memories", memories)?;
    put(map, alloc, "globals", globals_of(alloc, tree, spaces)?)?;
    put(map, alloc, "start", maybe_number(tree.start))?;
    put(map, alloc, "elements", elements_of(tree))?;
    put(map, alloc, "data", datas_of(tree))
}

/// Puts what is told of a module that so many bytes spell, with these names of functions, among the members of an object.
pub(crate) fn put_module(
    alloc: Global,
    map: &mut Map<String, Json>,
    size: usize,
    names: &[FunctionName<'_>],
    tree: &Module<Global>,
) -> Result<(), AllocError>
    requires { Rises (names_in names.now) }
    ensures { OnOk result (members_view map.new.entries ≡ with_members (module_members size (names_in names.now) (module_view tree.now)) (members_view map.old.entries)) }
{
    let spaces = Spaces::of_module(&alloc, tree)?;
    put_members(alloc, map, size, names, tree, &spaces)
}

#[tactic(auto, unfolding(crate::specs::Modules::module_data))]
fn module_of(
    alloc: Global,
    size: usize,
    names: &[FunctionName<'_>],
    tree: &Module<Global>,
) -> Result<Json, AllocError>
    requires { Rises (names_in names.now) }
    ensures { IfOk result (λ v. view v ≡ module_data size (names_in names.now) (module_view tree.now)) }
{
    let mut map = Map::new(alloc);
    let kind = "module".to_string(alloc)?;
    put(&mut map, alloc, "kind", Json::from(kind))?;
    put_module(alloc, &mut map, size, names, tree)?;
    Ok(Json::from(map))
}

/// A module that so many bytes spell as JSON, with these names of functions.
fn named_json(
    alloc: Global,
    size: usize,
    names: &[FunctionName<'_>],
    tree: &Module<Global>,
) -> Result<String, AllocError>
    requires { Rises (names_in names.now) }
    ensures { IfOk result (λ text. IsJson (module_data size (names_in names.now) (module_view tree.now)) (string_bytes text)) }
{
    let value = module_of(alloc, size, names, tree)?;
    text_of(alloc, &value)
}

/// A module that these bytes spell as JSON: an object with its imports, exports, functions, tables, memories and globals, their types, the names of
/// functions that the bytes carry, the start function, and how many segments there are. The text has no spaces and no newline.
///
/// # Errors
///
/// Memory was refused.
pub fn module_json(alloc: Global, bytes: &[u8], tree: &Module<Global>) -> Result<String, AllocError>
    ensures { IfOk result (λ text. IsModuleJson bytes.now (module_view tree.now) (string_bytes text)) }
{
    let names = names_of(alloc, bytes)?;
    let text = named_json(alloc, bytes.len(), &names, tree)?;
    Ok(text)
}
