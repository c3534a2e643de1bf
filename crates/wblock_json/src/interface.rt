//! The imports and the exports of a module as JSON.

ghost use Rattle.std.specs.Prelude.{◌≡◌, IfOk, map, slice_get};
ghost use Rattle.serde_json.specs.View.{view};
ghost use Rattle.body_typing.specs.Spaces.{AreSpaces};
ghost use Rattle.spec_typing.specs.Modules.{type_at};
ghost use Rattle.module_tree.specs.ModuleView.{export_desc_view, export_view, func_type_view, global_type_view, import_desc_view, import_view, limits_view};
ghost use Rattle.module_tree.specs.Modules.{module_view};
ghost use Rattle.wblock_json.specs.Json.{array_of, maybe};
ghost use Rattle.wblock_json.specs.Modules.{export_data, export_index, export_type, export_word, func_type_data, global_type_data, import_data, import_type, import_word, limits_data};

use crate::types::{global_type_of, limits_of, type_at_index};
use crate::values::null;
use body_typing::spaces::Spaces;
use module_tree::module::{Export, ExportDesc, GlobalType, Import, ImportDesc, Module};
use serde_json::{Value as Json, json};
use std::alloc::{AllocError, Global};
use wtypes::{FuncType, Limits};

// ---- imports

fn word_of_import(desc: ImportDesc) -> &'static str
    ensures { result.now ≡ import_word (import_desc_view desc) }
{
    match desc {
        ImportDesc::Func(_) => "func",
        ImportDesc::Table(_) => "table",
        ImportDesc::Memory(_) => "memory",
        ImportDesc::Global(_) => "global",
    }
}

fn type_of_import(
    alloc: Global,
    types: &[FuncType<Global>],
    desc: ImportDesc,
) -> Result<Json, AllocError>
    ensures { IfOk result (λ v. view v ≡ import_type (map func_type_view types.now) (import_desc_view desc)) }
{
    match desc {
        ImportDesc::Func(index) => type_at_index(alloc, types, index),
        ImportDesc::Table(limits) => limits_of(alloc, limits),
        ImportDesc::Memory(limits) => limits_of(alloc, limits),
        ImportDesc::Global(global_type) => global_type_of(alloc, global_type),
    }
}

#[tactic(auto, unfolding(crate::specs::Modules::import_data))]
fn import_of(
    alloc: Global,
    types: &[FuncType<Global>],
    import: &Import<Global>,
) -> Result<Json, AllocError>
    ensures { IfOk result (λ v. view v ≡ import_data (map func_type_view types.now) (import_view import.now)) }
{
    let from_module = import.from_module.as_str();
    let name = import.name.as_str();
    let kind = word_of_import(import.desc);
    let import_type = type_of_import(alloc, types, import.desc)?;
    json!(in alloc; {"module": from_module, "name": name, "kind": kind, "type": import_type})
}

/// The imports of a module of these types.
pub(crate) fn imports_of(
    alloc: Global,
    types: &[FuncType<Global>],
    imports: &[Import<Global>],
) -> Result<Json, AllocError>
    ensures { IfOk result (λ v. view v ≡ array_of (map (import_data (map func_type_view types.now)) (map import_view imports.now))) }
{
    let mut values = Vec::new(alloc);
    for import in imports {
        values.push(import_of(alloc, types, import)?)?;
    }
    Ok(Json::from(values))
}

// ---- exports

fn word_of_export(desc: ExportDesc) -> &'static str
    ensures { result.now ≡ export_word (export_desc_view desc) }
{
    match desc {
        ExportDesc::Func(_) => "func",
        ExportDesc::Table(_) => "table",
        ExportDesc::Memory(_) => "memory",
        ExportDesc::Global(_) => "global",
    }
}

fn index_of_export(desc: ExportDesc) -> u32
    ensures { result ≡ export_index (export_desc_view desc) }
{
    match desc {
        ExportDesc::Func(index) => index,
        ExportDesc::Table(index) => index,
        ExportDesc::Memory(index) => index,
        ExportDesc::Global(index) => index,
    }
}

/// The type of the function of a number, by the type index of each, if there is one.
fn type_of_func(
    alloc: Global,
    types: &[FuncType<Global>],
    indices: &[u32],
    func: u32,
) -> Result<Json, AllocError>
    ensures { IfOk result (λ v. view v ≡ maybe (λ index. func_type_data (type_at (map func_type_view types.now) index)) (slice_get indices.now func)) }
{
    match indices.get(func as usize) {
        Some(index) => type_at_index(alloc, types, *index),
        None => Ok(null()),
    }
}

/// The limits of a number, if there are some.
fn limits_at(alloc: Global, all: &[Limits], number: u32) -> Result<Json, AllocError>
    ensures { IfOk result (λ v. view v ≡ maybe limits_data (slice_get (map limits_view all.now) number)) }
{
    match all.get(number as usize) {
        Some(limits) => limits_of(alloc, *limits),
        None => Ok(null()),
    }
}

/// The type of the global of a number, if there is one.
fn global_type_at(alloc: Global, all: &[GlobalType], number: u32) -> Result<Json, AllocError>
    ensures { IfOk result (λ v. view v ≡ maybe global_type_data (slice_get (map global_type_view all.now) number)) }
{
    match all.get(number as usize) {
        Some(global_type) => global_type_of(alloc, *global_type),
        None => Ok(null()),
    }
}

/// The type of what an export names.
fn type_of_export(
    alloc: Global,
    tree: &Module<Global>,
    spaces: &Spaces<Global>,
    desc: ExportDesc,
) -> Result<Json, AllocError>
    requires { AreSpaces spaces.now (module_view tree.now) }
    ensures { IfOk result (λ v. view v ≡ export_type (module_view tree.now) (export_desc_view desc)) }
{
    match desc {
        ExportDesc::Func(func) => type_of_func(alloc, &tree.types, &spaces.funcs, func),
        ExportDesc::Table(table) => limits_at(alloc, &spaces.tables, table),
        ExportDesc::Memory(memory) => limits_at(alloc, &spaces.memories, memory),
        ExportDesc::Global(global) => global_type_at(alloc, &spaces.globals, global),
    }
}

#[tactic(auto, unfolding(crate::specs::Modules::export_data))]
fn export_of(
    alloc: Global,
    tree: &Module<Global>,
    spaces: &Spaces<Global>,
    export: &Export<Global>,
) -> Result<Json, AllocError>
    requires { AreSpaces spaces.now (module_view tree.now) }
    ensures { IfOk result (λ v. view v ≡ export_data (module_view tree.now) (export_view export.now)) }
{
    let name = export.name.as_str();
    let kind = word_of_export(export.desc);
    let index = index_of_export(export.desc);
    let export_type = type_of_export(alloc, tree, spaces, export.desc)?;
    json!(in alloc; {"name": name, "kind": kind, "index": index, "type": export_type})
}

/// The exports of a module.
pub(crate) fn exports_of(
    alloc: Global,
    tree: &Module<Global>,
    spaces: &Spaces<Global>,
) -> Result<Json, AllocError>
    requires { AreSpaces spaces.now (module_view tree.now) }
    ensures { IfOk result (λ v. view v ≡ array_of (map (export_data (module_view tree.now)) (module_view tree.now).exports)) }
{
    let mut values = Vec::new(alloc);
    for export in &tree.exports {
        values.push(export_of(alloc, tree, spaces, export)?)?;
    }
    Ok(Json::from(values))
}
