//! The imports and the exports of a module.

ghost use Rattle.std.specs.Prelude.{◌≡◌, ◌++◌, IfOk, map, string_bytes};
ghost use Rattle.module_tree.specs.ModuleView.{func_type_view, import_desc_view, import_view, export_desc_view, export_view};
ghost use Rattle.module_tree.specs.Modules.{module_view};
ghost use Rattle.wblock_contents.specs.Lines.{numbered};
ghost use Rattle.wblock_contents.specs.ModuleText.{import_text, import_line, function_text, export_text, export_line, interface_text};

use crate::names::quoted;
use crate::types::{global_type_text_of, limits_text_of, type_text_at};
use body_typing::spaces::Spaces;
use module_tree::module::{Export, ExportDesc, Import, ImportDesc, Module};
use std::alloc::{AllocError, Global};
use wtypes::FuncType;

/// What an import is.
fn import_text_of(
    alloc: Global,
    types: &[FuncType<Global>],
    desc: ImportDesc,
) -> Result<String, AllocError>
    ensures { IfOk result (λ text. string_bytes text ≡ import_text (map func_type_view types.now) (import_desc_view desc)) }
{
    let text = match desc {
        ImportDesc::Func(index) => {
            let func_type = type_text_at(alloc, types, index)?;
            format!(in alloc; "func{func_type}")?
        }
        ImportDesc::Table(limits) => {
            let limits = limits_text_of(alloc, limits)?;
            format!(in alloc; "table{limits}")?
        }
        ImportDesc::Memory(limits) => {
            let limits = limits_text_of(alloc, limits)?;
            format!(in alloc; "memory{limits}")?
        }
        ImportDesc::Global(global_type) => {
            let global_type = global_type_text_of(alloc, global_type)?;
            format!(in alloc; "global {global_type}")?
        }
    };
    Ok(text)
}

/// The line of an import.
fn import_line_of(
    alloc: Global,
    types: &[FuncType<Global>],
    number: usize,
    import: &Import<Global>,
) -> Result<String, AllocError>
    ensures { IfOk result (λ line. string_bytes line ≡ import_line (map func_type_view types.now) number (import_view import.now)) }
{
    let from_module = quoted(alloc, import.from_module.as_str())?;
    let name = quoted(alloc, import.name.as_str())?;
    let text = import_text_of(alloc, types, import.desc)?;
    let line = format!(in alloc; "import {number} {from_module}.{name} {text}\n")?;
    Ok(line)
}

/// A line for each import.
fn import_lines_of(
    alloc: Global,
    types: &[FuncType<Global>],
    imports: &[Import<Global>],
) -> Result<String, AllocError>
    ensures { IfOk result (λ text. string_bytes text ≡ numbered (import_line (map func_type_view types.now)) 0 (map import_view imports.now)) }
{
    let mut text = String::new(alloc);
    let mut number: usize = 0;
    for import in imports {
        let line = import_line_of(alloc, types, number, import)?;
        text.push_str(line.as_str())?;
        number += 1;
    }
    Ok(text)
}

/// The type of the function of a number, by the type index of each.
fn function_text_of(
    alloc: Global,
    types: &[FuncType<Global>],
    indices: &[u32],
    func: u32,
) -> Result<String, AllocError>
    ensures { IfOk result (λ text. string_bytes text ≡ function_text (map func_type_view types.now) indices.now func) }
{
    match indices.get(func as usize) {
        Some(index) => type_text_at(alloc, types, *index),
        None => Ok(String::new(alloc)),
    }
}

/// What an export is.
fn export_text_of(
    alloc: Global,
    types: &[FuncType<Global>],
    indices: &[u32],
    desc: ExportDesc,
) -> Result<String, AllocError>
    ensures { IfOk result (λ text. string_bytes text ≡ export_text (map func_type_view types.now) indices.now (export_desc_view desc)) }
{
    let text = match desc {
        ExportDesc::Func(func) => {
            let func_type = function_text_of(alloc, types, indices, func)?;
            format!(in alloc; "func {func}{func_type}")?
        }
        ExportDesc::Table(table) => format!(in alloc; "table {table}")?,
        ExportDesc::Memory(memory) => format!(in alloc; "memory {memory}")?,
        ExportDesc::Global(global) => format!(in alloc; "global {global}")?,
    };
    Ok(text)
}

/// The line of an export.
fn export_line_of(
    alloc: Global,
    types: &[FuncType<Global>],
    indices: &[u32],
    number: usize,
    export: &Export<Global>,
) -> Result<String, AllocError>
    ensures { IfOk result (λ line. string_bytes line ≡ export_line (map func_type_view types.now) indices.now number (export_view export.now)) }
{
    let name = quoted(alloc, export.name.as_str())?;
    let text = export_text_of(alloc, types, indices, export.desc)?;
    let line = format!(in alloc; "export {number} {name} {text}\n")?;
    Ok(line)
}

/// A line for each export.
fn export_lines_of(
    alloc: Global,
    types: &[FuncType<Global>],
    indices: &[u32],
    exports: &[Export<Global>],
) -> Result<String, AllocError>
    ensures { IfOk result (λ text. string_bytes text ≡ numbered (export_line (map func_type_view types.now) indices.now) 0 (map export_view exports.now)) }
{
    let mut text = String::new(alloc);
    let mut number: usize = 0;
    for export in exports {
        let line = export_line_of(alloc, types, indices, number, export)?;
        text.push_str(line.as_str())?;
        number += 1;
    }
    Ok(text)
}

/// A line for each import, and then for each export.
pub(crate) fn interface_text_of(alloc: Global, tree: &Module<Global>) -> Result<String, AllocError>
    ensures { IfOk result (λ text. string_bytes text ≡ interface_text (module_view tree.now)) }
{
    let spaces = Spaces::of_module(&alloc, tree)?;
    let imports = import_lines_of(alloc, &tree.types, &tree.imports)?;
    let exports = export_lines_of(alloc, &tree.types, &spaces.funcs, &tree.exports)?;
    let text = format!(in alloc; "{imports}{exports}")?;
    Ok(text)
}
