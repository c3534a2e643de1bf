//! The parts of a module that fields make.

use crate::instrs::put_instrs;
use crate::names::{spaces_of, tree_of};
use crate::refused::Refused;
use assembler::{Parts, parts_of_text};
use hex::encode;
use module_tree::module::{DataSegment, Element, Export, Func, Import};
use std::alloc::{AllocError, Global};
use text_fields::{Part, part_of};
use wtypes::Limits;

/// Puts an import.
fn put_import(out: &mut String, import: &Import<Global>) -> Result<(), AllocError> {
    let from = import.from_module.as_str();
    let name = import.name.as_str();
    let desc = import.desc;
    writeln!(out, "import {from:?} {name:?} {desc:?}")
}

/// Puts a function, and its instructions.
fn put_func(out: &mut String, func: &Func<Global>) -> Result<(), AllocError> {
    let index = func.type_index;
    let locals = func.locals.as_slice();
    writeln!(out, "func of type {index} {locals:?}")?;
    put_instrs(out, &func.body)
}

/// Puts limits.
fn put_limits(out: &mut String, word: &str, limits: Limits) -> Result<(), AllocError> {
    writeln!(out, "{word} {limits:?}")
}

/// Puts a global, and the instructions of its first value.
fn put_global(
    out: &mut String,
    global: &module_tree::module::Global<Global>,
) -> Result<(), AllocError> {
    let global_type = global.global_type;
    writeln!(out, "global {global_type:?}")?;
    put_instrs(out, &global.init)
}

/// Puts an export.
fn put_export(out: &mut String, export: &Export<Global>) -> Result<(), AllocError> {
    let name = export.name.as_str();
    let desc = export.desc;
    writeln!(out, "export {name:?} {desc:?}")
}

/// Puts exports.
fn put_exports(out: &mut String, exports: &[Export<Global>]) -> Result<(), AllocError> {
    for export in exports {
        put_export(out, export)?;
    }
    Ok(())
}

/// Puts an element segment, and the instructions of its place.
fn put_element(out: &mut String, element: &Element<Global>) -> Result<(), AllocError> {
    let table = element.table;
    let funcs = element.funcs.as_slice();
    writeln!(out, "element {table} {funcs:?}")?;
    put_instrs(out, &element.offset)
}

/// Puts a data segment, its bytes in hex, and the instructions of its place.
fn put_data(
    alloc: Global,
    out: &mut String,
    segment: &DataSegment<Global>,
) -> Result<(), AllocError> {
    let memory = segment.memory;
    let digits = encode(alloc, &segment.bytes)?;
    let digits = digits.as_str();
    writeln!(out, "data {memory} {digits}")?;
    put_instrs(out, &segment.offset)
}

/// Puts what a field makes.
fn put_part(alloc: Global, out: &mut String, part: &Part<Global>) -> Result<(), AllocError> {
    match part {
        Part::Nothing => out.push_str("nothing\n"),
        Part::Import(import) => put_import(out, import),
        Part::Func(func, exports) => {
            put_func(out, func)?;
            put_exports(out, exports)
        }
        Part::Table(limits) => put_limits(out, "table", *limits),
        Part::Memory(limits) => put_limits(out, "memory", *limits),
        Part::Global(global) => put_global(out, global),
        Part::Export(export) => put_export(out, export),
        Part::Start(number) => writeln!(out, "start {number}"),
        Part::Element(element) => put_element(out, element),
        Part::Data(segment) => put_data(alloc, out, segment),
    }
}

/// What each field of a text makes, each function with the number 7.
pub(crate) fn field_parts(alloc: Global, text: &str) -> Result<String, Refused> {
    let tree = tree_of(alloc, text)?;
    let spaces = spaces_of(alloc, text)?;
    let mut out = String::new(alloc);
    for field in &tree.fields {
        let part = part_of(&alloc, &spaces, field, 7)?;
        put_part(alloc, &mut out, &part)?;
    }
    Ok(out)
}

/// Puts the imports, the functions, the tables and the memories.
fn put_first(out: &mut String, parts: &Parts<Global>) -> Result<(), AllocError> {
    for import in &parts.imports {
        put_import(out, import)?;
    }
    for func in &parts.funcs {
        put_func(out, func)?;
    }
    for limits in &parts.tables {
        put_limits(out, "table", *limits)?;
    }
    for limits in &parts.memories {
        put_limits(out, "memory", *limits)?;
    }
    Ok(())
}

/// Puts the globals, the exports, the start function and the segments.
fn put_others(alloc: Global, out: &mut String, parts: &Parts<Global>) -> Result<(), AllocError> {
    for global in &parts.globals {
        put_global(out, global)?;
    }
    put_exports(out, &parts.exports)?;
    let start = parts.start;
    writeln!(out, "start {start:?}")?;
    for element in &parts.elements {
        put_element(out, element)?;
    }
    for segment in &parts.datas {
        put_data(alloc, out, segment)?;
    }
    Ok(())
}

/// The parts of a text, each list from its last to its first.
pub(crate) fn text_parts(alloc: Global, text: &str) -> Result<String, Refused> {
    let tree = tree_of(alloc, text)?;
    let spaces = spaces_of(alloc, text)?;
    let parts = parts_of_text(&alloc, &spaces, &tree)?;
    let mut out = String::new(alloc);
    put_first(&mut out, &parts)?;
    put_others(alloc, &mut out, &parts)?;
    Ok(out)
}
