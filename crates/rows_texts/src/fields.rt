//! The fields of a text.

use crate::flats::{put_bindings, put_flats, put_index, put_indices, put_results, put_type_use};
use crate::names::tree_of;
use crate::refused::Refused;
use crate::words::put_optional;
use hex::encode;
use std::alloc::{AllocError, Global};
use text_body::Index;
use text_tree::{
    BoundedField, Bounds, DataField, Desc, ElemField, ExportField, Field, FuncField, GlobalField,
    ImportField, TypeField,
};

/// Puts limits.
fn put_bounds(out: &mut String, bounds: &Bounds<'_>) -> Result<(), AllocError> {
    put_optional(out, " ", Some(bounds.min))?;
    put_optional(out, " to ", bounds.max)
}

/// Puts a type.
fn put_type(out: &mut String, field: &TypeField<'_, Global>) -> Result<(), AllocError> {
    out.push_str("type")?;
    put_optional(out, " ", field.name)?;
    put_bindings(out, "param", &field.params)?;
    put_results(out, &field.results)?;
    out.push('\n')
}

/// Puts what an import is.
fn put_desc(out: &mut String, desc: &Desc<'_, Global>) -> Result<(), AllocError> {
    match desc {
        Desc::Func(written) => {
            out.push_str(" func")?;
            put_type_use(out, written)
        }
        Desc::Table(bounds) => {
            out.push_str(" table")?;
            put_bounds(out, bounds)
        }
        Desc::Memory(bounds) => {
            out.push_str(" memory")?;
            put_bounds(out, bounds)
        }
        Desc::Global(global_type) => write!(out, " {global_type:?}"),
    }
}

/// Puts an import.
fn put_import(out: &mut String, field: &ImportField<'_, Global>) -> Result<(), AllocError> {
    let from = field.from_module.as_str();
    let item = field.item.as_str();
    write!(out, "import {from:?} {item:?}")?;
    put_optional(out, " ", field.name)?;
    put_desc(out, &field.desc)?;
    out.push('\n')
}

/// Puts a function, and a line for each of its instructions.
fn put_func(out: &mut String, field: &FuncField<'_, Global>) -> Result<(), AllocError> {
    out.push_str("func")?;
    put_optional(out, " ", field.name)?;
    for name in &field.exports {
        let name = name.as_str();
        write!(out, " (export {name:?})")?;
    }
    put_type_use(out, &field.written)?;
    put_bindings(out, "local", &field.locals)?;
    out.push('\n')?;
    put_flats(out, &field.body)
}

/// Puts a table or a memory.
fn put_bounded(out: &mut String, word: &str, field: &BoundedField<'_>) -> Result<(), AllocError> {
    out.push_str(word)?;
    put_optional(out, " ", field.name)?;
    put_bounds(out, &field.bounds)?;
    out.push('\n')
}

/// Puts a global, and a line for each instruction of its first value.
fn put_global(out: &mut String, field: &GlobalField<'_, Global>) -> Result<(), AllocError> {
    let global_type = field.global_type;
    out.push_str("global")?;
    put_optional(out, " ", field.name)?;
    writeln!(out, " {global_type:?}")?;
    put_flats(out, &field.init)
}

/// Puts an export.
fn put_export(out: &mut String, field: &ExportField<'_, Global>) -> Result<(), AllocError> {
    let item = field.item.as_str();
    let kind = field.kind;
    write!(out, "export {item:?} {kind:?}")?;
    put_index(out, field.index)?;
    out.push('\n')
}

/// Puts the start function.
fn put_start(out: &mut String, index: Index<'_>) -> Result<(), AllocError> {
    out.push_str("start")?;
    put_index(out, index)?;
    out.push('\n')
}

/// Puts an element segment, and a line for each instruction of its place.
fn put_elem(out: &mut String, field: &ElemField<'_, Global>) -> Result<(), AllocError> {
    out.push_str("elem")?;
    put_index(out, field.table)?;
    out.push_str(" of")?;
    put_indices(out, &field.funcs)?;
    out.push('\n')?;
    put_flats(out, &field.offset)
}

/// Puts a data segment, its bytes in hex, and a line for each instruction of its place.
fn put_data(
    alloc: Global,
    out: &mut String,
    field: &DataField<'_, Global>,
) -> Result<(), AllocError> {
    let digits = encode(alloc, &field.bytes)?;
    out.push_str("data")?;
    put_index(out, field.memory)?;
    let digits = digits.as_str();
    writeln!(out, " of {digits}")?;
    put_flats(out, &field.offset)
}

/// Puts a field.
fn put_field(alloc: Global, out: &mut String, field: &Field<'_, Global>) -> Result<(), AllocError> {
    match field {
        Field::Type(field) => put_type(out, field),
        Field::Import(field) => put_import(out, field),
        Field::Func(field) => put_func(out, field),
        Field::Table(field) => put_bounded(out, "table", field),
        Field::Memory(field) => put_bounded(out, "memory", field),
        Field::Global(field) => put_global(out, field),
        Field::Export(field) => put_export(out, field),
        Field::Start(index) => put_start(out, *index),
        Field::Elem(field) => put_elem(out, field),
        Field::Data(field) => put_data(alloc, out, field),
    }
}

/// A line for each field of a text, each behind which stand its instructions.
pub(crate) fn fields_of(alloc: Global, text: &str) -> Result<String, Refused> {
    let mut out = String::new(alloc);
    for field in &tree_of(alloc, text)?.fields {
        put_field(alloc, &mut out, field)?;
    }
    Ok(out)
}
