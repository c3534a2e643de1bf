//! The fields of a module (Core Specification, 6.6 Modules).

use crate::funcs::{note_function, put_func_type, put_function, put_type_use};
use crate::instrs::put_expression;
use crate::names::FuncName;
use crate::page::Page;
use crate::refusal::TextRefusal;
use crate::strings::{put_name, put_rows};
use module_tree::module::{
    DataSegment, Element, Export, ExportDesc, Global, GlobalType, Import, ImportDesc, Module,
};
use std::alloc;
use std::alloc::Allocator;
use wtypes::Limits;

/// The most functions of an element segment in one line.
const ROW: usize = 16;

/// A field of one number behind its word.
fn put_numbered(page: &mut Page<'_>, word: &str, number: u32) -> Result<(), TextRefusal> {
    page.put("(")?;
    page.put(word)?;
    page.put(" ")?;
    page.put_number(number)?;
    page.put(")")
}

/// A table or a memory: limits behind its word, and what is in it.
fn put_limited(
    page: &mut Page<'_>,
    word: &str,
    limits: Limits,
    held: &str,
) -> Result<(), TextRefusal> {
    page.put("(")?;
    page.put(word)?;
    page.put(" ")?;
    page.put_limits(limits)?;
    page.put(held)?;
    page.put(")")
}

/// The type of a global, with a space in front.
fn put_global_type(page: &mut Page<'_>, global: GlobalType) -> Result<(), TextRefusal> {
    page.put(" ")?;
    if global.is_mutable {
        page.put_typed("mut", global.value_type)
    } else {
        page.put_type(global.value_type)
    }
}

/// Numbers of what is defined so far, in each index space that comments count.
#[derive(Clone, Copy)]
struct Numbers {
    funcs: usize,
    globals: usize,
}

/// An import, with its number where it is a function or a global.
fn put_import<A: Allocator>(
    page: &mut Page<'_>,
    numbers: &mut Numbers,
    import: &Import<A>,
) -> Result<(), TextRefusal> {
    page.next_line(1)?;
    page.put("(import ")?;
    put_name(page, import.from_module.as_str())?;
    page.put(" ")?;
    put_name(page, import.name.as_str())?;
    page.put(" ")?;
    match import.desc {
        ImportDesc::Func(type_index) => {
            page.put("(func")?;
            page.put_given_name(numbers.funcs)?;
            put_type_use(page, type_index)?;
            page.put("))")?;
            note_function(page, numbers.funcs)?;
            numbers.funcs = numbers.funcs.saturating_add(1);
            Ok(())
        }
        ImportDesc::Table(limits) => {
            put_limited(page, "table", limits, " funcref")?;
            page.put(")")
        }
        ImportDesc::Memory(limits) => {
            put_limited(page, "memory", limits, "")?;
            page.put(")")
        }
        ImportDesc::Global(global) => {
            page.put("(global")?;
            put_global_type(page, global)?;
            page.put("))")?;
            page.note("global ", numbers.globals)?;
            numbers.globals = numbers.globals.saturating_add(1);
            Ok(())
        }
    }
}

/// The global of this number.
fn put_global<A: Allocator>(
    page: &mut Page<'_>,
    number: usize,
    global: &Global<A>,
) -> Result<(), TextRefusal> {
    page.next_line(1)?;
    page.put("(global")?;
    put_global_type(page, global.global_type)?;
    put_expression(page, 2, &global.init)?;
    page.put(")")?;
    page.note("global ", number)
}

/// An export.
fn put_export<A: Allocator>(page: &mut Page<'_>, export: &Export<A>) -> Result<(), TextRefusal> {
    page.next_line(1)?;
    page.put("(export ")?;
    put_name(page, export.name.as_str())?;
    page.put(" ")?;
    match export.desc {
        ExportDesc::Func(func) => {
            page.put("(func")?;
            page.put_func(func)?;
            page.put(")")?;
        }
        ExportDesc::Table(table) => put_numbered(page, "table", table)?,
        ExportDesc::Memory(memory) => put_numbered(page, "memory", memory)?,
        ExportDesc::Global(global) => put_numbered(page, "global", global)?,
    }
    page.put(")")
}

/// An element segment.
fn put_element<A: Allocator>(page: &mut Page<'_>, element: &Element<A>) -> Result<(), TextRefusal> {
    page.next_line(1)?;
    page.put("(elem ")?;
    page.put_number(element.table)?;
    page.put(" (offset")?;
    put_expression(page, 2, &element.offset)?;
    page.put(")")?;
    for (place, func) in element.funcs.iter().enumerate() {
        if place % ROW == 0 {
            // A function stands behind a space, the fourth here.
            page.put("\n   ")?;
        }
        page.put_func(*func)?;
    }
    page.put(")")
}

/// A data segment.
fn put_data<A: Allocator>(page: &mut Page<'_>, data: &DataSegment<A>) -> Result<(), TextRefusal> {
    page.next_line(1)?;
    page.put("(data ")?;
    page.put_number(data.memory)?;
    page.put(" (offset")?;
    put_expression(page, 2, &data.offset)?;
    page.put(")")?;
    put_rows(page, 2, &data.bytes)?;
    page.put(")")
}

/// Types and imports.
fn put_head<A: Allocator>(
    page: &mut Page<'_>,
    module: &Module<A>,
    numbers: &mut Numbers,
) -> Result<(), TextRefusal> {
    for (number, func_type) in module.types.iter().enumerate() {
        put_func_type(page, number, func_type)?;
    }
    for import in &module.imports {
        put_import(page, numbers, import)?;
    }
    Ok(())
}

/// Functions, tables, memories and globals.
fn put_middle<A: Allocator>(
    page: &mut Page<'_>,
    module: &Module<A>,
    numbers: Numbers,
) -> Result<(), TextRefusal> {
    for (place, func) in module.funcs.iter().enumerate() {
        put_function(
            page,
            numbers.funcs.saturating_add(place),
            &module.types,
            func,
        )?;
    }
    for table in &module.tables {
        page.next_line(1)?;
        put_limited(page, "table", *table, " funcref")?;
    }
    for memory in &module.memories {
        page.next_line(1)?;
        put_limited(page, "memory", *memory, "")?;
    }
    for (place, global) in module.globals.iter().enumerate() {
        put_global(page, numbers.globals.saturating_add(place), global)?;
    }
    Ok(())
}

/// Exports, the start function and segments.
fn put_tail<A: Allocator>(page: &mut Page<'_>, module: &Module<A>) -> Result<(), TextRefusal> {
    for export in &module.exports {
        put_export(page, export)?;
    }
    if let Some(start) = module.start {
        page.next_line(1)?;
        page.put("(start")?;
        page.put_func(start)?;
        page.put(")")?;
    }
    for element in &module.elements {
        put_element(page, element)?;
    }
    for data in &module.datas {
        put_data(page, data)?;
    }
    Ok(())
}

/// The text of a module with these names of its functions, and these in comments.
pub(crate) fn module_text<'m, A: Allocator>(
    alloc: alloc::Global,
    module: &Module<A>,
    names: Vec<FuncName<'m>>,
    told: &'m [(u32, &'m str)],
) -> Result<String, TextRefusal> {
    let mut page = Page::new(alloc, names, told);
    let mut numbers = Numbers {
        funcs: 0,
        globals: 0,
    };
    page.put("(module")?;
    put_head(&mut page, module, &mut numbers)?;
    put_middle(&mut page, module, numbers)?;
    put_tail(&mut page, module)?;
    page.put("\n)\n")?;
    Ok(page.into_text())
}
