//! What is said of an item outside bodies that breaks a rule: what was expected, and what was found.

use crate::names::name_of;
use crate::texts::{function_text, type_name, types_text};
use body_typing::operators::type_of;
use body_typing::rule::Rule;
use body_typing::spaces::Spaces;
use module_tree::instr::Instr;
use module_tree::lone::lone_plain;
use module_tree::module::{DataSegment, Element, ExportDesc, GlobalType, ImportDesc, Module};
use std::alloc::{AllocError, Allocator, Global};
use std::str::from_utf8;
use wtypes::{Limits, PlainInstr, ValType};

/// The number of the type of an import that is a function.
fn imported_type<A: Allocator>(module: &Module<A>, item: usize) -> Option<u32> {
    match module.imports.get(item)?.desc {
        ImportDesc::Func(index) => Some(index),
        _ => None,
    }
}

/// What is said of an import or a function whose type is not there.
fn type_text<A: Allocator>(
    alloc: Global,
    module: &Module<A>,
    item: usize,
) -> Result<String, AllocError> {
    let count = module.types.len();
    if let Some(index) = imported_type(module, item) {
        if index as usize >= count {
            return format!(in alloc;
                "; found: import {item} of type {index}; expected: below {count}, the number of types"
            );
        }
    }
    match module.funcs.get(item) {
        Some(func) => {
            let index = func.type_index;
            format!(in alloc;
                "; found: function {item}, imports aside, of type {index}; expected: below {count}, the number of types"
            )
        }
        None => Ok(String::new(alloc)),
    }
}

/// What is said of a type with several results.
fn results_text<A: Allocator>(
    alloc: Global,
    module: &Module<A>,
    item: usize,
) -> Result<String, AllocError> {
    match module.types.get(item) {
        Some(func_type) => {
            let results = types_text(alloc, &func_type.results)?;
            format!(in alloc;
                "; found: type {item} with the results {results}; expected: one result or none, as clang writes with -mno-multivalue"
            )
        }
        None => Ok(String::new(alloc)),
    }
}

/// What is said of a second table or memory.
fn second_text(alloc: Global, spaces: &Spaces<Global>) -> Result<String, AllocError> {
    let tables = spaces.tables.len();
    let memories = spaces.memories.len();
    format!(in alloc;
        "; found: tables {tables}, memories {memories}, imports among them; expected: one of each at most"
    )
}

/// Whether these limits break their rule.
fn are_broken(limits: Limits, is_memory: bool) -> bool {
    let most = limits.max.unwrap_or(limits.min);
    most < limits.min || (is_memory && (limits.min > 65_536 || most > 65_536))
}

/// What is said of limits that break their rule.
fn broken_text(alloc: Global, limits: Limits) -> Result<String, AllocError> {
    let min = limits.min;
    match limits.max {
        Some(max) => format!(in alloc;
            "; found: a minimum of {min} and a maximum of {max}; expected: a minimum that is not above the maximum, and of a memory 65536 at most"
        ),
        None => format!(in alloc;
            "; found: a minimum of {min}; expected: of a memory 65536 at most"
        ),
    }
}

/// The limits of an import that breaks their rule.
fn broken_import<A: Allocator>(module: &Module<A>, item: usize) -> Option<Limits> {
    match module.imports.get(item)?.desc {
        ImportDesc::Table(limits) if are_broken(limits, false) => Some(limits),
        ImportDesc::Memory(limits) if are_broken(limits, true) => Some(limits),
        _ => None,
    }
}

/// The limits of this number in a list, if they break their rule.
fn broken_in<A: Allocator>(all: &Vec<Limits, A>, item: usize, is_memory: bool) -> Option<Limits> {
    let limits = *all.get(item)?;
    if are_broken(limits, is_memory) {
        return Some(limits);
    }
    None
}

/// What is said of an import, a table or a memory whose limits break their rule.
fn limits_text<A: Allocator>(
    alloc: Global,
    module: &Module<A>,
    item: usize,
) -> Result<String, AllocError> {
    if let Some(limits) = broken_import(module, item) {
        return broken_text(alloc, limits);
    }
    if let Some(limits) = broken_in(&module.tables, item, false) {
        return broken_text(alloc, limits);
    }
    match broken_in(&module.memories, item, true) {
        Some(limits) => broken_text(alloc, limits),
        None => Ok(String::new(alloc)),
    }
}

/// The name of an instruction, by the tables of the text format.
fn instr_name<A: Allocator>(instr: &Instr<A>) -> Option<&'static str> {
    from_utf8(name_of(instr)?).ok()
}

/// An expression in a few words.
fn expression_text<A: Allocator>(
    alloc: Global,
    expression: &Vec<Instr<A>, A>,
) -> Result<String, AllocError> {
    let count = expression.len();
    if count != 1 {
        return format!(in alloc; "{count} instructions");
    }
    match instr_name(&expression[0]) {
        Some(name) => format!(in alloc; "`{name}`"),
        None => "an instruction".to_string(alloc),
    }
}

/// What is said of an expression that is not constant, or not of this type.
fn constant_text<A: Allocator>(
    alloc: Global,
    what: &str,
    expression: &Vec<Instr<A>, A>,
    wanted: ValType,
) -> Result<String, AllocError> {
    let found = expression_text(alloc, expression)?;
    let wanted = type_name(wanted);
    format!(in alloc;
        "; found: {what} by {found}; expected: by one `{wanted}.const` or the `global.get` of an imported constant global that is {wanted}"
    )
}

/// Whether an expression is a constant of this type.
fn is_constant<A: Allocator>(
    imported: &[GlobalType],
    expression: &Vec<Instr<A>, A>,
    wanted: ValType,
) -> bool {
    match lone_plain(expression) {
        Some(PlainInstr::Const(value)) => type_of(value) == wanted,
        Some(PlainInstr::GlobalGet(index)) => match imported.get(index as usize) {
            Some(found) => !found.is_mutable && found.value_type == wanted,
            None => false,
        },
        _ => false,
    }
}

/// What is said of a global's expression.
fn global_text<A: Allocator>(
    alloc: Global,
    module: &Module<A>,
    item: usize,
) -> Result<String, AllocError> {
    match module.globals.get(item) {
        Some(global) => {
            constant_text(
                alloc,
                "it is set",
                &global.init,
                global.global_type.value_type,
            )
        }
        None => Ok(String::new(alloc)),
    }
}

/// What is said of an export that is not there.
fn export_text<A: Allocator>(
    alloc: Global,
    module: &Module<A>,
    spaces: &Spaces<Global>,
    item: usize,
) -> Result<String, AllocError> {
    let Some(export) = module.exports.get(item) else {
        return Ok(String::new(alloc));
    };
    let (thing, index, count) = match export.desc {
        ExportDesc::Func(index) => ("function", index, spaces.funcs.len()),
        ExportDesc::Table(index) => ("table", index, spaces.tables.len()),
        ExportDesc::Memory(index) => ("memory", index, spaces.memories.len()),
        ExportDesc::Global(index) => ("global", index, spaces.globals.len()),
    };
    format!(in alloc;
        "; found: {thing} {index}; expected: below {count}, as many are there, imports first"
    )
}

/// What is said of the start function.
fn start_text<A: Allocator>(
    alloc: Global,
    module: &Module<A>,
    spaces: &Spaces<Global>,
) -> Result<String, AllocError> {
    let Some(start) = module.start else {
        return Ok(String::new(alloc));
    };
    let count = spaces.funcs.len();
    let Some(index) = spaces.funcs.get(start as usize) else {
        return format!(in alloc;
            "; found: function {start}; expected: below {count}, the number of functions, imports first"
        );
    };
    match module.types.get(*index as usize) {
        Some(func_type) => {
            let found = function_text(alloc, func_type)?;
            format!(in alloc; "; found: function {start}, {found}; expected: (func)")
        }
        None => Ok(String::new(alloc)),
    }
}

/// What is said of an index of a table or a memory that is not there.
fn room_text(alloc: Global, thing: &str, index: u32, count: usize) -> Result<String, AllocError> {
    format!(in alloc; "; found: {thing} {index}; expected: below {count}, as many are there")
}

/// What is said of an element segment.
fn element_text<A: Allocator>(
    alloc: Global,
    spaces: &Spaces<Global>,
    imported: &[GlobalType],
    element: &Element<A>,
) -> Result<String, AllocError> {
    let tables = spaces.tables.len();
    if element.table as usize >= tables {
        return room_text(alloc, "table", element.table, tables);
    }
    if !is_constant(imported, &element.offset, ValType::I32) {
        return constant_text(alloc, "its offset", &element.offset, ValType::I32);
    }
    let count = spaces.funcs.len();
    for func in &element.funcs {
        if *func as usize >= count {
            return format!(in alloc;
                "; found: function {func}; expected: below {count}, the number of functions, imports first"
            );
        }
    }
    Ok(String::new(alloc))
}

/// What is said of a data segment.
fn data_text<A: Allocator>(
    alloc: Global,
    spaces: &Spaces<Global>,
    imported: &[GlobalType],
    segment: &DataSegment<A>,
) -> Result<String, AllocError> {
    let memories = spaces.memories.len();
    if segment.memory as usize >= memories {
        return room_text(alloc, "memory", segment.memory, memories);
    }
    if !is_constant(imported, &segment.offset, ValType::I32) {
        return constant_text(alloc, "its offset", &segment.offset, ValType::I32);
    }
    Ok(String::new(alloc))
}

/// What is said of the segment of this number.
fn segment_text<A: Allocator>(
    alloc: Global,
    module: &Module<A>,
    spaces: &Spaces<Global>,
    item: usize,
    is_element: bool,
) -> Result<String, AllocError> {
    let imported = match spaces.globals.get(..spaces.imported_globals) {
        Some(imported) => imported,
        None => &[],
    };
    if is_element {
        return match module.elements.get(item) {
            Some(element) => element_text(alloc, spaces, imported, element),
            None => Ok(String::new(alloc)),
        };
    }
    match module.datas.get(item) {
        Some(segment) => data_text(alloc, spaces, imported, segment),
        None => Ok(String::new(alloc)),
    }
}

/// What is said of an item outside bodies that breaks a rule, the one of this number in the list at fault.
pub fn item_text<A: Allocator>(
    alloc: Global,
    module: &Module<A>,
    rule: Rule,
    item: u32,
) -> Result<String, AllocError> {
    let item = item as usize;
    let spaces = Spaces::of_module(&alloc, module)?;
    match rule {
        Rule::TypeIndex => type_text(alloc, module, item),
        Rule::SeveralResults => results_text(alloc, module, item),
        Rule::SecondOne => second_text(alloc, &spaces),
        Rule::SizeLimits => limits_text(alloc, module, item),
        Rule::GlobalInit => global_text(alloc, module, item),
        Rule::ExportName => "; expected: a name that no export before it has".to_string(alloc),
        Rule::ExportIndex => export_text(alloc, module, &spaces, item),
        Rule::StartFunction => start_text(alloc, module, &spaces),
        Rule::ElementSegment => segment_text(alloc, module, &spaces, item, true),
        Rule::DataSegment => segment_text(alloc, module, &spaces, item, false),
        _ => Ok(String::new(alloc)),
    }
}
