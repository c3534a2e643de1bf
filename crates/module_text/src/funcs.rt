//! Types and functions (Core Specification, 6.6.2 Types, 6.6.3 Type Uses, 6.6.5 Functions).

use crate::instrs::put_instrs;
use crate::page::Page;
use crate::refusal::TextRefusal;
use crate::strings::put_name;
use module_tree::module::Func;
use std::alloc::Allocator;
use wtypes::{FuncType, ValType};

/// The type of this number.
pub(crate) fn put_func_type<A: Allocator>(
    page: &mut Page<'_>,
    number: usize,
    func_type: &FuncType<A>,
) -> Result<(), TextRefusal> {
    page.next_line(1)?;
    page.put("(type (func")?;
    for param in &func_type.params {
        page.put(" ")?;
        page.put_typed("param", *param)?;
    }
    for found in &func_type.results {
        page.put(" ")?;
        page.put_typed("result", *found)?;
    }
    page.put("))")?;
    page.note("type ", number)
}

/// The use of a type by its number.
pub(crate) fn put_type_use(page: &mut Page<'_>, type_index: u32) -> Result<(), TextRefusal> {
    page.put(" (type ")?;
    page.put_number(type_index)?;
    page.put(")")
}

/// A parameter or a local in a line, with its number.
fn put_local(
    page: &mut Page<'_>,
    word: &str,
    value_type: ValType,
    number: usize,
) -> Result<(), TextRefusal> {
    page.next_line(2)?;
    page.put_typed(word, value_type)?;
    page.note("local ", number)
}

/// The parameters and results of a function's type.
fn put_signature<A: Allocator>(
    page: &mut Page<'_>,
    func_type: &FuncType<A>,
) -> Result<(), TextRefusal> {
    for (number, param) in func_type.params.iter().enumerate() {
        put_local(page, "param", *param, number)?;
    }
    for found in &func_type.results {
        page.next_line(2)?;
        page.put_typed("result", *found)?;
    }
    Ok(())
}

/// A comment behind the head of a function: its number, and the name that is told of it, if any.
pub(crate) fn note_function(page: &mut Page<'_>, number: usize) -> Result<(), TextRefusal> {
    page.note("function ", number)?;
    if let Some(name) = page.told_name(number) {
        page.put(" ")?;
        put_name(page, name)?;
    }
    Ok(())
}

/// The function of this number, imports counted first, of one of these types.
pub(crate) fn put_function<A: Allocator>(
    page: &mut Page<'_>,
    number: usize,
    types: &Vec<FuncType<A>, A>,
    func: &Func<A>,
) -> Result<(), TextRefusal> {
    page.next_line(1)?;
    page.put("(func")?;
    page.put_given_name(number)?;
    put_type_use(page, func.type_index)?;
    note_function(page, number)?;
    let mut params = 0;
    if let Some(func_type) = types.get(func.type_index as usize) {
        put_signature(page, func_type)?;
        params = func_type.params.len();
    }
    for (number, local) in func.locals.iter().enumerate() {
        put_local(page, "local", *local, number.saturating_add(params))?;
    }
    put_instrs(page, 2, &func.body)?;
    page.next_line(1)?;
    page.put(")")
}
