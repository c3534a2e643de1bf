//! Types and operands in words.

use body_typing::operands::Operands;
use std::alloc::{AllocError, Allocator, Global};
use typing::takes::Takes;
use wtypes::{FuncType, PlainInstr, ValType};

/// The name of a type.
pub(crate) fn type_name(value_type: ValType) -> &'static str {
    match value_type {
        ValType::I32 => "i32",
        ValType::I64 => "i64",
    }
}

/// The name of what is known of an operand.
fn operand_name(operand: Option<ValType>) -> &'static str {
    match operand {
        Some(value_type) => type_name(value_type),
        None => "any",
    }
}

/// What a block with this result gives.
pub(crate) fn result_name(block: Option<ValType>) -> &'static str {
    match block {
        Some(value_type) => type_name(value_type),
        None => "nothing",
    }
}

/// Types with a space between them.
pub(crate) fn types_text(alloc: Global, types: &[ValType]) -> Result<String, AllocError> {
    let mut text = String::new(alloc);
    for value_type in types {
        if !text.is_empty() {
            text.push_str(" ")?;
        }
        text.push_str(type_name(*value_type))?;
    }
    if text.is_empty() {
        text.push_str("nothing")?;
    }
    Ok(text)
}

/// The operands on top of a stack, as many as these or all, the top last.
pub(crate) fn operands_text(
    alloc: Global,
    operands: &Operands<Global>,
    count: usize,
) -> Result<String, AllocError> {
    let mut text = String::new(alloc);
    let known = operands.known();
    let from = known.len().saturating_sub(count);
    for operand in &known[from..] {
        if !text.is_empty() {
            text.push_str(" ")?;
        }
        text.push_str(operand_name(*operand))?;
    }
    if text.is_empty() {
        text.push_str("nothing")?;
    }
    if operands.any_below() {
        text.push_str(", and below it any others, since the code before does not go on")?;
    }
    Ok(text)
}

/// A function's type as the text format spells it.
pub fn function_text<A: Allocator>(
    alloc: Global,
    func_type: &FuncType<A>,
) -> Result<String, AllocError> {
    let mut text = "(func".to_string(alloc)?;
    for param in &func_type.params {
        text.push_str(" (param ")?;
        text.push_str(type_name(*param))?;
        text.push_str(")")?;
    }
    for result in &func_type.results {
        text.push_str(" (result ")?;
        text.push_str(type_name(*result))?;
        text.push_str(")")?;
    }
    text.push_str(")")?;
    Ok(text)
}

/// How many operands are taken.
fn count_of(takes: &Takes) -> usize {
    match takes {
        Takes::Types(types) => types.len(),
        Takes::OneOfAny => 1,
        Takes::TwoAlike => 3,
        Takes::Nothing => 0,
    }
}

/// The operands that are taken.
fn takes_text(alloc: Global, takes: &Takes) -> Result<String, AllocError> {
    match takes {
        Takes::Types(types) => types_text(alloc, types),
        Takes::OneOfAny => "an operand of any type".to_string(alloc),
        Takes::TwoAlike => "two operands of one type and an i32".to_string(alloc),
        Takes::Nothing => "nothing".to_string(alloc),
    }
}

/// Whose types the operands of an instruction have, where its name does not say it.
fn owner_text(alloc: Global, op: PlainInstr) -> Result<String, AllocError> {
    match op {
        PlainInstr::Br(label) => format!(in alloc; ", the result of label {label}"),
        PlainInstr::BrIf(label) => {
            format!(in alloc; ", the result of label {label} and a condition")
        }
        PlainInstr::Return => ", the result of the function".to_string(alloc),
        PlainInstr::Call(func) => format!(in alloc; ", the parameters of function {func}"),
        PlainInstr::CallIndirect(index) => {
            format!(in alloc; ", the parameters of type {index} and an element's number")
        }
        PlainInstr::LocalSet(local) | PlainInstr::LocalTee(local) => {
            format!(in alloc; ", the type of local {local}")
        }
        PlainInstr::GlobalSet(global) => format!(in alloc; ", the type of global {global}"),
        _ => Ok(String::new(alloc)),
    }
}

/// What is said of an instruction that takes this and finds these operands.
fn found_text(
    alloc: Global,
    takes: &Takes,
    owner: &str,
    operands: &Operands<Global>,
) -> Result<String, AllocError> {
    let expected = takes_text(alloc, takes)?;
    let found = operands_text(alloc, operands, count_of(takes))?;
    format!(in alloc; ", which takes {expected}{owner}; found: {found}")
}

/// The same of an instruction that holds no other.
pub(crate) fn plain_text(
    alloc: Global,
    op: PlainInstr,
    takes: &Takes,
    operands: &Operands<Global>,
) -> Result<String, AllocError> {
    let owner = owner_text(alloc, op)?;
    found_text(alloc, takes, owner.as_str(), operands)
}

/// The same of a `br_table` with this default label.
pub(crate) fn table_text(
    alloc: Global,
    fallback: u32,
    takes: &Takes,
    operands: &Operands<Global>,
) -> Result<String, AllocError> {
    let owner = format!(in alloc; ", the result of its default label {fallback} and a number")?;
    found_text(alloc, takes, owner.as_str(), operands)
}

/// The same of an `if`.
pub(crate) fn if_text(
    alloc: Global,
    takes: &Takes,
    operands: &Operands<Global>,
) -> Result<String, AllocError> {
    found_text(alloc, takes, ", its condition", operands)
}

/// What is said of a number that is not below the count of what it names.
pub(crate) fn range_text(
    alloc: Global,
    thing: &str,
    number: u32,
    count: usize,
    counted: &str,
) -> Result<String, AllocError> {
    format!(in alloc; "; found: {thing} {number}; expected: below {count}, the number of {counted}")
}

/// What is said of the end of a sequence that has to leave this result alone.
pub(crate) fn end_text(
    alloc: Global,
    block: Option<ValType>,
    operands: &Operands<Global>,
) -> Result<String, AllocError> {
    let found = operands_text(alloc, operands, 8)?;
    let wanted = result_name(block);
    if operands.known().len() > 8 {
        return format!(in alloc; "; expected at its end: {wanted}; found: .. {found}");
    }
    format!(in alloc; "; expected at its end: {wanted}; found: {found}")
}
