//! What is said of an instruction that breaks a rule: what was expected, and what was found.

use crate::behind::operands_behind;
use crate::texts::{end_text, if_text, plain_text, range_text, result_name, table_text};
use body_typing::lookup::label_at;
use body_typing::operands::Operands;
use body_typing::rule::Rule;
use body_typing::scope::Scope;
use module_tree::instr::Instr;
use module_tree::width::{load_width, store_width};
use std::alloc::{AllocError, Allocator, Global};
use typing::takes::takes_of;
use wtypes::{PlainInstr, ValType};

/// What an instruction names that is not there, by its number.
fn index_text<A: Allocator>(
    alloc: Global,
    scope: &Scope<A, Global>,
    labels: &Vec<Option<ValType>>,
    op: PlainInstr,
) -> Result<String, AllocError> {
    match op {
        PlainInstr::Br(label) | PlainInstr::BrIf(label) => label_text(alloc, labels, label),
        PlainInstr::Call(func) => {
            let count = scope.spaces.funcs.len();
            range_text(alloc, "function", func, count, "functions, imports first")
        }
        PlainInstr::CallIndirect(index) => {
            range_text(alloc, "type", index, scope.types.len(), "types")
        }
        PlainInstr::LocalGet(local) | PlainInstr::LocalSet(local) | PlainInstr::LocalTee(local) => {
            let count = scope.own.params.len().saturating_add(scope.locals.len());
            range_text(alloc, "local", local, count, "locals, parameters first")
        }
        PlainInstr::GlobalGet(global) | PlainInstr::GlobalSet(global) => {
            global_text(alloc, scope, global)
        }
        _ => Ok(String::new(alloc)),
    }
}

/// What is said of a label that is not there.
fn label_text(
    alloc: Global,
    labels: &Vec<Option<ValType>>,
    label: u32,
) -> Result<String, AllocError> {
    let counted = "blocks around it, the body being the last";
    range_text(alloc, "label", label, labels.len(), counted)
}

/// What is said of a global that is not there, or that is constant.
fn global_text<A: Allocator>(
    alloc: Global,
    scope: &Scope<A, Global>,
    global: u32,
) -> Result<String, AllocError> {
    let count = scope.spaces.globals.len();
    if (global as usize) < count {
        return format!(in alloc;
            "; found: global {global}, which is constant; expected: one declared with `mut`"
        );
    }
    range_text(alloc, "global", global, count, "globals, imports first")
}

/// The first of these labels that is not there.
fn first_unknown(labels: &Vec<Option<ValType>>, targets: &[u32], fallback: u32) -> u32 {
    for target in targets {
        if *target as usize >= labels.len() {
            return *target;
        }
    }
    fallback
}

/// The first of these labels that is not of a block with this result, and the result of its block.
fn first_other(
    labels: &Vec<Option<ValType>>,
    targets: &[u32],
    block: Option<ValType>,
) -> Option<(u32, Option<ValType>)> {
    for target in targets {
        if let Some(found) = label_at(labels, *target) {
            if found != block {
                return Some((*target, found));
            }
        }
    }
    None
}

/// What is said of a `br_table` whose labels differ.
fn labels_text(
    alloc: Global,
    labels: &Vec<Option<ValType>>,
    targets: &[u32],
    fallback: u32,
) -> Result<String, AllocError> {
    let Some(block) = label_at(labels, fallback) else {
        return Ok(String::new(alloc));
    };
    let Some((target, found)) = first_other(labels, targets, block) else {
        return Ok(String::new(alloc));
    };
    let wanted = result_name(block);
    let found = result_name(found);
    format!(in alloc;
        "; expected of each label: {wanted}, as of its default label {fallback}; found: {found}, of label {target}"
    )
}

/// What is said of an instruction for which nothing is there.
fn nothing_text(alloc: Global, op: PlainInstr) -> Result<String, AllocError> {
    match op {
        PlainInstr::CallIndirect(_) => {
            "; found: no table; expected: one, as (table 1 funcref)".to_string(alloc)
        }
        _ => "; found: no memory; expected: one, as (memory 1)".to_string(alloc),
    }
}

/// What is said of an alignment that is too large.
fn alignment_text(alloc: Global, op: PlainInstr) -> Result<String, AllocError> {
    let (align, width) = match op {
        PlainInstr::Load(op, align, _) => (align, load_width(op)),
        PlainInstr::Store(op, align, _) => (align, store_width(op)),
        _ => return Ok(String::new(alloc)),
    };
    format!(in alloc;
        "; found: an alignment of 2^{align} bytes; expected: at most {width}, its width in bytes"
    )
}

/// What is said of an instruction that holds no other.
fn plain_fault<A: Allocator>(
    alloc: Global,
    scope: &Scope<A, Global>,
    labels: &Vec<Option<ValType>>,
    before: &[Instr<A>],
    instr: &Instr<A>,
    op: PlainInstr,
    rule: Rule,
) -> Result<String, AllocError> {
    match rule {
        Rule::TypeIndex
        | Rule::LocalIndex
        | Rule::GlobalIndex
        | Rule::CallIndex
        | Rule::LabelIndex => { index_text(alloc, scope, labels, op) }
        Rule::NothingThere => nothing_text(alloc, op),
        Rule::Alignment => alignment_text(alloc, op),
        Rule::Operand => {
            let Some(found) = operands_behind(alloc, scope, labels, before)? else {
                return Ok(String::new(alloc));
            };
            let takes = takes_of(alloc, scope, labels, instr)?;
            plain_text(alloc, op, &takes, &found)
        }
        _ => Ok(String::new(alloc)),
    }
}

/// What is said of a `br_table`.
fn table_fault<A: Allocator>(
    alloc: Global,
    scope: &Scope<A, Global>,
    labels: &Vec<Option<ValType>>,
    before: &[Instr<A>],
    instr: &Instr<A>,
    targets: &[u32],
    fallback: u32,
    rule: Rule,
) -> Result<String, AllocError> {
    match rule {
        Rule::LabelIndex => label_text(alloc, labels, first_unknown(labels, targets, fallback)),
        Rule::TableLabels => labels_text(alloc, labels, targets, fallback),
        Rule::Operand => {
            let Some(found) = operands_behind(alloc, scope, labels, before)? else {
                return Ok(String::new(alloc));
            };
            let takes = takes_of(alloc, scope, labels, instr)?;
            table_text(alloc, fallback, &takes, &found)
        }
        _ => Ok(String::new(alloc)),
    }
}

/// What a block's body leaves, which a branch to the block leaves with the label's type.
fn left_in<A: Allocator>(
    alloc: Global,
    scope: &Scope<A, Global>,
    labels: &Vec<Option<ValType>>,
    label: Option<ValType>,
    body: &[Instr<A>],
) -> Result<Option<Operands<Global>>, AllocError> {
    let mut inner = Vec::from_slice(alloc, labels)?;
    inner.push(label)?;
    operands_behind(alloc, scope, &inner, body)
}

/// What is said of the end of a block's body.
fn block_end<A: Allocator>(
    alloc: Global,
    scope: &Scope<A, Global>,
    labels: &Vec<Option<ValType>>,
    label: Option<ValType>,
    block: Option<ValType>,
    body: &[Instr<A>],
) -> Result<String, AllocError> {
    match left_in(alloc, scope, labels, label, body)? {
        None => Ok(String::new(alloc)),
        Some(left) => end_text(alloc, block, &left),
    }
}

/// What is said of the end of a part of an `if`.
fn if_end<A: Allocator>(
    alloc: Global,
    scope: &Scope<A, Global>,
    labels: &Vec<Option<ValType>>,
    block: Option<ValType>,
    then_body: &[Instr<A>],
    else_body: &[Instr<A>],
) -> Result<String, AllocError> {
    let Some(left) = left_in(alloc, scope, labels, block, then_body)? else {
        return Ok(String::new(alloc));
    };
    let end = end_text(alloc, block, &left)?;
    if !left.is_result(block) {
        return format!(in alloc; ", of which this is the `then` part{end}");
    }
    let end = block_end(alloc, scope, labels, block, block, else_body)?;
    format!(in alloc; ", of which this is the `else` part{end}")
}

/// What is said of an `if`.
fn if_fault<A: Allocator>(
    alloc: Global,
    scope: &Scope<A, Global>,
    labels: &Vec<Option<ValType>>,
    before: &[Instr<A>],
    instr: &Instr<A>,
    block: Option<ValType>,
    rule: Rule,
) -> Result<String, AllocError> {
    match rule {
        Rule::EmptyElse => {
            let wanted = result_name(block);
            format!(in alloc;
                "; expected: an `else` part that leaves {wanted}, as the `then` part; found: none"
            )
        }
        Rule::Operand => {
            let Some(found) = operands_behind(alloc, scope, labels, before)? else {
                return Ok(String::new(alloc));
            };
            let takes = takes_of(alloc, scope, labels, instr)?;
            if_text(alloc, &takes, &found)
        }
        _ => Ok(String::new(alloc)),
    }
}

/// What is said of an instruction that breaks this rule behind others of its sequence, in blocks with these labels, the innermost last.
pub(crate) fn fault_text<A: Allocator>(
    alloc: Global,
    scope: &Scope<A, Global>,
    labels: &Vec<Option<ValType>>,
    before: &[Instr<A>],
    instr: &Instr<A>,
    rule: Rule,
) -> Result<String, AllocError> {
    match instr {
        Instr::Plain(_, op) => plain_fault(alloc, scope, labels, before, instr, *op, rule),
        Instr::BrTable(_, targets, fallback) => {
            table_fault(
                alloc, scope, labels, before, instr, targets, *fallback, rule,
            )
        }
        Instr::Block(_, block, body) => { block_end(alloc, scope, labels, *block, *block, body) }
        Instr::Loop(_, block, body) => block_end(alloc, scope, labels, None, *block, body),
        Instr::If(_, block, then_body, else_body) => {
            if rule == Rule::EndOperands {
                return if_end(alloc, scope, labels, *block, then_body, else_body);
            }
            if_fault(alloc, scope, labels, before, instr, *block, rule)
        }
    }
}

/// What is said of the end of a body that has to leave this result.
pub(crate) fn body_end<A: Allocator>(
    alloc: Global,
    scope: &Scope<A, Global>,
    labels: &Vec<Option<ValType>>,
    body: &[Instr<A>],
) -> Result<String, AllocError> {
    match operands_behind(alloc, scope, labels, body)? {
        None => Ok(String::new(alloc)),
        Some(left) => end_text(alloc, scope.result, &left),
    }
}
