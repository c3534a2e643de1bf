// Random modules written as text, and read again.
use crate::assertions::equal;
use crate::both::encoded;
use assembler::assemble;
use module_text::text_of;
use module_tree::module::Module;
use spec_text::{OPERATORS, Operator};
use std::alloc::{AllocError, Global};
use std::process::Abort;
use std::test::Fail;

// The shortest spelling of the module that the text of this module names.
fn written_again(a: Global, tree: &Module<Global>) -> Result<Vec<u8>, Fail> {
    let text = text_of(a, tree, &[])?;
    let read = assemble(a, text.as_str())?;
    encoded(a, &read)
}

// What stands behind the name of an instruction.
fn operands_of(operator: Operator) -> &'static str {
    match operator {
        Operator::Br | Operator::BrIf | Operator::Call => " 4294967295",
        Operator::LocalGet | Operator::LocalSet | Operator::LocalTee => " 7",
        Operator::GlobalGet | Operator::GlobalSet => " 0",
        Operator::BrTable => " 1 2 3",
        Operator::CallIndirect => " (type 0)",
        Operator::Load(_) => " offset=4294967295 align=2147483648",
        Operator::Store(_) => " offset=1",
        Operator::Const(_) => " -2147483648",
        _ => "",
    }
}

// The instruction of this number in the table, with what stands behind its name.
fn put_operator(text: &mut String, number: usize) -> Result<(), AllocError> {
    let Some(entry) = OPERATORS.get(number % OPERATORS.len()) else {
        return Ok(());
    };
    text.push_str(" ")?;
    for character in entry.0 {
        text.push(*character as char)?;
    }
    text.push_str(operands_of(entry.1))
}

// What begins a block of this kind. What follows stands in it, or in its else part.
fn opening_of(kind: u32) -> &'static str {
    match kind % 5 {
        0 => " block",
        1 => " loop (result i32)",
        2 => " if (result i64)",
        3 => " if nop else",
        _ => " block (result i64)",
    }
}

// A function of 60 random instructions, some of which hold others.
fn random_text(a: Global, seed: u32) -> Result<String, AllocError> {
    let mut text = "(module (type (func)) (func (type 0)".to_string(a)?;
    let mut depth: u32 = 0;
    let mut state = seed;
    for _place in 0..60u32 {
        state = state.wrapping_mul(1664525).wrapping_add(1013904223);
        let drawn = state >> 12;
        match drawn % 8 {
            0 => {
                text.push_str(opening_of(drawn / 8))?;
                depth = depth.saturating_add(1);
            }
            1 if depth > 0 => {
                text.push_str(" end")?;
                depth -= 1;
            }
            _ => put_operator(&mut text, (drawn / 8) as usize)?,
        }
    }
    for _level in 0..depth {
        text.push_str(" end")?;
    }
    text.push_str("))")?;
    Ok(text)
}

// The module that a text names has a text that names it: the bytes are the same.
fn stays(rt: &impl Abort, a: Global, text: &str) -> Result<(), Fail> {
    let tree = assemble(a, text)?;
    let spelled = encoded(a, &tree)?;
    let again = written_again(a, &tree)?;
    equal(rt, &text, &again.as_slice(), &spelled.as_slice());
    Ok(())
}

#[test]
fn random_texts_name_their_modules(rt: HostRuntime) -> Result<(), Fail> {
    let a = rt.alloc();
    for seed in 0..200 {
        stays(&rt, a, random_text(a, seed)?.as_str())?;
    }
    Ok(())
}
