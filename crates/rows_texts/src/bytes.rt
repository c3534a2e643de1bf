//! What bytes spell.

use crate::put_instrs;
use crate::refused::Refused;
use encoder::encode;
use expr_reader::read_expr;
use loader::load;
use module_text::text_of;
use std::alloc::Global;

/// How many functions the module of these bytes has, or why they spell none.
pub(crate) fn loaded(alloc: Global, bytes: &[u8]) -> Result<String, Refused> {
    let functions = load(alloc, bytes)?.funcs.len();
    Ok(format!(in alloc; "functions {functions}\n")?)
}

/// The module of these bytes, as text.
pub(crate) fn module(alloc: Global, bytes: &[u8]) -> Result<String, Refused> {
    Ok(text_of(alloc, &load(alloc, bytes)?, &[])?)
}

/// The shortest spelling of the module of these bytes, in hex.
pub(crate) fn shortest(alloc: Global, bytes: &[u8]) -> Result<String, Refused> {
    let mut spelled = Vec::new(alloc);
    encode(&load(alloc, bytes)?, &mut spelled)?;
    let digits = hex::encode(alloc, &spelled)?;
    let digits = digits.as_str();
    Ok(format!(in alloc; "{digits}\n")?)
}

/// The instructions that bytes begin with, up to their end, and the place behind it.
pub(crate) fn instructions(alloc: Global, bytes: &[u8]) -> Result<String, Refused> {
    if bytes.len() > 4000 {
        return Err(Refused::Line);
    }
    let (body, next) = read_expr(alloc, bytes, 0, bytes.len())?;
    let mut out = String::new(alloc);
    put_instrs(&mut out, &body)?;
    writeln!(out, "next {next}")?;
    Ok(out)
}
