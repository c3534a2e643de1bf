//! Instructions of a module's tree.

use crate::names::{space_of, spaces_of};
use crate::refused::Refused;
use lexer::{tokens, words};
use module_tree::instr::Instr;
use std::alloc::{AllocError, Allocator, Global};
use text_body::body;
use text_resolve::expression;

/// Puts an instruction, and then those in it.
#[cycle(put)]
fn put_instr<A: Allocator>(out: &mut String, instr: &Instr<A>) -> Result<(), AllocError> {
    match instr {
        Instr::Plain(ordinal, op) => writeln!(out, "{ordinal} {op:?}"),
        Instr::BrTable(ordinal, labels, default) => {
            let labels = labels.as_slice();
            writeln!(out, "{ordinal} BrTable {labels:?} else {default}")
        }
        Instr::Block(ordinal, result, inner) => {
            writeln!(out, "{ordinal} Block {result:?}")?;
            put_instrs(out, inner)?;
            out.push_str("end\n")
        }
        Instr::Loop(ordinal, result, inner) => {
            writeln!(out, "{ordinal} Loop {result:?}")?;
            put_instrs(out, inner)?;
            out.push_str("end\n")
        }
        Instr::If(ordinal, result, chosen, others) => {
            writeln!(out, "{ordinal} If {result:?}")?;
            put_instrs(out, chosen)?;
            out.push_str("else\n")?;
            put_instrs(out, others)?;
            out.push_str("end\n")
        }
    }
}

/// Puts a line for each instruction, with its ordinal, those in it behind it.
#[cycle(put)]
pub fn put_instrs<A: Allocator>(
    out: &mut String,
    instrs: &Vec<Instr<A>, A>,
) -> Result<(), AllocError> {
    for instr in instrs {
        put_instr(out, instr)?;
    }
    Ok(())
}

/// What a body becomes: the first line has the names of the locals, the second a module whose spaces the names are of, and the body is behind it.
pub(crate) fn expression_of(alloc: Global, text: &str) -> Result<String, Refused> {
    let (names, behind) = text.split_once('\n').unwrap_or((text, ""));
    let (module, written) = behind.split_once('\n').unwrap_or((behind, ""));
    let locals = space_of(alloc, names)?;
    let spaces = spaces_of(alloc, module)?;
    let tokens = tokens(alloc, written)?;
    let words = words(alloc, written, &tokens.items)?;
    let mut rest = words.as_slice();
    let flats = body(&alloc, &mut rest)?;
    let mut out = String::new(alloc);
    put_instrs(&mut out, &expression(&alloc, &spaces, &locals, &flats)?)?;
    Ok(out)
}
