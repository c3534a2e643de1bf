//! Bodies of a text.

use crate::refused::Refused;
use crate::words::{put_optional, put_piece};
use lexer::{tokens, words};
use std::alloc::{AllocError, Global};
use text_body::{Binding, Flat, Index, TypeUse, body};
use wtypes::ValType;

/// Puts an index.
pub(crate) fn put_index(out: &mut String, index: Index<'_>) -> Result<(), AllocError> {
    out.push(' ')?;
    match index {
        Index::Named(piece) => put_piece(out, piece),
        Index::Numbered(piece) => put_piece(out, piece),
    }
}

/// Puts indices.
pub(crate) fn put_indices(out: &mut String, indices: &[Index<'_>]) -> Result<(), AllocError> {
    for index in indices {
        put_index(out, *index)?;
    }
    Ok(())
}

/// Puts parameters or locals.
pub(crate) fn put_bindings(
    out: &mut String,
    word: &str,
    bindings: &[Binding<'_>],
) -> Result<(), AllocError> {
    for binding in bindings {
        let value_type = binding.value_type;
        write!(out, " ({word}")?;
        put_optional(out, " ", binding.name)?;
        write!(out, " {value_type:?})")?;
    }
    Ok(())
}

/// Puts the types of results.
pub(crate) fn put_results(out: &mut String, results: &[ValType]) -> Result<(), AllocError> {
    for value_type in results {
        write!(out, " (result {value_type:?})")?;
    }
    Ok(())
}

/// Puts what is written of a function's type.
pub(crate) fn put_type_use(
    out: &mut String,
    written: &TypeUse<'_, Global>,
) -> Result<(), AllocError> {
    if let Some(index) = written.index {
        out.push_str(" (type")?;
        put_index(out, index)?;
        out.push(')')?;
    }
    put_bindings(out, "param", &written.params)?;
    put_results(out, &written.results)
}

/// Puts an instruction.
fn put_flat(out: &mut String, flat: &Flat<'_, Global>) -> Result<(), AllocError> {
    match flat {
        Flat::Simple(operator) => write!(out, "{operator:?}"),
        Flat::Indexed(operator, index) => {
            write!(out, "{operator:?}")?;
            put_index(out, *index)
        }
        Flat::BrTable(labels, default) => {
            out.push_str("BrTable")?;
            put_indices(out, labels)?;
            out.push_str(" else")?;
            put_index(out, *default)
        }
        Flat::CallIndirect(written) => {
            out.push_str("CallIndirect")?;
            put_type_use(out, written)
        }
        Flat::Load(load, offset, align) => {
            write!(out, "{load:?}")?;
            put_optional(out, " offset=", *offset)?;
            put_optional(out, " align=", *align)
        }
        Flat::Store(store, offset, align) => {
            write!(out, "{store:?}")?;
            put_optional(out, " offset=", *offset)?;
            put_optional(out, " align=", *align)
        }
        Flat::Const(value_type, piece) => {
            write!(out, "{value_type:?} ")?;
            put_piece(out, *piece)
        }
        Flat::Opens(opener, label, result) => {
            write!(out, "{opener:?}")?;
            put_optional(out, " ", *label)?;
            put_results(out, result.as_slice())
        }
        Flat::Else(label) => {
            out.push_str("Else")?;
            put_optional(out, " ", *label)
        }
        Flat::End(label) => {
            out.push_str("End")?;
            put_optional(out, " ", *label)
        }
    }
}

/// Puts a line for each instruction.
pub(crate) fn put_flats(out: &mut String, flats: &[Flat<'_, Global>]) -> Result<(), AllocError> {
    for flat in flats {
        put_flat(out, flat)?;
        out.push('\n')?;
    }
    Ok(())
}

/// A line for each instruction of a body, and one for the number of words behind it.
pub(crate) fn body_of(alloc: Global, text: &str) -> Result<String, Refused> {
    let tokens = tokens(alloc, text)?;
    let words = words(alloc, text, &tokens.items)?;
    let mut rest = words.as_slice();
    let flats = body(&alloc, &mut rest)?;
    let mut out = String::new(alloc);
    put_flats(&mut out, &flats)?;
    let left = rest.len();
    writeln!(out, "{left} words behind")?;
    Ok(out)
}
