//! The parts that fields share, read one after another.

use crate::flats::{put_bindings, put_index, put_indices, put_results, put_type_use};
use crate::refused::Refused;
use crate::words::put_optional;
use lexer::{Word, tokens, words};
use std::alloc::Global;
use text_body::shared;
use text_body::shared::Part;

/// Reads the part of this name, and puts what it is.
fn put_step(
    alloc: Global,
    out: &mut String,
    step: &str,
    rest: &mut &[Word<'_>],
) -> Result<(), Refused> {
    match step {
        "name" => put_optional(out, " ", shared::optional_id(rest))?,
        "type" => put_type_use(out, &shared::type_use(&alloc, rest)?)?,
        "results" => put_results(out, &shared::results(&alloc, rest)?)?,
        "locals" => { put_bindings(out, "local", &shared::bindings(&alloc, Part::Local, rest)?)? }
        "enters_export" => {
            let enters = shared::enters(Part::Export, rest);
            write!(out, " {enters}")?;
        }
        "index" => put_index(out, shared::index(rest)?)?,
        "indices" => put_indices(out, &shared::indices(&alloc, rest)?)?,
        "close" => shared::close(rest)?,
        _ => out.push_str(" is no part")?,
    }
    Ok(())
}

/// A line for each part of the first line, which is read from the words behind it, and one for the number of words that are left.
pub(crate) fn steps(alloc: Global, text: &str) -> Result<String, Refused> {
    let (line, read) = text.split_once('\n').unwrap_or((text, ""));
    let tokens = tokens(alloc, read)?;
    let words = words(alloc, read, &tokens.items)?;
    let mut rest = words.as_slice();
    let mut out = String::new(alloc);
    for step in line.split(' ') {
        out.push_str(step)?;
        if let Err(refusal) = put_step(alloc, &mut out, step, &mut rest) {
            write!(out, " {refusal:?}")?;
        }
        out.push('\n')?;
    }
    let left = rest.len();
    writeln!(out, "{left} words behind")?;
    Ok(out)
}
