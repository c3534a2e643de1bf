//! Whole modules: their bytes, their texts, and where a text is refused.

use crate::names::tree_of;
use crate::refused::Refused;
use assembler::{assemble, first_fault};
use loader::load;
use module_text::text_of;
use module_tree::module::Module;
use std::alloc::Global;

/// The first fault of the fields of a text.
pub(crate) fn fault(alloc: Global, text: &str) -> Result<String, Refused> {
    let fault = first_fault(&alloc, &tree_of(alloc, text)?);
    Ok(format!(in alloc; "{fault:?}\n")?)
}

/// How a text is refused, if it is.
pub(crate) fn refusal(alloc: Global, text: &str) -> Result<String, Refused> {
    match assemble(alloc, text) {
        Ok(_module) => Ok(format!(in alloc; "none\n")?),
        Err(refusal) => Ok(format!(in alloc; "{refusal:?}\n")?),
    }
}

/// The bytes of a module, in hex.
fn spelled(alloc: Global, module: &Module<Global>) -> Result<String, Refused> {
    let mut bytes = Vec::new(alloc);
    encoder::encode(module, &mut bytes)?;
    Ok(hex::encode(alloc, &bytes)?)
}

/// The bytes of the module that the text of this module names, in hex.
fn spelled_again(alloc: Global, module: &Module<Global>) -> Result<String, Refused> {
    let text = text_of(alloc, module, &[])?;
    let read = assemble(alloc, text.as_str())?;
    spelled(alloc, &read)
}

/// Whether the text of a module names the module of these bytes.
fn is_again(alloc: Global, module: &Module<Global>, bytes: &str) -> Result<bool, Refused> {
    Ok(spelled_again(alloc, module)?.as_str() == bytes)
}

/// The bytes of the module that a text names, in hex, and whether the text that the module is written as has these bytes too.
pub(crate) fn assembled(alloc: Global, text: &str) -> Result<String, Refused> {
    let module = assemble(alloc, text)?;
    let bytes = spelled(alloc, &module)?;
    let bytes = bytes.as_str();
    let again = is_again(alloc, &module, bytes)?;
    Ok(format!(in alloc; "{bytes}\nagain {again}\n")?)
}

/// Whether the text that the module of a text is written as has the same bytes.
pub(crate) fn again(alloc: Global, text: &str) -> Result<String, Refused> {
    let module = assemble(alloc, text)?;
    let bytes = spelled(alloc, &module)?;
    let again = is_again(alloc, &module, bytes.as_str())?;
    Ok(format!(in alloc; "again {again}\n")?)
}

/// The text that the module of a text is written as.
pub(crate) fn written(alloc: Global, text: &str) -> Result<String, Refused> {
    Ok(text_of(alloc, &assemble(alloc, text)?, &[])?)
}

/// The text that the module of these bytes is written as.
pub(crate) fn written_of_bytes(alloc: Global, bytes: &[u8]) -> Result<String, Refused> {
    Ok(text_of(alloc, &load(alloc, bytes)?, &[])?)
}
