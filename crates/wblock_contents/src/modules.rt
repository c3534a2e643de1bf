//! What is in a module.

ghost use Rattle.std.specs.Prelude.{◌≡◌, IfOk, MatchResult, length, string_bytes};
ghost use Rattle.module_tree.specs.Modules.{module_view};
ghost use Rattle.wblock_words.specs.Names.{Rises, names_in};
ghost use Rattle.wblock_line.specs.Refusals.{TellsNoModule};
ghost use Rattle.wblock_contents.specs.ModuleText.{module_text};
ghost use Rattle.wblock_contents.specs.Listings.{TellsModule};

use crate::defined::defined_text_of;
use crate::interface::interface_text_of;
use module_tree::module::Module;
use std::alloc::{AllocError, Global};
use wblock_line::{Stop, read_valid};
use wblock_words::{FunctionName, names_of};

/// The lines of a module that so many bytes spell, which carry these names.
fn module_text_of(
    alloc: Global,
    size: usize,
    names: &[FunctionName<'_>],
    tree: &Module<Global>,
) -> Result<String, AllocError>
    requires { Rises (names_in names.now) }
    ensures { IfOk result (λ text. string_bytes text ≡ module_text size (names_in names.now) (module_view tree.now)) }
{
    let interface = interface_text_of(alloc, tree)?;
    let defined = defined_text_of(alloc, names, tree)?;
    let text = format!(in alloc; "module {size} bytes\n{interface}{defined}")?;
    Ok(text)
}

/// What is in the valid module of these bytes: `module N bytes`, a line for each import, export, function, table, memory and global, `start F`
/// where there is a start function, `elements N` and `data N`. Behind a function stands its name, where the bytes carry one. Or the line and the sentence that say why they are no valid module, as those of
/// `check`.
pub fn list_module(
    alloc: Global,
    bytes: &[u8],
) -> Result<Result<String, (String, String)>, AllocError>
    ensures { IfOk result (λ read. MatchResult read (λ text. TellsModule bytes.now (string_bytes text)) (λ told. TellsNoModule bytes.now (string_bytes told.0))) }
{
    match read_valid(alloc, alloc, bytes) {
        Ok(valid) => {
            let names = names_of(alloc, bytes)?;
            let text = module_text_of(alloc, bytes.len(), &names, valid.module())?;
            Ok(Ok(text))
        }
        Err(Stop::Refused(refusal)) => {
            let told = refusal.lines_of(alloc, bytes)?;
            Ok(Err(told))
        }
        Err(Stop::NoMemory) => Err(AllocError),
    }
}
