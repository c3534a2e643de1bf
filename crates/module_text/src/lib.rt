//! A module as text in the text format of WebAssembly, of which the assembler shows that it names the module (Core Specification, 6 Text Format).
#![tactic(auto)]

ghost use Rattle.std.specs.Prelude.{IfOk, string_bytes};
ghost use Rattle.module_tree.specs.Modules.{module_view};
ghost use Rattle.spec_text.specs.Names.{Names};

mod fields;
mod funcs;
mod instrs;
mod judge;
mod names;
mod page;
mod refusal;
mod strings;

use judge::told_text;
use module_tree::module::Module;
pub use refusal::TextRefusal;
use std::alloc::{Allocator, Global};

/// A text that names the module: `assemble` of it gives this module, and `asm` its shortest spelling. There is one instruction a line, indented by nesting,
/// behind each its ordinal as a comment, and functions that are exported or imported have names where these are free. The comment behind a function's head
/// has its number, and the name that `told` has for it, if any. `told` is in the order of the functions' numbers; where its names make the text too long,
/// none is told. No clause speaks of the layout.
///
/// # Errors
///
/// `TooLong` where the text would pass the limit of a text; `Unwritten` where what was written does not name the module; `NoMemory`.
pub fn text_of<A: Allocator>(
    alloc: Global,
    tree: &Module<A>,
    told: &[(u32, &str)],
) -> Result<String, TextRefusal>
    ensures names { IfOk result (λ text. Names (string_bytes text) (module_view tree.now)) }
{
    match told_text(alloc, tree, told) {
        Err(TextRefusal::TooLong) => told_text(alloc, tree, &[]),
        written => written,
    }
}
