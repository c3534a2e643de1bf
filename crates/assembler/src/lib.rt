//! The assembler: all fields of a text in the text format of WebAssembly are put together to the module that the text names, or the refusal of the text
//! is found. No text names two modules (Core Specification, 6 Text Format).
#![tactic(auto)]

mod bodies;
mod builder_bodies;
mod builder_lists;
mod builder_parts;
mod collect;
mod faults;
mod faults_of_fields;
mod fields;
mod judge;
mod labels;
mod laws;
mod lists;
mod names;
mod parts;
mod ranges;
mod whole;

ghost use Rattle.std.specs.Prelude.{◌≡◌, IfOk, IfErr};
ghost use Rattle.module_tree.specs.Modules.{module_view};
ghost use Rattle.spec_text.specs.Names.{Names};
ghost use Rattle.text_resolve.specs.Refusals.{Unless};
ghost use Rattle.text_resolve.specs.declared.refusal.AsmRefusal.TheVariants as refusal;
ghost use Rattle.text_resolve.specs.declared.refusal.ResolveFault.TheVariants as unresolved;
ghost use Rattle.assembler.specs.OfFields.{IsOfFields};
ghost use Rattle.assembler.specs.NamedModules.{NamesNothing, IsWhy};

pub use builder_lists::Lists;
pub use collect::parts_of_text;
pub use faults_of_fields::first_fault;
use fields::tree_of;
pub use judge::{BuildFault, build_module};
pub use laws::{no_fields_make_two_modules, no_text_names_two_modules, reading_of_fields_is_exact};
use module_tree::limit::BYTE_LIMIT;
use module_tree::module::Module;
pub use parts::{Parts, put};
use std::alloc::Allocator;
use text_resolve::ResolveFault;
pub use text_resolve::{AsmRefusal, Limit};
use text_tree::Text;
use whole::module_of;

fn fault_of<A: Allocator + Clone>(
    alloc: &A,
    text: &str,
    tree: &Text<'_, A>,
    met: ResolveFault,
) -> AsmRefusal
    ensures memory { met ≡ unresolved.NoMemory → result ≡ refusal.NoMemory }
    ensures of_fields { IsOfFields result }
{
    match met {
        ResolveFault::NoMemory => AsmRefusal::NoMemory,
        _ => match first_fault(alloc, tree) {
            AsmRefusal::TooLarge(_) if text.len() > BYTE_LIMIT => {
                AsmRefusal::TooLarge(Limit::Bytes)
            },
            fault => fault,
        },
    }
}

/// The module that a text names (Core Specification, 6 Text Format): its tokens are words, whose fields make the module, and
/// text and module are within the limits of this profile. It is refused for another cause than memory only where the text
/// names no module: `Lex` only where it lexes to no tokens, `Unexpected` only where its tokens are no fields, and another only where it has fields. Its
/// place, and which it is of those that fields get, are for people to read, and no clause speaks of them.
///
/// # Errors
///
/// First `Lex`, then `Unexpected` at the least place where the text leaves the grammar, then `UnknownName`, `RepeatedName` or
/// `NumberRange` at the least place of such a fault, then `TooLarge` with the least limit that is passed. `NoMemory` may come
/// at any time.
pub fn assemble<A: Allocator + Clone>(alloc: A, text: &str) -> Result<Module<A>, AsmRefusal>
    ensures names { IfOk result (λ m. Names text.now (module_view m)) }
    ensures refused { IfErr result (Unless (NamesNothing text.now)) }
    ensures why { IfErr result (IsWhy text.now) }
{
    let tree = tree_of(&alloc, text)?;
    let module = match module_of(&alloc, &tree) {
        Ok(module) => module,
        Err(met) => return Err(fault_of(&alloc, text, &tree, met)),
    };
    if text.len() > BYTE_LIMIT {
        return Err(AsmRefusal::TooLarge(Limit::Bytes));
    }
    Ok(module)
}
