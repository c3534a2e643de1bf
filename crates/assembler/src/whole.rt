//! The module of a text's fields.
ghost use Rattle.std.specs.Prelude.{◌≡◌, IfOk, IfErr};
ghost use Rattle.module_tree.specs.Modules.{module_view};
ghost use Rattle.spec_modules.specs.Spells.{ModuleFits};
ghost use Rattle.spec_text.specs.Fields.{Resolves};
ghost use Rattle.text_resolve.specs.Outcome.{Unless};
ghost use Rattle.text_tree.specs.Views.{fields_of};
ghost use Rattle.assembler.specs.NamedModules.{ResolveToNothing};

use crate::lists::lists_of;
use crate::{BuildFault, build_module, parts_of_text, reading_of_fields_is_exact};
use module_tree::module::Module;
use std::alloc::Allocator;
use text_fields::{no_text_has_two_lists_of_spaces, spaces_of_text};
use text_resolve::ResolveFault;
use text_tree::Text;

/// The module that fields make, within its limits. They are refused for another cause than memory only where they make no
/// such module.
pub fn module_of<A: Allocator + Clone>(
    alloc: &A,
    tree: &Text<'_, A>,
) -> Result<Module<A>, ResolveFault>
    ensures resolves { IfOk result (λ m. Resolves (fields_of tree.now) (module_view m)) }
    ensures fits { IfOk result (λ m. ModuleFits (module_view m)) }
    ensures refused { IfErr result (Unless (ResolveToNothing (fields_of tree.now))) }
{
    no_text_has_two_lists_of_spaces();
    reading_of_fields_is_exact();
    let spaces = spaces_of_text(alloc, tree)?;
    let parts = parts_of_text(alloc, &spaces, tree)?;
    match build_module(lists_of(spaces.types, parts)) {
        Ok(module) => Ok(module),
        Err(BuildFault::NoMemory) => Err(ResolveFault::NoMemory),
        Err(BuildFault::TooLarge) => Err(ResolveFault::Broken),
    }
}
