//! Whole modules.

ghost use Rattle.std.specs.Prelude.{IfOk, IfErr};
ghost use Rattle.spec_text.specs.Names.{Names};
ghost use Rattle.module_tree.specs.Modules.{module_view};
ghost use Rattle.text_resolve.specs.Refusals.{Unless};
ghost use Rattle.assembler.specs.NamedModules.{NamesNothing, IsWhy};

use module_tree::module::Module;
use std::alloc::Allocator;
use text_resolve::AsmRefusal;

/// As [`assembler::assemble`].
pub fn assemble<A: Allocator + Clone>(alloc: A, text: &str) -> Result<Module<A>, AsmRefusal>
    ensures names { IfOk result (λ m. Names text.now (module_view m)) }
    ensures refused { IfErr result (Unless (NamesNothing text.now)) }
    ensures why { IfErr result (IsWhy text.now) }
{
    assembler::assemble(alloc, text)
}
