//! Modules, read from their bytes and spelled.

ghost use Rattle.std.specs.Prelude.{◌≡◌, ◌<◌, length, Err, IfOk, IfErr};
ghost use Rattle.spec_modules.specs.Profile.{byte_limit};
ghost use Rattle.spec_modules.specs.Spells.{Spells};
ghost use Rattle.module_tree.specs.Modules.{module_view};
ghost use Rattle.expr_reader.specs.Outcome.{Unless};
ghost use Rattle.expr_reader.specs.declared.LoadRefusal.TheVariants.{TooLarge};
ghost use Rattle.module_tree.specs.declared.limit.Limit.TheVariants as limit;
ghost use Rattle.loader.specs.Refusals.{NoModule, IsWithin};

use loader::LoadRefusal;
use module_tree::module::Module;
use std::alloc::Allocator;

/// As [`loader::load`].
pub fn load<A: Allocator + Clone>(alloc: A, bytes: &[u8]) -> Result<Module<A>, LoadRefusal>
    ensures spelled { IfOk result (λ m. Spells bytes.now (module_view m)) }
    ensures only { IfErr result (Unless (NoModule bytes.now)) }
    ensures place { IfErr result (IsWithin (length bytes.now)) }
    ensures large { byte_limit < length bytes.now → result ≡ Err (TooLarge limit.Bytes) }
{
    loader::load(alloc, bytes)
}
