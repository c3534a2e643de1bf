//! Modules read from their bytes and judged.

ghost use Rattle.std.specs.Prelude.{ℕ, List, IfOk, IfErr};
ghost use Rattle.spec_modules.specs.Syntax as syntax;
ghost use Rattle.spec_modules.specs.Spells.{Spells};
ghost use Rattle.spec_typing.specs.Modules.{ModuleTyped};
ghost use Rattle.expr_reader.specs.Outcome.{Unless};
ghost use Rattle.loader.specs.Refusals.{NoModule};
ghost use Rattle.module_tree.specs.Modules.{module_view};
ghost use Rattle.typing.specs.Parts as typed;
ghost use Rattle.typing.specs.CheckResults.{Denies};
ghost use Rattle.link.specs.Parts.{tree_of, hosts_of};
ghost use Rattle.wblock_line.specs.Modules.{IsValidOf, IsContractOf, IsFirst, IsUnspelled, StopsAt};

use crate::refusals::ModuleRefusal;
use body_typing::scope::TypeRefusal;
use link::deploy::deploy;
use link::deployed::Deployed;
use link::refusal::LinkRefusal;
use loader::{LoadRefusal, load};
use module_tree::module::Module;
use std::alloc::{Allocator, Global};
use typing::check::check;
use typing::valid::Valid;

/// Why a module's bytes give no contract.
#[derive(Clone, Copy, Debug, PartialEq, Eq)]
pub enum Stop {
    /// They are refused.
    Refused(ModuleRefusal),
    /// Memory was refused.
    NoMemory,
}

fn unloaded(refusal: LoadRefusal) -> Stop
    ensures stops { (bytes : List ℕ) → Unless (NoModule bytes) refusal → StopsAt bytes result }
    ensures none { (bytes : List ℕ) → Unless (NoModule bytes) refusal → IsUnspelled bytes result }
{
    match refusal {
        LoadRefusal::Malformed(at) => Stop::Refused(ModuleRefusal::Malformed(at)),
        LoadRefusal::Unsupported(at) => Stop::Refused(ModuleRefusal::Unsupported(at)),
        LoadRefusal::TooLarge(limit) => Stop::Refused(ModuleRefusal::TooLarge(limit)),
        LoadRefusal::NoMemory => Stop::NoMemory,
    }
}

fn untyped(refusal: TypeRefusal) -> Stop
    ensures { (bytes : List ℕ) (m : syntax.Module) → Spells bytes m → Denies refusal (ModuleTyped m) → StopsAt bytes result }
{
    match refusal {
        TypeRefusal::At {
            func,
            ordinal,
            rule,
        } => Stop::Refused(ModuleRefusal::Untyped {
            rule,
            func,
            ordinal,
        }),
        TypeRefusal::NoMemory => Stop::NoMemory,
    }
}

fn unlinked(refusal: LinkRefusal) -> Stop
    ensures { (bytes : List ℕ) (m : syntax.Module) → IsValidOf bytes m → IsFirst refusal m → StopsAt bytes result }
{
    match refusal {
        LinkRefusal::UnknownImport(import) => Stop::Refused(ModuleRefusal::UnknownImport(import)),
        LinkRefusal::ImportType(import) => Stop::Refused(ModuleRefusal::ImportType(import)),
        LinkRefusal::SegmentRange(segment) => Stop::Refused(ModuleRefusal::SegmentRange(segment)),
        LinkRefusal::TooManyPages => Stop::Refused(ModuleRefusal::TooManyPages),
        LinkRefusal::TableTooLarge => Stop::Refused(ModuleRefusal::TableTooLarge),
        LinkRefusal::NoMemory => Stop::NoMemory,
    }
}

/// The module of these bytes, valid or not, its tree under `room`: they are loaded.
pub fn read_module<A: Allocator + Clone>(room: A, bytes: &[u8]) -> Result<Module<A>, Stop>
    ensures spelled { IfOk result (λ m. Spells bytes.now (module_view m)) }
    ensures refused { IfErr result (StopsAt bytes.now) }
    ensures none { IfErr result (IsUnspelled bytes.now) }
{
    match load(room, bytes) {
        Ok(module) => Ok(module),
        Err(refusal) => Err(unloaded(refusal)),
    }
}

/// The valid module of these bytes, its tree under `room`: they are loaded and checked. The working memory is from `alloc`.
pub fn read_valid<A: Allocator + Clone>(
    alloc: Global,
    room: A,
    bytes: &[u8],
) -> Result<Valid<A>, Stop>
    ensures valid { IfOk result (λ v. IsValidOf bytes.now (module_view (typed.tree_of v))) }
    ensures refused { IfErr result (StopsAt bytes.now) }
{
    let module = read_module(room, bytes)?;
    match check(&alloc, module) {
        Ok(valid) => Ok(valid),
        Err((_, refusal)) => Err(untyped(refusal)),
    }
}

/// The contract of a module's bytes: they are loaded, checked and linked, in this order.
pub fn read_contract(alloc: Global, bytes: &[u8]) -> Result<Deployed<Global>, Stop>
    ensures contract { IfOk result (λ d. IsContractOf bytes.now (module_view (tree_of d)) (hosts_of d)) }
    ensures refused { IfErr result (StopsAt bytes.now) }
{
    let valid = read_valid(alloc, alloc, bytes)?;
    match deploy(&alloc, valid) {
        Ok(deployed) => {
            deployed.is_linked();
            Ok(deployed)
        }
        Err((_, refusal)) => Err(unlinked(refusal)),
    }
}
