//! The contract whose shortest spelling bytes are.

ghost use Rattle.std.specs.Prelude.{◌≡◌, ◌≢◌, ◌↔◌, IfOk, OnOk, IsTrue, MatchOption};
ghost use Rattle.spec_modules.specs.Shortest.{shortest};
ghost use Rattle.spec_modules.specs.Spells.{Spells};
ghost use Rattle.module_tree.specs.Modules.{module_view};
ghost use Rattle.typing.specs.Parts as typed;
ghost use Rattle.link.specs.Parts.{tree_of};
ghost use Rattle.world.specs.Views.{contract_view};
ghost use Rattle.world.specs.Reading.{IsBody, IsNoBody};

use body_typing::scope::TypeRefusal;
use encoder::encode;
use link::deploy::deploy;
use link::deployed::Deployed;
use link::refusal::LinkRefusal;
use loader::{LoadRefusal, load};
use module_tree::module::Module;
use std::alloc::{AllocError, Allocator};
use typing::check::check;
use typing::valid::Valid;

/// The module that bytes spell, or None where they are no contract's.
fn load_body<A: Allocator + Copy>(alloc: A, body: &[u8]) -> Result<Option<Module<A>>, AllocError>
    ensures { IfOk result (λ found. MatchOption found (IsNoBody body.now) (λ m. Spells body.now (module_view m))) }
{
    match load(alloc, body) {
        Ok(module) => Ok(Some(module)),
        Err(LoadRefusal::NoMemory) => Err(AllocError),
        Err(_) => Ok(None),
    }
}

/// A refusal for another cause than memory.
fn note_untyped(refusal: TypeRefusal) -> Result<(), AllocError>
    ensures { OnOk result (refusal ≢ TypeRefusal.NoMemory) }
{
    match refusal {
        TypeRefusal::NoMemory => Err(AllocError),
        TypeRefusal::At { .. } => Ok(()),
    }
}

/// A refusal for another cause than memory.
fn note_unlinked(refusal: LinkRefusal) -> Result<(), AllocError>
    ensures { OnOk result (refusal ≢ LinkRefusal.NoMemory) }
{
    match refusal {
        LinkRefusal::NoMemory => Err(AllocError),
        _ => Ok(()),
    }
}

/// The same, typed.
fn check_body<A: Allocator + Copy>(alloc: A, body: &[u8]) -> Result<Option<Valid<A>>, AllocError>
    ensures { IfOk result (λ found. MatchOption found (IsNoBody body.now) (λ v. Spells body.now (module_view (typed.tree_of v)))) }
{
    laws_modules::one_tree();
    let Some(module) = load_body(alloc, body)? else {
        return Ok(None);
    };
    match check(&alloc, module) {
        Ok(valid) => Ok(Some(valid)),
        Err((_, refusal)) => {
            note_untyped(refusal)?;
            Ok(None)
        }
    }
}

/// The same, linked.
fn link_body<A: Allocator + Copy>(alloc: A, body: &[u8]) -> Result<Option<Deployed<A>>, AllocError>
    ensures { IfOk result (λ found. MatchOption found (IsNoBody body.now) (λ d. Spells body.now (module_view (tree_of d)))) }
{
    laws_modules::one_tree();
    spec_typing::refused_is_not_linked();
    let Some(valid) = check_body(alloc, body)? else {
        return Ok(None);
    };
    match deploy(&alloc, valid) {
        Ok(deployed) => Ok(Some(deployed)),
        Err((_, refusal)) => {
            note_unlinked(refusal)?;
            Ok(None)
        }
    }
}

/// Whether the bytes are the shortest spelling of a contract's module.
fn is_shortest<A: Allocator + Copy>(
    alloc: A,
    contract: &Deployed<A>,
    body: &[u8],
) -> Result<bool, AllocError>
    ensures { IfOk result (λ same. IsTrue same ↔ (body.now ≡ shortest (module_view (tree_of contract.now)))) }
{
    let mut bytes = Vec::new(alloc);
    if encode(contract.module(), &mut bytes).is_err() {
        return Err(AllocError);
    }
    Ok(bytes.as_slice() == body)
}

/// The contract whose shortest spelling the bytes are, if they are one's.
pub(crate) fn judge<A: Allocator + Copy>(
    alloc: A,
    body: &[u8],
) -> Result<Option<Deployed<A>>, AllocError>
    ensures { IfOk result (λ found. MatchOption found (IsNoBody body.now) (λ d. IsBody body.now (contract_view d))) }
{
    laws_modules::one_tree();
    let Some(contract) = link_body(alloc, body)? else {
        return Ok(None);
    };
    contract.is_linked();
    if is_shortest(alloc, &contract, body)? {
        Ok(Some(contract))
    } else {
        Ok(None)
    }
}
