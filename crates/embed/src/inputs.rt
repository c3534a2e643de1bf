//! What is passed, read: worlds, calls and contracts.

ghost use Rattle.std.specs.Prelude.{◌≡◌, ◌≤◌, Some, IfOk, IfErr, vec_len};
ghost use Rattle.spec_block.specs.Bytes.{SpellsWorld};
ghost use Rattle.link.specs.Parts.{tree_of, hosts_of};
ghost use Rattle.module_tree.specs.Modules.{module_view};
ghost use Rattle.world.specs.Views.{world_view};
ghost use Rattle.wblock_calls.specs.Texts.{SpellsCalls};
ghost use Rattle.wblock_line.specs.Modules.{IsContractOf, StopsAt};
ghost use Rattle.embed.specs.Refusals as told;
ghost use Rattle.embed.specs.Refusals.{IfRefused, RefusesCalls, RefusesModule, RefusesWorld};

use crate::failure::Failure;
use crate::refusals::{calls_refusal, module_refusal, world_refusal};
use call::Call;
use link::deployed::Deployed;
use std::alloc::Global;
use wblock_calls::{CallsRefusal, calls_words, read_calls};
use wblock_line::{ModuleRefusal, Stop, read_contract};
use wblock_words::world_words;
use world::{ReadRefusal, World, read_world};

fn refuse_world(alloc: Global, bytes: &[u8], refusal: ReadRefusal) -> Failure
    ensures { IfRefused result (λ r. told.world_refusal refusal ≡ Some r) }
{
    match world_refusal(refusal) {
        Some(told) => told.with_sentence(world_words(alloc, bytes, refusal)),
        None => Failure::NoMemory,
    }
}

/// The world that bytes spell.
///
/// # Errors
///
/// The first fault in bytes that spell none; or memory was refused.
pub fn world_of(alloc: Global, bytes: &[u8]) -> Result<World, Failure>
    ensures spelled { IfOk result (λ w. SpellsWorld bytes.now (world_view w)) }
    ensures refused { IfErr result (λ f. IfRefused f (RefusesWorld bytes.now)) }
{
    match read_world(alloc, bytes) {
        Ok(world) => Ok(world),
        Err(refusal) => Err(refuse_world(alloc, bytes, refusal)),
    }
}

fn refuse_calls(alloc: Global, text: &[u8], refusal: CallsRefusal) -> Failure
    ensures { IfRefused result (λ r. told.calls_refusal refusal ≡ Some r) }
{
    match calls_refusal(refusal) {
        Some(told) => told.with_sentence(calls_words(alloc, text, refusal)),
        None => Failure::NoMemory,
    }
}

/// The calls that a text spells, at most 65,535.
///
/// # Errors
///
/// The first line at fault of a text that spells none, or that they are more; or memory was refused.
pub fn calls_of(alloc: Global, text: &[u8]) -> Result<Vec<Call>, Failure>
    ensures spelled { IfOk result (λ calls. SpellsCalls text.now calls.items) }
    ensures few { IfOk result (λ calls. vec_len calls ≤ 65535) }
    ensures refused { IfErr result (λ f. IfRefused f (RefusesCalls text.now)) }
{
    match read_calls(alloc, text) {
        Ok(calls) => Ok(calls),
        Err(refusal) => Err(refuse_calls(alloc, text, refusal)),
    }
}

/// The failure of a module of these bytes that is refused so.
fn refuse_module(alloc: Global, bytes: &[u8], refusal: ModuleRefusal) -> Failure
    ensures { IfRefused result (λ r. r ≡ told.module_refusal refusal) }
{
    module_refusal(refusal).with_sentence(refusal.words(alloc, bytes))
}

/// The failure of a module of these bytes that is not read, for this cause.
pub(crate) fn refuse_stop(alloc: Global, bytes: &[u8], stop: Stop) -> Failure
    requires { StopsAt bytes.now stop }
    ensures { IfRefused result (RefusesModule bytes.now) }
{
    match stop {
        Stop::Refused(refusal) => refuse_module(alloc, bytes, refusal),
        Stop::NoMemory => Failure::NoMemory,
    }
}

/// The contract that a module's bytes are.
///
/// # Errors
///
/// Why they are none; or memory was refused.
pub(crate) fn contract_of(alloc: Global, bytes: &[u8]) -> Result<Deployed<Global>, Failure>
    ensures contract { IfOk result (λ d. IsContractOf bytes.now (module_view (tree_of d)) (hosts_of d)) }
    ensures refused { IfErr result (λ f. IfRefused f (RefusesModule bytes.now)) }
{
    match read_contract(alloc, bytes) {
        Ok(contract) => Ok(contract),
        Err(stop) => Err(refuse_stop(alloc, bytes, stop)),
    }
}
