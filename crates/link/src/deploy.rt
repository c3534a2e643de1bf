// The linking of a module.

ghost use Rattle.std.specs.Prelude.{◌≡◌, ℕ, ◌+◌, ◌*◌, ◌≤◌, true, None, is_none, length, IfSome, IfOk, IfErr};
ghost use Rattle.spec_modules.specs.Profile.{page_size};
ghost use Rattle.spec_execution.specs.Configuration.{size_of, fresh};
ghost use Rattle.memory.specs.Start.{stands, first_bytes};
ghost use Rattle.spec_typing.specs.Modules.{ModuleTyped};
ghost use Rattle.spec_typing.specs.Linking.{IsLinked};
ghost use Rattle.module_tree.specs.Modules.{module_view};
ghost use Rattle.typing.specs.Parts as judged;
ghost use Rattle.link.specs.Exports.{AreExports};
ghost use Rattle.link.specs.Parts.{tree_of};
ghost use Rattle.link.specs.Refusals.{Says, PassedBefore, SegmentsPass, OutAt, IsRefusedOnce};
ghost use Rattle.link.specs.Tests.{AllCalls, Sized};

use crate::deployed::{Deployed, Parts};
use crate::exports::exports_by_name;
use crate::globals::first_globals;
use crate::imports::{call_named, host_calls, import_fault};
use crate::refusal::LinkRefusal;
use crate::segments::{all_within, data_fault, element_fault};
use crate::starts::first_start;
use crate::tables::first_table;
use module_tree::module::Module;
use std::alloc::{AllocError, Allocator};
use typing::valid::Valid;
use wtypes::HostCall;

// The number of what stands at this place, after so many others, where 32 bits hold it. They do in each module of the profile.
fn number_at(before: usize, place: usize) -> Option<u32>
    ensures { IfSome result (λ n. n ≡ before + place) }
{
    match before.checked_add(place) {
        None => None,
        Some(sum) => u32::try_from(sum).ok(),
    }
}

// Why the imports are refused.
fn import_refusal<A: Allocator>(tree: &Module<A>) -> Option<LinkRefusal>
    ensures says { IfSome result (λ e. Says e (module_view tree.now)) }
    ensures passed { IfSome result (λ e. PassedBefore e (module_view tree.now)) }
    ensures passes { is_none result ≡ true → AllCalls (module_view tree.now) }
{
    match import_fault(&tree.types, &tree.imports) {
        None => None,
        Some(place) => match number_at(0, place) {
            None => Some(LinkRefusal::NoMemory),
            Some(number) => match call_named(&tree.imports[place]) {
                None => Some(LinkRefusal::UnknownImport(number)),
                Some(_) => Some(LinkRefusal::ImportType(number)),
            },
        },
    }
}

fn out_of_range(before: usize, place: usize) -> LinkRefusal
    ensures { OutAt result (before + place) }
{
    match number_at(before, place) {
        None => LinkRefusal::NoMemory,
        Some(number) => LinkRefusal::SegmentRange(number),
    }
}

// Why the segments are refused.
fn segment_refusal<A: Allocator>(tree: &Module<A>) -> Option<LinkRefusal>
    requires calls { AllCalls (module_view tree.now) }
    requires typed { ModuleTyped (module_view tree.now) }
    ensures says { IfSome result (λ e. Says e (module_view tree.now)) }
    ensures passed { IfSome result (λ e. PassedBefore e (module_view tree.now)) }
    ensures passes { is_none result ≡ true → SegmentsPass (module_view tree.now) }
{
    match element_fault(&tree.tables, &tree.elements) {
        Some(place) => Some(out_of_range(0, place)),
        None => match data_fault(&tree.memories, &tree.datas) {
            Some(place) => Some(out_of_range(tree.elements.len(), place)),
            None => None,
        },
    }
}

// Why the memories and the tables are refused.
fn size_refusal<A: Allocator>(tree: &Module<A>) -> Option<LinkRefusal>
    requires calls { AllCalls (module_view tree.now) }
    requires in_range { SegmentsPass (module_view tree.now) }
    ensures says { IfSome result (λ e. Says e (module_view tree.now)) }
    ensures passed { IfSome result (λ e. PassedBefore e (module_view tree.now)) }
    ensures passes { is_none result ≡ true → Sized (module_view tree.now) }
{
    if !all_within(&tree.memories, 1024) {
        return Some(LinkRefusal::TooManyPages);
    }
    if !all_within(&tree.tables, 65536) {
        return Some(LinkRefusal::TableTooLarge);
    }
    None
}

// The host calls of a module that can be instantiated.
fn link_module<A: Allocator + Clone>(
    alloc: &A,
    tree: &Module<A>,
) -> Result<Vec<HostCall, A>, LinkRefusal>
    requires { ModuleTyped (module_view tree.now) }
    ensures linked { IfOk result (λ calls. IsLinked (module_view tree.now) calls.items) }
    ensures says { IfErr result (λ e. Says e (module_view tree.now)) }
    ensures passed { IfErr result (λ e. PassedBefore e (module_view tree.now)) }
{
    if let Some(refusal) = import_refusal(tree) {
        return Err(refusal);
    }
    if let Some(refusal) = segment_refusal(tree) {
        return Err(refusal);
    }
    if let Some(refusal) = size_refusal(tree) {
        return Err(refusal);
    }
    match host_calls(alloc, &tree.types, &tree.imports) {
        Ok(calls) => Ok(calls),
        Err(AllocError) => Err(LinkRefusal::NoMemory),
    }
}

// The host calls of a module that can be instantiated, what its memory begins with, its table, the first values of its globals,
// and its exports by name.
fn link_parts<A: Allocator + Clone>(alloc: &A, tree: &Module<A>) -> Result<Parts<A>, LinkRefusal>
    requires { ModuleTyped (module_view tree.now) }
    ensures linked { IfOk result (λ parts. IsLinked (module_view tree.now) parts.hosts.items) }
    ensures begun { IfOk result (λ parts. first_bytes parts.start (page_size * size_of (module_view tree.now).memories) ≡ (fresh (module_view tree.now)).memory) }
    ensures ends { IfOk result (λ parts. (k : ℕ) → page_size * size_of (module_view tree.now).memories ≤ k → stands parts.start k ≡ None) }
    ensures filled { IfOk result (λ parts. parts.table ≡ (fresh (module_view tree.now)).table) }
    ensures first { IfOk result (λ parts. parts.globals.items ≡ (fresh (module_view tree.now)).globals) }
    ensures named { IfOk result (λ parts. AreExports parts.exports (module_view tree.now).exports) }
    ensures says { IfErr result (λ e. Says e (module_view tree.now)) }
    ensures passed { IfErr result (λ e. PassedBefore e (module_view tree.now)) }
{
    let hosts = link_module(alloc, tree)?;
    let Ok(start) = first_start(alloc, tree, &hosts) else {
        return Err(LinkRefusal::NoMemory);
    };
    let Ok(table) = first_table(alloc, tree, &hosts) else {
        return Err(LinkRefusal::NoMemory);
    };
    let Ok(globals) = first_globals(alloc, tree) else {
        return Err(LinkRefusal::NoMemory);
    };
    let Ok(exports) = exports_by_name(alloc, &tree.exports) else {
        return Err(LinkRefusal::NoMemory);
    };
    Ok(Parts {
        hosts,
        start,
        table,
        globals,
        exports,
    })
}

/// Links a module that is typed (Core Specification, 4.5.4 Instantiation). What passes is the tree that was handed in,
/// and is linked by its type. A refused module is handed back, what the refusal says is true of it, and what is judged
/// before has passed: the imports are judged first, then the segments, the memory and the table. So there is one
/// answer, lack of memory aside (`refused_once`). The list of the host calls is from `alloc`, and so are the bytes that its memory begins with.
pub fn deploy<A: Allocator + Clone>(
    alloc: &A,
    valid: Valid<A>,
) -> Result<Deployed<A>, (Valid<A>, LinkRefusal)>
    ensures same { IfOk result (λ d. tree_of d ≡ judged.tree_of valid) }
    ensures back { IfErr result (λ e. e.0 ≡ valid) }
    ensures says { IfErr result (λ e. Says e.1 (module_view (judged.tree_of valid))) }
    ensures passed { IfErr result (λ e. PassedBefore e.1 (module_view (judged.tree_of valid))) }
{
    match link_parts(alloc, valid.module()) {
        Ok(parts) => Ok(Deployed::of_linked(valid.into_module(), parts)),
        Err(refusal) => Err((valid, refusal)),
    }
}

/// A law: lack of memory aside, what `deploy` says of a module that it refuses holds for one refusal alone.
pub fn refused_once()
    ensures { IsRefusedOnce }
{}
