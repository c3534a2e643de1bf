// A whole module.
ghost use Rattle.std.specs.Prelude.{◌≡◌, ◌<◌, ◌≤◌, ◌^◌, map, true, length, Err, IfOk, IfErr};
ghost use Rattle.std.specs.List.{list_all};
ghost use Rattle.spec_modules.specs.Limits.{counts_from};
ghost use Rattle.spec_modules.specs.Profile.{byte_limit};
ghost use Rattle.laws_modules.specs.ReadingModules.{header_at, module_at};
ghost use Rattle.module_tree.specs.ModuleView.{func_view, data_view, func_ordinals, data_ordinals};
ghost use Rattle.module_tree.specs.Modules.{module_view};
ghost use Rattle.spec_modules.specs.Spells.{Spells};
ghost use Rattle.loader.specs.Refusals.{NoModule, IsWithin};
ghost use Rattle.loader.specs.Tail.{tail_at};
ghost use Rattle.expr_reader.specs.declared.LoadRefusal.TheVariants.{TooLarge};
ghost use Rattle.expr_reader.specs.Outcome.{Gives, Unless};
ghost use Rattle.module_tree.specs.declared.limit.Limit.TheVariants as limit;

use crate::code::funcs_of;
use crate::items::{
    Datas, Elements, Exports, FuncTypes, Globals, Imports, Memories, Start, Tables, TypeIndices,
};
use crate::sections::{list_of, skip_customs, slot_of};
use expr_reader::{DecodeFault, LoadRefusal};
use module_tree::limit::{BYTE_LIMIT, Limit};
use module_tree::module::{DataSegment, Func, Module};
use std::alloc::Allocator;

// What is behind the header. Its two parts are items.
#[tactic(auto, unfolding(laws_modules::specs::ReadingModules::header_at, laws_modules::specs::ReadingExpressions::byte_at))]
fn header_of(bytes: &[u8]) -> Result<&[u8], DecodeFault>
    ensures value { Gives (λ x. x.now) result (header_at bytes.now) }
    ensures shorter { IfOk result (λ x. length x.now ≤ length bytes.now) }
{
    let [0x00, 0x61, 0x73, 0x6D, rest @ ..] = bytes else {
        return Err(DecodeFault::Malformed(bytes.len()));
    };
    let [0x01, 0x00, 0x00, 0x00, after @ ..] = rest else {
        return Err(DecodeFault::Malformed(rest.len()));
    };
    Ok(after)
}

// The functions of these type indices and the data segments, behind which nothing is left.
#[tactic(auto, unfolding(crate::specs::Tail::tail_at))]
fn tail_of<A: Allocator + Clone>(
    alloc: &A,
    indices: &[u32],
    bytes: &[u8],
) -> Result<(Vec<Func<A>, A>, Vec<DataSegment<A>, A>), DecodeFault>
    requires small { length bytes.now < 2 ^ 32 }
    ensures value { Gives (λ x. (map func_view x.0.items, map data_view x.1.items)) result (tail_at indices.now bytes.now) }
    ensures funcs_numbered { IfOk result (λ x. list_all (λ f. counts_from 0 (func_ordinals f)) x.0.items ≡ true) }
    ensures datas_numbered { IfOk result (λ x. list_all (λ d. counts_from 0 (data_ordinals d)) x.1.items ≡ true) }
{
    let (funcs, rest) = funcs_of(alloc, indices, bytes)?;
    let (datas, rest) = list_of(alloc, &Datas, 11, rest)?;
    match rest {
        [] => {
            if funcs.len() != indices.len() {
                return Err(DecodeFault::Malformed(0));
            }
            Ok((funcs, datas))
        }
        [_, ..] => Err(DecodeFault::Malformed(rest.len())),
    }
}

// The module that all of the bytes spell.
#[tactic(auto, unfolding(laws_modules::specs::ReadingModules::module_at))]
fn module_of<A: Allocator + Clone>(alloc: &A, bytes: &[u8]) -> Result<Module<A>, DecodeFault>
    requires small { length bytes.now ≤ byte_limit }
    ensures value { Gives module_view result (module_at bytes.now) }
{
    let rest = header_of(bytes)?;
    let rest = skip_customs(rest)?;
    let (types, rest) = list_of(alloc, &FuncTypes, 1, rest)?;
    let (imports, rest) = list_of(alloc, &Imports, 2, rest)?;
    let none = Vec::new(alloc.clone()?);
    let (indices, rest) = slot_of(alloc, &TypeIndices, 3, none, rest)?;
    let (tables, rest) = list_of(alloc, &Tables, 4, rest)?;
    let (memories, rest) = list_of(alloc, &Memories, 5, rest)?;
    let (globals, rest) = list_of(alloc, &Globals, 6, rest)?;
    let (exports, rest) = list_of(alloc, &Exports, 7, rest)?;
    let (start, rest) = slot_of(alloc, &Start, 8, None, rest)?;
    let (elements, rest) = list_of(alloc, &Elements, 9, rest)?;
    let (funcs, datas) = tail_of(alloc, &indices, rest)?;
    Ok(Module {
        types,
        imports,
        funcs,
        tables,
        memories,
        globals,
        exports,
        start,
        elements,
        datas,
    })
}

/// The module that the bytes spell (Core Specification, 5.5.15 Modules), within the limits of this profile. Custom
/// sections may stand between any two sections, and are left out. It is refused for another cause than memory only
/// where the bytes spell no module within the limits. The offset of a refusal is at most the count of the bytes.
pub fn load<A: Allocator + Clone>(alloc: A, bytes: &[u8]) -> Result<Module<A>, LoadRefusal>
    ensures spelled { IfOk result (λ m. Spells bytes.now (module_view m)) }
    ensures only { IfErr result (Unless (NoModule bytes.now)) }
    ensures place { IfErr result (IsWithin (length bytes.now)) }
    ensures large { byte_limit < length bytes.now → result ≡ Err (TooLarge limit.Bytes) }
{
    let end = bytes.len();
    if end > BYTE_LIMIT {
        return Err(LoadRefusal::TooLarge(Limit::Bytes));
    }
    match module_of(&alloc, bytes) {
        Ok(module) => Ok(module),
        Err(unread) => Err(unread.ending_at(end)),
    }
}
