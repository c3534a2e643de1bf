// The shortest spelling of a module (Core Specification, 5 Binary Format).
#![tactic(auto)]

ghost use Rattle.std.specs.Prelude.{◌≡◌, ◌++◌, length, take, OnOk, OnErr};
ghost use Rattle.spec_modules.specs.Shortest.{shortest};
ghost use Rattle.spec_modules.specs.Spells.{Spells};
ghost use Rattle.module_tree.specs.ModuleView.{module_of};
ghost use Rattle.module_tree.specs.Modules.{module_view};

mod bytes;
mod instrs;
mod items;
mod locals;
mod opcodes;
mod sections;

use crate::sections::{put_head, put_middle, put_tail};
use module_tree::module::{DataSegment, Element, Export, Func, Global, Import, Module};
use std::alloc::{AllocError, Allocator};
use wtypes::{FuncType, Limits, NoMemory};

/// The lists of a module, borrowed, before it is known that they keep the limits of a `Module`.
#[derive(Drop)]
pub struct ModuleLists<'a, A: Allocator> {
    /// The types of functions.
    pub types: &'a Vec<FuncType<A>, A>,
    /// The imports.
    pub imports: &'a Vec<Import<A>, A>,
    /// The defined functions.
    pub funcs: &'a Vec<Func<A>, A>,
    /// The defined tables.
    pub tables: &'a Vec<Limits, A>,
    /// The defined memories.
    pub memories: &'a Vec<Limits, A>,
    /// The defined globals.
    pub globals: &'a Vec<Global<A>, A>,
    /// The exports.
    pub exports: &'a Vec<Export<A>, A>,
    /// The number of the start function, where there is one.
    pub start: Option<u32>,
    /// The element segments.
    pub elements: &'a Vec<Element<A>, A>,
    /// The data segments.
    pub datas: &'a Vec<DataSegment<A>, A>,
}

/// Appends the shortest spelling of the module: the shortest numbers, no custom section, a section only where there is
/// something in it, locals as maximal runs of one type, and no empty else part. These bytes spell the module. Where
/// memory is refused the buffer is as it was.
pub fn encode<A: Allocator, B: Allocator>(
    tree: &Module<A>,
    out: &mut Vec<u8, B>,
) -> Result<(), NoMemory>
    ensures appended { OnOk result (out.new.items ≡ out.old.items ++ shortest (module_view tree.now)) }
    ensures refused { OnErr result (out.new.items ≡ out.old.items) }
    ensures spells { Spells (shortest (module_view tree.now)) (module_view tree.now) }
{
    let lists = ModuleLists {
        types: &tree.types,
        imports: &tree.imports,
        funcs: &tree.funcs,
        tables: &tree.tables,
        memories: &tree.memories,
        globals: &tree.globals,
        exports: &tree.exports,
        start: tree.start,
        elements: &tree.elements,
        datas: &tree.datas,
    };
    encode_lists(&lists, out)
}

/// Appends the shortest spelling that a module of these lists has, as `encode` does. Where memory is refused the
/// buffer is as it was.
pub fn encode_lists<A: Allocator, B: Allocator>(
    lists: &ModuleLists<'_, A>,
    out: &mut Vec<u8, B>,
) -> Result<(), NoMemory>
    ensures appended { OnOk result
        (out.new.items ≡ out.old.items
        ++ shortest (module_of lists.now.types.now.items lists.now.imports.now.items lists.now.funcs.now.items
        lists.now.tables.now.items lists.now.memories.now.items lists.now.globals.now.items lists.now.exports.now.items
        lists.now.start lists.now.elements.now.items lists.now.datas.now.items)) }
    ensures refused { OnErr result (out.new.items ≡ out.old.items) }
{
    let len = out.len();
    if let Err(refusal) = put_lists(out, lists) {
        out.truncate(len);
        return Err(NoMemory::from(refusal));
    }
    Ok(())
}

fn put_lists<A: Allocator, B: Allocator>(
    out: &mut Vec<u8, B>,
    lists: &ModuleLists<'_, A>,
) -> Result<(), AllocError>
    ensures bytes { OnOk result
        (out.new.items ≡ out.old.items
        ++ shortest (module_of lists.now.types.now.items lists.now.imports.now.items lists.now.funcs.now.items
        lists.now.tables.now.items lists.now.memories.now.items lists.now.globals.now.items lists.now.exports.now.items
        lists.now.start lists.now.elements.now.items lists.now.datas.now.items)) }
    ensures front { take (length out.old.items) out.new.items ≡ out.old.items }
{
    put_head(out, lists.types, lists.imports, lists.funcs)?;
    put_middle(
        out,
        lists.tables,
        lists.memories,
        lists.globals,
        lists.exports,
    )?;
    put_tail(out, lists.start, lists.elements, lists.funcs, lists.datas)
}
