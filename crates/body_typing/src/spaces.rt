// The index spaces of a module.

ghost use Rattle.std.specs.Prelude.{◌≡◌, ◌++◌, map, OnOk, IfOk};
ghost use Rattle.spec_typing.specs.Modules.{func_of, table_of, memory_of, global_of, is_not_empty};
ghost use Rattle.module_tree.specs.ModuleView.{limits_view, global_type_view, import_desc_view, import_view, func_view, global_view};
ghost use Rattle.module_tree.specs.Modules.{module_view};
ghost use Rattle.body_typing.specs.Spaces.{AreImported};

use module_tree::module::{Func, Global, GlobalType, Import, ImportDesc, Module};
use std::alloc::{AllocError, Allocator};
use wtypes::Limits;

/// A module's index spaces, the imports first (Core Specification, 2.5.1 Indices).
#[derive(Drop)]
pub struct Spaces<W: Allocator> {
    /// The type index of each function.
    pub funcs: Vec<u32, W>,
    /// The limits of each table.
    pub tables: Vec<Limits, W>,
    /// The limits of each memory.
    pub memories: Vec<Limits, W>,
    /// The type of each global.
    pub globals: Vec<GlobalType, W>,
    /// How many of the functions are imported.
    pub imported_funcs: usize,
    /// How many of the globals are imported.
    pub imported_globals: usize,
}

impl<W: Allocator> Spaces<W> {
    ghost use Rattle.body_typing.specs.Spaces.{after_import, AreSpaces};

    /// The index spaces of a module.
    pub fn of_module<A: Allocator>(alloc: &W, tree: &Module<A>) -> Result<Spaces<W>, AllocError>
    where
        W: Clone,
        ensures { IfOk result (λ s. AreSpaces s (module_view tree.now)) }
    {
        let mut spaces = imported(alloc, &tree.imports)?;
        spaces.imported_funcs = spaces.funcs.len();
        spaces.imported_globals = spaces.globals.len();
        add_funcs(&mut spaces.funcs, &tree.funcs)?;
        add_limits(&mut spaces.tables, &tree.tables)?;
        add_limits(&mut spaces.memories, &tree.memories)?;
        add_globals(&mut spaces.globals, &tree.globals)?;
        Ok(spaces)
    }

    /// Whether there is a table.
    pub fn has_table(&self) -> bool
        ensures { result ≡ is_not_empty (map limits_view self.now.tables.items) }
    {
        !self.tables.is_empty()
    }

    /// Whether there is a memory.
    pub fn has_memory(&self) -> bool
        ensures { result ≡ is_not_empty (map limits_view self.now.memories.items) }
    {
        !self.memories.is_empty()
    }

    fn add_import(&mut self, desc: ImportDesc) -> Result<(), AllocError>
        ensures funcs { OnOk result (self.new.funcs.items ≡ after_import self.old.funcs.items (func_of (import_desc_view desc))) }
        ensures tables { OnOk result (map limits_view self.new.tables.items ≡ after_import (map limits_view self.old.tables.items) (table_of (import_desc_view desc))) }
        ensures memories { OnOk result (map limits_view self.new.memories.items ≡ after_import (map limits_view self.old.memories.items) (memory_of (import_desc_view desc))) }
        ensures globals { OnOk result (map global_type_view self.new.globals.items ≡ after_import (map global_type_view self.old.globals.items) (global_of (import_desc_view desc))) }
    {
        match desc {
            ImportDesc::Func(index) => self.funcs.push(index)?,
            ImportDesc::Table(limits) => self.tables.push(limits)?,
            ImportDesc::Memory(limits) => self.memories.push(limits)?,
            ImportDesc::Global(global_type) => self.globals.push(global_type)?,
        }
        Ok(())
    }
}

// The index spaces of imports alone.
fn imported<A: Allocator, W: Allocator + Clone>(
    alloc: &W,
    imports: &Vec<Import<A>, A>,
) -> Result<Spaces<W>, AllocError>
    ensures { IfOk result (λ s. AreImported s (map import_view imports.now.items)) }
{
    let mut spaces = Spaces {
        funcs: Vec::new(alloc.clone()?),
        tables: Vec::new(alloc.clone()?),
        memories: Vec::new(alloc.clone()?),
        globals: Vec::new(alloc.clone()?),
        imported_funcs: 0,
        imported_globals: 0,
    };
    for import in imports {
        spaces.add_import(import.desc)?;
    }
    Ok(spaces)
}

fn add_funcs<A: Allocator, W: Allocator>(
    funcs: &mut Vec<u32, W>,
    defined: &Vec<Func<A>, A>,
) -> Result<(), AllocError>
    ensures { OnOk result (funcs.new.items ≡ funcs.old.items ++ map (λ f. f.type_index) (map func_view defined.now.items)) }
{
    for f in defined {
        funcs.push(f.type_index)?;
    }
    Ok(())
}

fn add_limits<A: Allocator, W: Allocator>(
    all: &mut Vec<Limits, W>,
    defined: &Vec<Limits, A>,
) -> Result<(), AllocError>
    ensures { OnOk result (map limits_view all.new.items ≡ map limits_view all.old.items ++ map limits_view defined.now.items) }
{
    for limits in defined {
        all.push(*limits)?;
    }
    Ok(())
}

fn add_globals<A: Allocator, W: Allocator>(
    globals: &mut Vec<GlobalType, W>,
    defined: &Vec<Global<A>, A>,
) -> Result<(), AllocError>
    ensures { OnOk result (map global_type_view globals.new.items ≡ map global_type_view globals.old.items ++ map (λ g. g.type) (map global_view defined.now.items)) }
{
    for g in defined {
        globals.push(g.global_type)?;
    }
    Ok(())
}
