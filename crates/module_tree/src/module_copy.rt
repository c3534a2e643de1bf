// A module under another allocator.
ghost use Rattle.std.specs.Prelude.{◌≡◌, ℕ, List, [], map, IfOk, string_bytes};
ghost use Rattle.spec_modules.specs.Syntax as syntax;
ghost use Rattle.module_tree.specs.View.{instrs_view, ordinals};
ghost use Rattle.module_tree.specs.ModuleView.{func_type_view, import_view, func_view, global_view, export_view, element_view, data_view, func_ordinals, global_ordinals, element_ordinals, data_ordinals};

use crate::copy::copy_instrs;
use crate::module::{DataSegment, Element, Export, Func, Global, Import, Module};
use std::alloc::{AllocError, Allocator};
use wtypes::{FuncType, NoMemory};

/// A part of a module, which has the same abstract syntax under each allocator.
pub trait Part<B: Allocator + Clone> {
    ghost Value: { Type 0 };

    ghost view: { Self → Value };

    ghost part_ordinals: { Self → List ℕ };

    ghost copy_view: { Self.Copied → Value };

    ghost copy_ordinals: { Self.Copied → List ℕ };

    type Copied: Drop;

    fn copy_in(&self, alloc: &B) -> Result<Self::Copied, AllocError>
        ensures view { IfOk result (λ c. copy_view c ≡ view self.now) }
        ensures ordinals { IfOk result (λ c. copy_ordinals c ≡ part_ordinals self.now) };
}

// Each part, in order.
pub(crate) fn copy_parts<A: Allocator, B: Allocator + Clone, T: Part<B>>(
    parts: &Vec<T, A>,
    alloc: &B,
) -> Result<Vec<T::Copied, B>, AllocError>
    ensures view { IfOk result (λ v. map T.copy_view v.items ≡ map T.view parts.now.items) }
    ensures ordinals { IfOk result (λ v. map T.copy_ordinals v.items ≡ map T.part_ordinals parts.now.items) }
{
    let mut copies = Vec::new(alloc.clone()?);
    for part in parts {
        let copied = part.copy_in(alloc)?;
        copies.push(copied)?;
    }
    Ok(copies)
}

impl<A: Allocator, B: Allocator + Clone> Part<B> for FuncType<A> {
    ghost Value = { syntax.FuncType };

    ghost view = { func_type_view };

    ghost part_ordinals = { λ _. [] };

    ghost copy_view = { func_type_view };

    ghost copy_ordinals = { λ _. [] };

    type Copied = FuncType<B>;

    fn copy_in(&self, alloc: &B) -> Result<FuncType<B>, AllocError> {
        let params = Vec::from_slice(alloc.clone()?, &self.params)?;
        let results = Vec::from_slice(alloc.clone()?, &self.results)?;
        Ok(FuncType { params, results })
    }
}

impl<A: Allocator, B: Allocator + Clone> Part<B> for Import<A> {
    ghost Value = { syntax.Import };

    ghost view = { import_view };

    ghost part_ordinals = { λ _. [] };

    ghost copy_view = { import_view };

    ghost copy_ordinals = { λ _. [] };

    type Copied = Import<B>;

    fn copy_in(&self, alloc: &B) -> Result<Import<B>, AllocError> {
        let from_module = String::from_str(alloc.clone()?, self.from_module.as_str())?;
        let name = String::from_str(alloc.clone()?, self.name.as_str())?;
        let desc = self.desc;
        Ok(Import {
            from_module,
            name,
            desc,
        })
    }
}

impl<A: Allocator, B: Allocator + Clone> Part<B> for Func<A> {
    ghost Value = { syntax.Func };

    ghost view = { func_view };

    ghost part_ordinals = { func_ordinals };

    ghost copy_view = { func_view };

    ghost copy_ordinals = { func_ordinals };

    type Copied = Func<B>;

    fn copy_in(&self, alloc: &B) -> Result<Func<B>, AllocError> {
        let locals = Vec::from_slice(alloc.clone()?, &self.locals)?;
        let body = copy_instrs(&self.body, alloc)?;
        let type_index = self.type_index;
        Ok(Func {
            type_index,
            locals,
            body,
        })
    }
}

impl<A: Allocator, B: Allocator + Clone> Part<B> for Global<A> {
    ghost Value = { syntax.Global };

    ghost view = { global_view };

    ghost part_ordinals = { global_ordinals };

    ghost copy_view = { global_view };

    ghost copy_ordinals = { global_ordinals };

    type Copied = Global<B>;

    fn copy_in(&self, alloc: &B) -> Result<Global<B>, AllocError> {
        let init = copy_instrs(&self.init, alloc)?;
        let global_type = self.global_type;
        Ok(Global { global_type, init })
    }
}

impl<A: Allocator, B: Allocator + Clone> Part<B> for Export<A> {
    ghost Value = { syntax.Export };

    ghost view = { export_view };

    ghost part_ordinals = { λ _. [] };

    ghost copy_view = { export_view };

    ghost copy_ordinals = { λ _. [] };

    type Copied = Export<B>;

    fn copy_in(&self, alloc: &B) -> Result<Export<B>, AllocError> {
        let name = String::from_str(alloc.clone()?, self.name.as_str())?;
        let desc = self.desc;
        Ok(Export { name, desc })
    }
}

impl<A: Allocator, B: Allocator + Clone> Part<B> for Element<A> {
    ghost Value = { syntax.Element };

    ghost view = { element_view };

    ghost part_ordinals = { element_ordinals };

    ghost copy_view = { element_view };

    ghost copy_ordinals = { element_ordinals };

    type Copied = Element<B>;

    fn copy_in(&self, alloc: &B) -> Result<Element<B>, AllocError> {
        let offset = copy_instrs(&self.offset, alloc)?;
        let funcs = Vec::from_slice(alloc.clone()?, &self.funcs)?;
        let table = self.table;
        Ok(Element {
            table,
            offset,
            funcs,
        })
    }
}

impl<A: Allocator, B: Allocator + Clone> Part<B> for DataSegment<A> {
    ghost Value = { syntax.DataSegment };

    ghost view = { data_view };

    ghost part_ordinals = { data_ordinals };

    ghost copy_view = { data_view };

    ghost copy_ordinals = { data_ordinals };

    type Copied = DataSegment<B>;

    fn copy_in(&self, alloc: &B) -> Result<DataSegment<B>, AllocError> {
        let offset = copy_instrs(&self.offset, alloc)?;
        let bytes = Vec::from_slice(alloc.clone()?, &self.bytes)?;
        let memory = self.memory;
        Ok(DataSegment {
            memory,
            offset,
            bytes,
        })
    }
}

impl<A: Allocator> Module<A> {
    ghost use Rattle.module_tree.specs.Modules.{module_view};

    /// The same tree under another allocator.
    pub fn copy_in<B: Allocator + Clone>(&self, alloc: B) -> Result<Module<B>, NoMemory>
        ensures same_tree { IfOk result (λ m. module_view m ≡ module_view self.now) }
    {
        let types = copy_parts(&self.types, &alloc)?;
        let imports = copy_parts(&self.imports, &alloc)?;
        let funcs = copy_parts(&self.funcs, &alloc)?;
        let tables = Vec::from_slice(alloc.clone()?, &self.tables)?;
        let memories = Vec::from_slice(alloc.clone()?, &self.memories)?;
        let globals = copy_parts(&self.globals, &alloc)?;
        let exports = copy_parts(&self.exports, &alloc)?;
        let elements = copy_parts(&self.elements, &alloc)?;
        let datas = copy_parts(&self.datas, &alloc)?;
        let start = self.start;
        Ok(Module {
            types,
            imports,
            funcs,
            tables,
            memories,
            globals,
            exports,
            start,
            elements,
            datas,
        })
    }
}
