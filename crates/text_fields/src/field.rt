//! Fields one by one.
ghost use Rattle.std.specs.Prelude.{◌≡◌, [], true, map, IfOk, IfErr, string_bytes};
ghost use Rattle.std.specs.List.{list_all};
ghost use Rattle.spec_modules.specs.Limits.{expression_fits, limits_fit, import_desc_fits, export_desc_fits, import_fits, global_fits, export_fits, element_fits, data_fits, is_byte, counts_from};
ghost use Rattle.module_tree.specs.View.{instrs_view, ordinals};
ghost use Rattle.module_tree.specs.ModuleView.{limits_view, import_desc_view, import_view, func_view, global_type_view, global_view, export_desc_view, export_view, element_view, data_view, func_ordinals, global_ordinals, element_ordinals, data_ordinals};
ghost use Rattle.text_body.specs.Views.{text_of, index_of, binding_of, use_of, flats_of};
ghost use Rattle.text_tree.specs.Views.{bounds_of, kind_of, desc_of, field_of};
ghost use Rattle.text_resolve.specs.Outcome.{Gives};
ghost use Rattle.text_resolve.specs.declared.refusal.ResolveFault.TheVariants.{NoMemory};
ghost use Rattle.text_resolve.specs.Views.{spaces_of};
ghost use Rattle.text_fields.specs.Parts.{expression_at, bounds_at, desc_at, kind_at, exported, import_at, func_at, global_at, export_at, element_at, data_at, part_at, body_fits, part_fits};
ghost use Rattle.text_fields.specs.PartView.{part_view, is_numbered};

use crate::locals::{locals_of, no_locals, types_of};
use crate::part::Part;
use module_tree::instr::Instr;
use module_tree::module::{
    DataSegment, Element, Export, ExportDesc, Func, Global, Import, ImportDesc,
};
use std::alloc::Allocator;
use text_body::{Flat, Index};
use text_resolve::{
    ResolveFault, Space, Spaces, are_in_range, expression, index_in, indices_in, number,
    type_number,
};
use text_tree::{
    Bounds, DataField, Desc, ElemField, ExportField, Field, FuncField, GlobalField, ImportField,
    Kind,
};
use wtypes::Limits;

// The instructions of an expression.
fn instrs_of<'a, A: Allocator + Clone>(
    alloc: &A,
    spaces: &Spaces<'a, A>,
    locals: &Space<'a, A>,
    flats: &Vec<Flat<'a, A>, A>,
) -> Result<Vec<Instr<A>, A>, ResolveFault>
    ensures value { Gives (λ v. instrs_view v.items) result (expression_at (spaces_of spaces.now) (map text_of locals.now.names.items) (flats_of flats.now.items)) }
    ensures fits { IfOk result (λ v. expression_fits (instrs_view v.items) ≡ true) }
    ensures numbered { IfOk result (λ v. counts_from 0 (ordinals v.items) ≡ true) }
{
    expression(alloc, spaces, locals, flats)
}

// The instructions of an expression without locals.
fn constant_of<'a, A: Allocator + Clone>(
    alloc: &A,
    spaces: &Spaces<'a, A>,
    flats: &Vec<Flat<'a, A>, A>,
) -> Result<Vec<Instr<A>, A>, ResolveFault>
    ensures value { Gives (λ v. instrs_view v.items) result (expression_at (spaces_of spaces.now) [] (flats_of flats.now.items)) }
    ensures fits { IfOk result (λ v. expression_fits (instrs_view v.items) ≡ true) }
    ensures numbered { IfOk result (λ v. counts_from 0 (ordinals v.items) ≡ true) }
{
    let none = no_locals(alloc)?;
    instrs_of(alloc, spaces, &none, flats)
}

// The limits of a table or a memory.
fn limits_of(bounds: Bounds<'_>) -> Result<Limits, ResolveFault>
    ensures value { Gives limits_view result (bounds_at (bounds_of bounds.entry)) }
    ensures fits { IfOk result (λ l. limits_fit (limits_view l) ≡ true) }
{
    let min = number(bounds.min)?;
    match bounds.max {
        None => Ok(Limits { min, max: None }),
        Some(written) => {
            let max = number(written)?;
            Ok(Limits {
                min,
                max: Some(max),
            })
        }
    }
}

// What an import is.
fn desc_of<'a, A: Allocator + Clone>(
    alloc: &A,
    spaces: &Spaces<'a, A>,
    desc: &Desc<'a, A>,
) -> Result<ImportDesc, ResolveFault>
    ensures value { Gives import_desc_view result (desc_at (spaces_of spaces.now) (desc_of desc.now)) }
    ensures fits { IfOk result (λ d. import_desc_fits (import_desc_view d) ≡ true) }
{
    match desc {
        Desc::Func(written) => {
            let index = type_number(alloc, &spaces.types, &spaces.type_names, written)?;
            Ok(ImportDesc::Func(index))
        }
        Desc::Table(bounds) => {
            let limits = limits_of(*bounds)?;
            Ok(ImportDesc::Table(limits))
        }
        Desc::Memory(bounds) => {
            let limits = limits_of(*bounds)?;
            Ok(ImportDesc::Memory(limits))
        }
        Desc::Global(global_type) => Ok(ImportDesc::Global(*global_type)),
    }
}

// What an export is.
fn kind_of<'a, A: Allocator>(
    spaces: &Spaces<'a, A>,
    kind: Kind,
    index: Index<'a>,
) -> Result<ExportDesc, ResolveFault>
    ensures value { Gives export_desc_view result (kind_at (spaces_of spaces.now) (kind_of kind) (index_of index.entry)) }
    ensures fits { IfOk result (λ d. export_desc_fits (export_desc_view d) ≡ true) }
{
    match kind {
        Kind::Func => Ok(ExportDesc::Func(index_in(&spaces.funcs, index)?)),
        Kind::Table => Ok(ExportDesc::Table(index_in(&spaces.tables, index)?)),
        Kind::Memory => Ok(ExportDesc::Memory(index_in(&spaces.memories, index)?)),
        Kind::Global => Ok(ExportDesc::Global(index_in(&spaces.globals, index)?)),
    }
}

// The exports that stand in the field of a function.
fn exports_of<A: Allocator + Clone>(
    alloc: &A,
    items: &Vec<String<A>, A>,
    func: u32,
) -> Result<Vec<Export<A>, A>, ResolveFault>
    ensures exports { IfOk result (λ v. map export_view v.items ≡ map (exported func) (map string_bytes items.now.items)) }
    ensures fits { IfOk result (λ v. list_all export_fits (map export_view v.items) ≡ true) }
    ensures refused { IfErr result (λ e. e ≡ NoMemory) }
{
    let mut exports = Vec::new(alloc.clone()?);
    for item in items {
        let name = String::from_str(alloc.clone()?, item.as_str())?;
        let desc = ExportDesc::Func(func);
        exports.push(Export { name, desc })?;
    }
    Ok(exports)
}

// The import of a field.
fn import_of<'a, A: Allocator + Clone>(
    alloc: &A,
    spaces: &Spaces<'a, A>,
    field: &ImportField<'a, A>,
) -> Result<Import<A>, ResolveFault>
    ensures value { Gives import_view result (import_at (spaces_of spaces.now) (string_bytes field.now.from_module) (string_bytes field.now.item) (desc_of field.now.desc)) }
    ensures fits { IfOk result (λ i. import_fits (import_view i) ≡ true) }
{
    let desc = desc_of(alloc, spaces, &field.desc)?;
    let from_module = String::from_str(alloc.clone()?, field.from_module.as_str())?;
    let name = String::from_str(alloc.clone()?, field.item.as_str())?;
    Ok(Import {
        from_module,
        name,
        desc,
    })
}

// The function of a field.
fn func_of<'a, A: Allocator + Clone>(
    alloc: &A,
    spaces: &Spaces<'a, A>,
    field: &FuncField<'a, A>,
) -> Result<Func<A>, ResolveFault>
    ensures value { Gives func_view result (func_at (spaces_of spaces.now) (use_of field.now.written) (map binding_of field.now.locals.items) (flats_of field.now.body.items)) }
    ensures in_range { IfOk result (λ f. body_fits (func_view f) ≡ true) }
    ensures numbered { IfOk result (λ f. counts_from 0 (func_ordinals f) ≡ true) }
{
    let type_index = type_number(alloc, &spaces.types, &spaces.type_names, &field.written)?;
    let space = locals_of(
        alloc,
        &spaces.types,
        &field.written,
        type_index,
        &field.locals,
    )?;
    let body = instrs_of(alloc, spaces, &space, &field.body)?;
    let locals = types_of(alloc, &field.locals)?;
    Ok(Func {
        type_index,
        locals,
        body,
    })
}

// The global of a field.
fn global_of<'a, A: Allocator + Clone>(
    alloc: &A,
    spaces: &Spaces<'a, A>,
    field: &GlobalField<'a, A>,
) -> Result<Global<A>, ResolveFault>
    ensures value { Gives global_view result (global_at (spaces_of spaces.now) (global_type_view field.now.global_type) (flats_of field.now.init.items)) }
    ensures fits { IfOk result (λ g. global_fits (global_view g) ≡ true) }
    ensures numbered { IfOk result (λ g. counts_from 0 (global_ordinals g) ≡ true) }
{
    let init = constant_of(alloc, spaces, &field.init)?;
    Ok(Global {
        global_type: field.global_type,
        init,
    })
}

// The export of a field.
fn export_of<'a, A: Allocator + Clone>(
    alloc: &A,
    spaces: &Spaces<'a, A>,
    field: &ExportField<'a, A>,
) -> Result<Export<A>, ResolveFault>
    ensures value { Gives export_view result (export_at (spaces_of spaces.now) (string_bytes field.now.item) (kind_of field.now.kind) (index_of field.now.index)) }
    ensures fits { IfOk result (λ e. export_fits (export_view e) ≡ true) }
{
    let desc = kind_of(spaces, field.kind, field.index)?;
    let name = String::from_str(alloc.clone()?, field.item.as_str())?;
    Ok(Export { name, desc })
}

// The element segment of a field.
fn element_of<'a, A: Allocator + Clone>(
    alloc: &A,
    spaces: &Spaces<'a, A>,
    field: &ElemField<'a, A>,
) -> Result<Element<A>, ResolveFault>
    ensures value { Gives element_view result (element_at (spaces_of spaces.now) (index_of field.now.table) (flats_of field.now.offset.items) (map index_of field.now.funcs.items)) }
    ensures fits { IfOk result (λ e. element_fits (element_view e) ≡ true) }
    ensures numbered { IfOk result (λ e. counts_from 0 (element_ordinals e) ≡ true) }
{
    let table = index_in(&spaces.tables, field.table)?;
    let offset = constant_of(alloc, spaces, &field.offset)?;
    let funcs = indices_in(alloc, &spaces.funcs, &field.funcs)?;
    are_in_range(&funcs);
    Ok(Element {
        table,
        offset,
        funcs,
    })
}

// The numbers of bytes are in the range of their type.
fn are_bytes<A: Allocator>(bytes: &Vec<u8, A>)
    ensures { list_all is_byte bytes.now.items ≡ true }
{
    let _len = bytes.len();
}

// The data segment of a field.
fn data_of<'a, A: Allocator + Clone>(
    alloc: &A,
    spaces: &Spaces<'a, A>,
    field: &DataField<'a, A>,
) -> Result<DataSegment<A>, ResolveFault>
    ensures value { Gives data_view result (data_at (spaces_of spaces.now) (index_of field.now.memory) (flats_of field.now.offset.items) field.now.bytes.items) }
    ensures fits { IfOk result (λ d. data_fits (data_view d) ≡ true) }
    ensures numbered { IfOk result (λ d. counts_from 0 (data_ordinals d) ≡ true) }
{
    let memory = index_in(&spaces.memories, field.memory)?;
    let offset = constant_of(alloc, spaces, &field.offset)?;
    let bytes = Vec::from_slice(alloc.clone()?, &field.bytes)?;
    are_bytes(&bytes);
    Ok(DataSegment {
        memory,
        offset,
        bytes,
    })
}

/// What a field makes of a module, where its function, if it defines one, has this number.
pub fn part_of<'a, A: Allocator + Clone>(
    alloc: &A,
    spaces: &Spaces<'a, A>,
    field: &Field<'a, A>,
    func: u32,
) -> Result<Part<A>, ResolveFault>
    ensures part { Gives part_view result (part_at (spaces_of spaces.now) func (field_of field.now)) }
    ensures in_range { IfOk result (λ p. part_fits (part_view p) ≡ true) }
    ensures numbered { IfOk result (λ p. is_numbered p ≡ true) }
{
    match field {
        Field::Type(_) => Ok(Part::Nothing),
        Field::Import(field) => Ok(Part::Import(import_of(alloc, spaces, field)?)),
        Field::Func(field) => {
            let own = func_of(alloc, spaces, field)?;
            let exports = exports_of(alloc, &field.exports, func)?;
            Ok(Part::Func(own, exports))
        }
        Field::Table(field) => Ok(Part::Table(limits_of(field.bounds)?)),
        Field::Memory(field) => Ok(Part::Memory(limits_of(field.bounds)?)),
        Field::Global(field) => Ok(Part::Global(global_of(alloc, spaces, field)?)),
        Field::Export(field) => Ok(Part::Export(export_of(alloc, spaces, field)?)),
        Field::Start(index) => Ok(Part::Start(index_in(&spaces.funcs, *index)?)),
        Field::Elem(field) => Ok(Part::Element(element_of(alloc, spaces, field)?)),
        Field::Data(field) => Ok(Part::Data(data_of(alloc, spaces, field)?)),
    }
}
