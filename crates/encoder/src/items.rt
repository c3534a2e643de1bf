// The items of sections (Core Specification, 5.3 Types, 5.5 Modules).
ghost use Rattle.std.specs.Prelude.{◌≡◌, ◌++◌, length, take, OnOk};
ghost use Rattle.spec_modules.specs.Shortest.{u32_bytes, value_type_bytes, func_type_bytes, limits_bytes, table_type_bytes, global_type_bytes, import_desc_bytes, import_bytes, global_bytes, export_desc_bytes, export_bytes, element_bytes, code_bytes, data_segment_bytes};
ghost use Rattle.module_tree.specs.ModuleView.{func_type_view, limits_view, global_type_view, import_desc_view, import_view, func_view, global_view, export_desc_view, export_view, element_view, data_view};

use crate::bytes::{Plainly, Spelled, put_byte, put_size, put_text, put_u32, put_vector};
use crate::instrs::put_expression;
use crate::locals::put_locals;
use crate::opcodes::type_code;
use module_tree::module::{
    DataSegment, Element, Export, ExportDesc, Func, Global, GlobalType, Import, ImportDesc,
};
use std::alloc::{AllocError, Allocator};
use wtypes::{FuncType, Limits, ValType};

impl Spelled<Plainly> for ValType {
    ghost spelling = { value_type_bytes };

    fn put<B: Allocator>(&self, out: &mut Vec<u8, B>) -> Result<(), AllocError> {
        put_byte(out, type_code(*self))
    }
}

impl<A: Allocator> Spelled<Plainly> for FuncType<A> {
    ghost spelling = { λ t. func_type_bytes (func_type_view t) };

    fn put<B: Allocator>(&self, out: &mut Vec<u8, B>) -> Result<(), AllocError> {
        put_byte(out, 0x60)?;
        put_vector(out, &self.params)?;
        put_vector(out, &self.results)
    }
}

fn put_limits<B: Allocator>(out: &mut Vec<u8, B>, limits: Limits) -> Result<(), AllocError>
    ensures bytes { OnOk result (out.new.items ≡ out.old.items ++ limits_bytes (limits_view limits)) }
    ensures front { take (length out.old.items) out.new.items ≡ out.old.items }
{
    match limits.max {
        None => {
            put_byte(out, 0x00)?;
            put_u32(out, limits.min)
        }
        Some(max) => {
            put_byte(out, 0x01)?;
            put_u32(out, limits.min)?;
            put_u32(out, max)
        }
    }
}

fn put_table_type<B: Allocator>(out: &mut Vec<u8, B>, limits: Limits) -> Result<(), AllocError>
    ensures bytes { OnOk result (out.new.items ≡ out.old.items ++ table_type_bytes (limits_view limits)) }
    ensures front { take (length out.old.items) out.new.items ≡ out.old.items }
{
    put_byte(out, 0x70)?;
    put_limits(out, limits)
}

// Limits as the type of a memory.
impl Spelled<Plainly> for Limits {
    ghost spelling = { λ l. limits_bytes (limits_view l) };

    fn put<B: Allocator>(&self, out: &mut Vec<u8, B>) -> Result<(), AllocError> {
        put_limits(out, *self)
    }
}

// Limits as the type of a table.
pub(crate) struct AsTable;

impl Spelled<AsTable> for Limits {
    ghost spelling = { λ l. table_type_bytes (limits_view l) };

    fn put<B: Allocator>(&self, out: &mut Vec<u8, B>) -> Result<(), AllocError> {
        put_table_type(out, *self)
    }
}

fn put_global_type<B: Allocator>(
    out: &mut Vec<u8, B>,
    global_type: GlobalType,
) -> Result<(), AllocError>
    ensures bytes { OnOk result (out.new.items ≡ out.old.items ++ global_type_bytes (global_type_view global_type)) }
    ensures front { take (length out.old.items) out.new.items ≡ out.old.items }
{
    put_byte(out, type_code(global_type.value_type))?;
    if global_type.is_mutable {
        return put_byte(out, 0x01);
    }
    put_byte(out, 0x00)
}

fn put_import_desc<B: Allocator>(out: &mut Vec<u8, B>, desc: ImportDesc) -> Result<(), AllocError>
    ensures bytes { OnOk result (out.new.items ≡ out.old.items ++ import_desc_bytes (import_desc_view desc)) }
    ensures front { take (length out.old.items) out.new.items ≡ out.old.items }
{
    match desc {
        ImportDesc::Func(type_index) => {
            put_byte(out, 0x00)?;
            put_u32(out, type_index)
        }
        ImportDesc::Table(limits) => {
            put_byte(out, 0x01)?;
            put_table_type(out, limits)
        }
        ImportDesc::Memory(limits) => {
            put_byte(out, 0x02)?;
            put_limits(out, limits)
        }
        ImportDesc::Global(global_type) => {
            put_byte(out, 0x03)?;
            put_global_type(out, global_type)
        }
    }
}

impl<A: Allocator> Spelled<Plainly> for Import<A> {
    ghost spelling = { λ i. import_bytes (import_view i) };

    fn put<B: Allocator>(&self, out: &mut Vec<u8, B>) -> Result<(), AllocError> {
        put_text(out, self.from_module.as_bytes())?;
        put_text(out, self.name.as_bytes())?;
        put_import_desc(out, self.desc)
    }
}

fn put_export_desc<B: Allocator>(out: &mut Vec<u8, B>, desc: ExportDesc) -> Result<(), AllocError>
    ensures bytes { OnOk result (out.new.items ≡ out.old.items ++ export_desc_bytes (export_desc_view desc)) }
    ensures front { take (length out.old.items) out.new.items ≡ out.old.items }
{
    match desc {
        ExportDesc::Func(index) => {
            put_byte(out, 0x00)?;
            put_u32(out, index)
        }
        ExportDesc::Table(index) => {
            put_byte(out, 0x01)?;
            put_u32(out, index)
        }
        ExportDesc::Memory(index) => {
            put_byte(out, 0x02)?;
            put_u32(out, index)
        }
        ExportDesc::Global(index) => {
            put_byte(out, 0x03)?;
            put_u32(out, index)
        }
    }
}

impl<A: Allocator> Spelled<Plainly> for Export<A> {
    ghost spelling = { λ e. export_bytes (export_view e) };

    fn put<B: Allocator>(&self, out: &mut Vec<u8, B>) -> Result<(), AllocError> {
        put_text(out, self.name.as_bytes())?;
        put_export_desc(out, self.desc)
    }
}

impl<A: Allocator> Spelled<Plainly> for Global<A> {
    ghost spelling = { λ g. global_bytes (global_view g) };

    fn put<B: Allocator>(&self, out: &mut Vec<u8, B>) -> Result<(), AllocError> {
        put_global_type(out, self.global_type)?;
        put_expression(out, &self.init)
    }
}

impl<A: Allocator> Spelled<Plainly> for Element<A> {
    ghost spelling = { λ e. element_bytes (element_view e) };

    fn put<B: Allocator>(&self, out: &mut Vec<u8, B>) -> Result<(), AllocError> {
        put_u32(out, self.table)?;
        put_expression(out, &self.offset)?;
        put_vector(out, &self.funcs)
    }
}

impl<A: Allocator> Spelled<Plainly> for DataSegment<A> {
    ghost spelling = { λ d. data_segment_bytes (data_view d) };

    fn put<B: Allocator>(&self, out: &mut Vec<u8, B>) -> Result<(), AllocError> {
        put_u32(out, self.memory)?;
        put_expression(out, &self.offset)?;
        put_text(out, &self.bytes)
    }
}

// A function as the index of its type.
pub(crate) struct AsTypeIndex;

impl<A: Allocator> Spelled<AsTypeIndex> for Func<A> {
    ghost spelling = { λ f. u32_bytes f.type_index };

    fn put<B: Allocator>(&self, out: &mut Vec<u8, B>) -> Result<(), AllocError> {
        put_u32(out, self.type_index)
    }
}

// A function as its locals and its body.
impl<A: Allocator> Spelled<Plainly> for Func<A> {
    ghost spelling = { λ f. code_bytes (func_view f) };

    fn put<B: Allocator>(&self, out: &mut Vec<u8, B>) -> Result<(), AllocError> {
        let start = out.len();
        put_locals(out, &self.locals)?;
        put_expression(out, &self.body)?;
        put_size(out, start)
    }
}
