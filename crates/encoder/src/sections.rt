// Sections (Core Specification, 5.5.2 Sections). One is written where there is something in it.
ghost use Rattle.std.specs.Prelude.{◌≡◌, ◌++◌, length, take, OnOk};
ghost use Rattle.spec_modules.specs.Shortest.{list_section_bytes, start_bytes};
ghost use Rattle.encoder.specs.Groups.{head_bytes, middle_bytes, tail_bytes};

use crate::bytes::{Plainly, Spelled, put_byte, put_size, put_u32, put_vector};
use crate::items::{AsTable, AsTypeIndex};
use module_tree::module::{DataSegment, Element, Export, Func, Global, Import};
use std::alloc::{AllocError, Allocator};
use wtypes::{FuncType, Limits};

const HEADER: [u8; 8] = [0x00, 0x61, 0x73, 0x6D, 0x01, 0x00, 0x00, 0x00];

fn put_section<Form, T: Spelled<Form>, A: Allocator, B: Allocator>(
    out: &mut Vec<u8, B>,
    id: u8,
    items: &Vec<T, A>,
) -> Result<(), AllocError>
    ensures bytes { OnOk result (out.new.items ≡ out.old.items ++ list_section_bytes id T.spelling items.now.items) }
    ensures front { take (length out.old.items) out.new.items ≡ out.old.items }
{
    if items.is_empty() {
        return Ok(());
    }
    put_byte(out, id)?;
    let start = out.len();
    put_vector(out, items)?;
    put_size(out, start)
}

fn put_start<B: Allocator>(out: &mut Vec<u8, B>, start: Option<u32>) -> Result<(), AllocError>
    ensures bytes { OnOk result (out.new.items ≡ out.old.items ++ start_bytes start) }
    ensures front { take (length out.old.items) out.new.items ≡ out.old.items }
{
    let Some(func) = start else {
        return Ok(());
    };
    put_byte(out, 8)?;
    let begin = out.len();
    put_u32(out, func)?;
    put_size(out, begin)
}

// The header, types, imports and the types of functions.
pub(crate) fn put_head<A: Allocator, B: Allocator>(
    out: &mut Vec<u8, B>,
    types: &Vec<FuncType<A>, A>,
    imports: &Vec<Import<A>, A>,
    funcs: &Vec<Func<A>, A>,
) -> Result<(), AllocError>
    ensures bytes { OnOk result
        (out.new.items ≡ out.old.items ++ head_bytes types.now.items imports.now.items funcs.now.items) }
    ensures front { take (length out.old.items) out.new.items ≡ out.old.items }
{
    out.extend_from_slice(&HEADER)?;
    put_section::<Plainly, FuncType<A>, A, B>(out, 1, types)?;
    put_section::<Plainly, Import<A>, A, B>(out, 2, imports)?;
    put_section::<AsTypeIndex, Func<A>, A, B>(out, 3, funcs)
}

// Tables, memories, globals and exports.
pub(crate) fn put_middle<A: Allocator, B: Allocator>(
    out: &mut Vec<u8, B>,
    tables: &Vec<Limits, A>,
    memories: &Vec<Limits, A>,
    globals: &Vec<Global<A>, A>,
    exports: &Vec<Export<A>, A>,
) -> Result<(), AllocError>
    ensures bytes { OnOk result
        (out.new.items ≡ out.old.items
        ++ middle_bytes tables.now.items memories.now.items globals.now.items exports.now.items) }
    ensures front { take (length out.old.items) out.new.items ≡ out.old.items }
{
    put_section::<AsTable, Limits, A, B>(out, 4, tables)?;
    put_section::<Plainly, Limits, A, B>(out, 5, memories)?;
    put_section::<Plainly, Global<A>, A, B>(out, 6, globals)?;
    put_section::<Plainly, Export<A>, A, B>(out, 7, exports)
}

// The start function, element segments, bodies and data segments.
pub(crate) fn put_tail<A: Allocator, B: Allocator>(
    out: &mut Vec<u8, B>,
    start: Option<u32>,
    elements: &Vec<Element<A>, A>,
    funcs: &Vec<Func<A>, A>,
    datas: &Vec<DataSegment<A>, A>,
) -> Result<(), AllocError>
    ensures bytes { OnOk result
        (out.new.items ≡ out.old.items
        ++ tail_bytes start elements.now.items funcs.now.items datas.now.items) }
    ensures front { take (length out.old.items) out.new.items ≡ out.old.items }
{
    put_start(out, start)?;
    put_section::<Plainly, Element<A>, A, B>(out, 9, elements)?;
    put_section::<Plainly, Func<A>, A, B>(out, 10, funcs)?;
    put_section::<Plainly, DataSegment<A>, A, B>(out, 11, datas)
}
