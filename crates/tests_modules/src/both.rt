use crate::assertions::{equal, holds};
use crate::loading::HEADER;
use bumpalo::Bump;
use encoder::encode;
use leb::write_u32;
use linked_list_allocator::LocalHeap;
use loader::{LoadRefusal, load};
use module_tree::limit::Limit;
use module_tree::module::Module;
use std::alloc::{Allocator, Global};
use std::process::Abort;
use std::test::Fail;
use test_support::EXAMPLE;

/// The shortest spelling of a module.
pub(crate) fn encoded<A: Allocator>(
    a: Global,
    module: &Module<A>,
) -> Result<Vec<u8, Global>, Fail> {
    let mut out = Vec::new(a);
    encode(module, &mut out)?;
    Ok(out)
}

// Whether the module has the example's functions and imports.
fn is_example<A: Allocator>(module: &Module<A>) -> bool {
    module.funcs.len() == 6
        && module.imports.len() == 4
        && matches!(module.imports.last(), Some(import) if import.name.as_str() == "put")
}

#[test]
fn in_an_arena(rt: HostRuntime) -> Result<(), Fail> {
    let arena = Bump::new(rt.alloc());
    let module = load(&arena, EXAMPLE)?;
    holds(&rt, &"the example", is_example(&module));
    let mut out = Vec::new(&arena);
    encode(&module, &mut out)?;
    equal(&rt, &"its bytes", &out.as_slice(), &EXAMPLE);
    Ok(())
}

// How many functions the example has in the heap.
fn functions_in(heap: &LocalHeap) -> Result<usize, LoadRefusal> {
    Ok(load(heap, EXAMPLE)?.funcs.len())
}

// How many functions the example has in a heap of this size, which is given back.
fn in_heap(rt: &impl Abort, a: Global, size: usize) -> Result<Result<usize, LoadRefusal>, Fail> {
    let heap = LocalHeap::new(a, size)?;
    let before = heap.used();
    let answer = functions_in(&heap);
    equal(rt, &size, &heap.used(), &before);
    Ok(answer)
}

// In heaps of rising size the module is refused for lack of memory alone, until it fits; what was taken is given back.
#[test]
fn in_heaps_of_fixed_size(rt: HostRuntime) -> Result<(), Fail> {
    let mut refused = 0u32;
    let mut loaded = 0u32;
    for step in 1..200 {
        match in_heap(&rt, rt.alloc(), 100 * step)? {
            Ok(functions) => {
                equal(&rt, &("functions", step), &functions, &6);
                loaded = loaded.saturating_add(1);
            }
            Err(refusal) => {
                equal(&rt, &step, &refusal, &LoadRefusal::NoMemory);
                equal(&rt, &("loaded before", step), &loaded, &0);
                refused = refused.saturating_add(1);
            }
        }
    }
    holds(&rt, &(refused, loaded), refused > 0 && loaded > 0);
    Ok(())
}

// The empty module's spelling is put behind what is there.
#[test]
fn bytes_before_stay(rt: HostRuntime) -> Result<(), Fail> {
    let module = load(rt.alloc(), &HEADER)?;
    let mut bytes = [7, 9].to_vec(rt.alloc())?;
    encode(&module, &mut bytes)?;
    let wanted = [7, 9, 0x00, 0x61, 0x73, 0x6D, 0x01, 0x00, 0x00, 0x00];
    equal(&rt, &"the bytes", &bytes.as_slice(), &wanted.as_slice());
    Ok(())
}

// A buffer that can't grow far enough is as it was.
#[test]
fn a_full_buffer_is_as_it_was(rt: HostRuntime) -> Result<(), Fail> {
    let module = load(rt.alloc(), EXAMPLE)?;
    let heap = LocalHeap::new(rt.alloc(), 150)?;
    let mut bytes = Vec::new(&heap);
    bytes.push(7)?;
    let is_refused = encode(&module, &mut bytes).is_err();
    holds(&rt, &"a refusal", is_refused);
    equal(&rt, &"the buffer", &bytes.as_slice(), &[7].as_slice());
    Ok(())
}

// A module of one function with so many blocks in one another, at least 16 and at most 8,000: two bytes spell each size.
fn nested(a: Global, blocks: u32) -> Result<Vec<u8, Global>, Fail> {
    let mut bytes = HEADER.to_vec(a)?;
    bytes.extend_from_slice(&[
        0x01, 0x04, 0x01, 0x60, 0x00, 0x00, 0x03, 0x02, 0x01, 0x00, 0x0A,
    ])?;
    let body = blocks.saturating_mul(3).saturating_add(2);
    write_u32(&mut bytes, body.saturating_add(3))?;
    bytes.push(0x01)?;
    write_u32(&mut bytes, body)?;
    bytes.push(0x00)?;
    for _i in 0..blocks {
        bytes.extend_from_slice(&[0x02, 0x40])?;
    }
    for _i in 0..blocks {
        bytes.push(0x0B)?;
    }
    bytes.push(0x0B)?;
    Ok(bytes)
}

// What is to hold of a body of 128 nested blocks.
fn is_nested<A: Allocator>(module: &Module<A>) -> bool {
    module.depth() == 128 && module.instr_at(0, 127).is_some() && module.instr_at(0, 128).is_none()
}

/// The refusal of bytes in this allocator.
pub(crate) fn refusal<A: Allocator + Clone>(a: A, bytes: &[u8]) -> Option<LoadRefusal> {
    load(a, bytes).err()
}

// The module is of 128 nested blocks, and is spelled by these bytes.
fn assert_nested<A: Allocator>(
    rt: &impl Abort,
    a: Global,
    module: &Module<A>,
    bytes: &Vec<u8, Global>,
) -> Result<(), Fail> {
    holds(rt, &"nested", is_nested(module));
    equal(rt, &"its bytes", &encoded(a, module)?, bytes);
    Ok(())
}

// 128 nested blocks are loaded in this allocator, and there and copied to the machine's memory they are spelled by the same bytes.
fn are_copied_out<A: Allocator + Clone>(rt: &impl Abort, a: Global, other: A) -> Result<(), Fail> {
    let bytes = nested(a, 128)?;
    let module = load(other, &bytes)?;
    assert_nested(rt, a, &module, &bytes)?;
    let copied = module.copy_in(a)?;
    assert_nested(rt, a, &copied, &bytes)
}

// 128 nested blocks in the machine's memory, in an arena, in a heap and as a copy are one tree; 129 are refused.
#[test]
fn nested_blocks_under_each_allocator(rt: HostRuntime) -> Result<(), Fail> {
    let arena = Bump::new(rt.alloc());
    are_copied_out(&rt, rt.alloc(), rt.alloc())?;
    are_copied_out(&rt, rt.alloc(), &arena)?;
    Ok(())
}

#[test]
fn nested_blocks_in_a_heap(rt: HostRuntime) -> Result<(), Fail> {
    let bytes = nested(rt.alloc(), 128)?;
    let heap = LocalHeap::new(rt.alloc(), 100_000)?;
    are_copied_out(&rt, rt.alloc(), &heap)?;
    let copied = load(rt.alloc(), &bytes)?.copy_in(&heap)?;
    holds(&rt, &"the copy", is_nested(&copied));
    Ok(())
}

#[test]
fn deeper_blocks_under_each_allocator(rt: HostRuntime) -> Result<(), Fail> {
    let bytes = nested(rt.alloc(), 129)?;
    let arena = Bump::new(rt.alloc());
    let too_large = Some(LoadRefusal::TooLarge(Limit::Nesting));
    equal(&rt, &"memory", &refusal(rt.alloc(), &bytes), &too_large);
    equal(&rt, &"an arena", &refusal(&arena, &bytes), &too_large);
    Ok(())
}
