// Trees and working memory in heaps of fixed size.
use crate::assertions::{equal, holds};
use crate::both::encoded;
use crate::loading::HEADER;
use crate::verdict::Verdict::{self, Deployed, NoMemory};
use crate::verdict::verdict_in;
use link::deploy::deploy;
use link::deployed::Deployed as Contract;
use link::refusal::LinkRefusal;
use linked_list_allocator::LocalHeap;
use loader::{LoadRefusal, load};
use module_tree::module::Module;
use std::alloc::{AllocError, Global};
use std::process::Abort;
use std::test::Fail;
use test_support::{EXAMPLE, deployed, typed};
use typing::valid::Valid;
use wtypes::HostCall;

// The example in the second heap, by a copy of it that was linked in the first heap.
fn copied_twice<'h>(
    a: Global,
    first: &LocalHeap,
    second: &'h LocalHeap,
) -> Result<Contract<&'h LocalHeap>, Fail> {
    let copy = typed(a, EXAMPLE)?.copy_in(first)?;
    let deployed = deploy(&first, copy).ok().ok_or("not linked")?;
    Ok(deployed.copy_in(second)?)
}

const HOSTS: [HostCall; 4] = [HostCall::Add, HostCall::Total, HostCall::Get, HostCall::Put];

fn assert_example(rt: &impl Abort, contract: &Contract<&LocalHeap>) {
    equal(rt, &"functions", &contract.module().funcs.len(), &6);
    equal(rt, &"exports", &contract.module().exports.len(), &6);
    equal(rt, &"hosts", &contract.hosts(), &HOSTS.as_slice());
    equal(rt, &"import 3", &contract.import(3), &Some(HostCall::Put));
    equal(rt, &"import 4", &contract.import(4), &None);
}

#[test]
fn copies(rt: HostRuntime) -> Result<(), Fail> {
    let first = LocalHeap::new(rt.alloc(), 1_048_576)?;
    let second = LocalHeap::new(rt.alloc(), 1_048_576)?;
    let again = copied_twice(rt.alloc(), &first, &second)?;
    equal(&rt, &"used in the first heap", &first.used(), &0);
    assert_example(&rt, &again);
    Ok(())
}

// Whether the contract is copied into a heap of so many bytes, which is empty again behind it.
fn is_copied(
    rt: &impl Abort,
    a: Global,
    contract: &Contract<Global>,
    bytes: usize,
) -> Result<bool, Fail> {
    let heap = LocalHeap::new(a, bytes)?;
    let is_copied = contract.copy_in(&heap).is_ok();
    equal(rt, &("used of", bytes), &heap.used(), &0);
    Ok(is_copied)
}

// A refused copy leaves the heap empty.
#[test]
fn copies_in_small_heaps(rt: HostRuntime) -> Result<(), Fail> {
    let deployed = deployed(rt.alloc(), EXAMPLE)?;
    let mut refused = 0u32;
    let mut copied = 0u32;
    for size in 4..512usize {
        if is_copied(&rt, rt.alloc(), &deployed, 16 * size)? {
            copied = copied.saturating_add(1);
        } else {
            refused = refused.saturating_add(1);
        }
    }
    holds(&rt, &(refused, copied), refused > 0 && copied > 0);
    Ok(())
}

// Takes up a heap of some thousand bytes.
fn filled(a: Global, heap: &LocalHeap) -> Result<Vec<Vec<u8, &LocalHeap>>, AllocError> {
    let mut blocks = Vec::new(a);
    for size in [1024, 256, 64, 16] {
        for _ in 0..64 {
            if let Ok(block) = Vec::with_capacity(heap, size) {
                blocks.push(block)?;
            }
        }
    }
    Ok(blocks)
}

// The example in the heap, and why it is not linked while all the heap is taken.
fn unlinked<'h>(
    a: Global,
    heap: &'h LocalHeap,
) -> Result<(Valid<&'h LocalHeap>, LinkRefusal), Fail> {
    let copy = typed(a, EXAMPLE)?.copy_in(heap)?;
    let _blocks = filled(a, heap)?;
    Ok(deploy(&heap, copy).err().ok_or("deployed")?)
}

// A module that is refused for memory is deployed once there is some.
#[test]
fn host_calls_without_room(rt: HostRuntime) -> Result<(), Fail> {
    let heap = LocalHeap::new(rt.alloc(), 8_192)?;
    let (valid, refusal) = unlinked(rt.alloc(), &heap)?;
    equal(&rt, &"a full heap", &refusal, &LinkRefusal::NoMemory);
    let is_deployed = deploy(&&heap, valid).is_ok();
    holds(&rt, &"some room", is_deployed);
    Ok(())
}

// What is answered to the example where the check works in a heap of so many bytes, which is empty again behind it.
fn verdict_by(rt: &impl Abort, a: Global, bytes: usize) -> Result<Verdict, Fail> {
    let heap = LocalHeap::new(a, bytes)?;
    let verdict = verdict_in(a, &&heap, load(a, EXAMPLE)?);
    equal(rt, &("used of", bytes), &heap.used(), &0);
    Ok(verdict)
}

#[test]
fn working_memory_in_small_heaps(rt: HostRuntime) -> Result<(), Fail> {
    let mut refused = 0u32;
    let mut passed = 0u32;
    for size in 4..256usize {
        let verdict = verdict_by(&rt, rt.alloc(), 16 * size)?;
        if verdict == NoMemory {
            refused = refused.saturating_add(1);
        } else {
            equal(&rt, &size, &verdict, &Deployed);
            passed = passed.saturating_add(1);
        }
    }
    holds(&rt, &(refused, passed), refused > 0 && passed > 0);
    Ok(())
}

// The module of one function of 1,000 `nop`.
fn nops(a: Global) -> Result<Vec<u8>, AllocError> {
    let mut bytes = HEADER.to_vec(a)?;
    bytes.extend_from_slice(FRONT)?;
    for _ in 0..1_000 {
        bytes.push(0x01)?;
    }
    bytes.push(0x0B)?;
    Ok(bytes)
}

// Its type section, its function section, and its code section up to the first `nop`.
const FRONT: &[u8] = &[
    0x01, 0x04, 0x01, 0x60, 0x00, 0x00, 0x03, 0x02, 0x01, 0x00, 0x0A, 0xED, 0x07, 0x01, 0xEA, 0x07,
    0x00,
];

// Whether the load of the bytes wants more memory than the heap has, which is empty again behind it.
fn is_too_large(rt: &impl Abort, heap: &LocalHeap, bytes: &[u8]) -> bool {
    let refusal = load(heap, bytes).err();
    equal(rt, &"used of the small heap", &heap.used(), &0);
    refusal == Some(LoadRefusal::NoMemory)
}

// The tree in the heap spells the bytes.
fn assert_tree(
    rt: &impl Abort,
    a: Global,
    place: &str,
    tree: &Module<&LocalHeap>,
    bytes: &[u8],
) -> Result<(), Fail> {
    holds(rt, &place, encoded(a, tree)?.as_slice() == bytes);
    Ok(())
}

// A load that one heap has no room for leaves a tree in another as it was.
#[test]
fn a_refused_load_beside_a_tree(rt: HostRuntime) -> Result<(), Fail> {
    let small = LocalHeap::new(rt.alloc(), 1_024)?;
    let other = LocalHeap::new(rt.alloc(), 1_048_576)?;
    let bytes = nops(rt.alloc())?;
    let tree = load(&other, &bytes).ok().ok_or("not loaded")?;
    let used = other.used();
    assert_tree(&rt, rt.alloc(), "before", &tree, &bytes)?;
    let is_refused = is_too_large(&rt, &small, &bytes);
    holds(&rt, &"a heap of 1,024 bytes", is_refused);
    assert_tree(&rt, rt.alloc(), "after", &tree, &bytes)?;
    equal(&rt, &"used of the other heap", &other.used(), &used);
    Ok(())
}
