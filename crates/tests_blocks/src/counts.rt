// Counts and lengths at the edge of their range, of which the bytes are not there: each is refused in a heap of a few kilobytes, so no
// memory is taken for what is counted before its bytes are there.
use crate::assertions::equal;
use block::{BlockRefusal, read_block};
use linked_list_allocator::LocalHeap;
use loader::{LoadRefusal, load};
use module_tree::limit::Limit;
use std::alloc::Global;
use std::test::Fail;
use world::{ReadRefusal, read_world};

/// Room for the few items before a count, and for nothing that is counted.
const HEAP: usize = 4_096;

/// The bytes after a module's header, and the refusal.
type ModuleRow = (&'static str, &'static [u8], LoadRefusal);

/// Each count and length of a module is 2^32 - 1, at the end of its section.
const MODULES: &[ModuleRow] = &[
    (
        "the bytes of a section",
        &[0x01, 0xFF, 0xFF, 0xFF, 0xFF, 0x0F],
        LoadRefusal::Malformed(9),
    ),
    (
        "the name of a custom section",
        &[0x00, 0x05, 0xFF, 0xFF, 0xFF, 0xFF, 0x0F],
        LoadRefusal::Malformed(10),
    ),
    (
        "types",
        &[0x01, 0x05, 0xFF, 0xFF, 0xFF, 0xFF, 0x0F],
        LoadRefusal::Malformed(15),
    ),
    (
        "parameters",
        &[0x01, 0x07, 0x01, 0x60, 0xFF, 0xFF, 0xFF, 0xFF, 0x0F],
        LoadRefusal::Malformed(17),
    ),
    (
        "results",
        &[0x01, 0x08, 0x01, 0x60, 0x00, 0xFF, 0xFF, 0xFF, 0xFF, 0x0F],
        LoadRefusal::Malformed(18),
    ),
    (
        "imports",
        &[0x02, 0x05, 0xFF, 0xFF, 0xFF, 0xFF, 0x0F],
        LoadRefusal::Malformed(15),
    ),
    (
        "the name of an import's module",
        &[0x02, 0x06, 0x01, 0xFF, 0xFF, 0xFF, 0xFF, 0x0F],
        LoadRefusal::Malformed(11),
    ),
    (
        "functions",
        &[0x03, 0x05, 0xFF, 0xFF, 0xFF, 0xFF, 0x0F],
        LoadRefusal::TooLarge(Limit::Functions),
    ),
    (
        "tables",
        &[0x04, 0x05, 0xFF, 0xFF, 0xFF, 0xFF, 0x0F],
        LoadRefusal::Malformed(15),
    ),
    (
        "memories",
        &[0x05, 0x05, 0xFF, 0xFF, 0xFF, 0xFF, 0x0F],
        LoadRefusal::Malformed(15),
    ),
    (
        "globals",
        &[0x06, 0x05, 0xFF, 0xFF, 0xFF, 0xFF, 0x0F],
        LoadRefusal::Malformed(15),
    ),
    (
        "exports",
        &[0x07, 0x05, 0xFF, 0xFF, 0xFF, 0xFF, 0x0F],
        LoadRefusal::Malformed(15),
    ),
    (
        "elements",
        &[0x09, 0x05, 0xFF, 0xFF, 0xFF, 0xFF, 0x0F],
        LoadRefusal::Malformed(15),
    ),
    (
        "the functions of an element",
        &[
            0x09, 0x0A, 0x01, 0x00, 0x41, 0x00, 0x0B, 0xFF, 0xFF, 0xFF, 0xFF, 0x0F,
        ],
        LoadRefusal::Malformed(20),
    ),
    (
        "entries of code",
        &[0x0A, 0x05, 0xFF, 0xFF, 0xFF, 0xFF, 0x0F],
        LoadRefusal::Malformed(10),
    ),
    (
        "the bytes of an entry",
        &[
            0x03, 0x02, 0x01, 0x00, 0x0A, 0x06, 0x01, 0xFF, 0xFF, 0xFF, 0xFF, 0x0F,
        ],
        LoadRefusal::Malformed(15),
    ),
    (
        "runs of locals",
        &[
            0x03, 0x02, 0x01, 0x00, 0x0A, 0x07, 0x01, 0x05, 0xFF, 0xFF, 0xFF, 0xFF, 0x0F,
        ],
        LoadRefusal::Malformed(21),
    ),
    (
        "the locals of a run",
        &[
            0x03, 0x02, 0x01, 0x00, 0x0A, 0x0A, 0x01, 0x08, 0x01, 0xFF, 0xFF, 0xFF, 0xFF, 0x0F,
            0x7E, 0x0B,
        ],
        LoadRefusal::TooLarge(Limit::Locals),
    ),
    (
        "labels",
        &[
            0x03, 0x02, 0x01, 0x00, 0x0A, 0x0A, 0x01, 0x08, 0x00, 0x0E, 0xFF, 0xFF, 0xFF, 0xFF,
            0x0F, 0x0B,
        ],
        LoadRefusal::TooLarge(Limit::Labels),
    ),
    (
        "the bytes of a data segment",
        &[
            0x0B, 0x0A, 0x01, 0x00, 0x41, 0x00, 0x0B, 0xFF, 0xFF, 0xFF, 0xFF, 0x0F,
        ],
        LoadRefusal::Malformed(20),
    ),
];

/// What is answered to a module of these bytes after its header, in a small heap.
fn module_refusal(alloc: Global, bytes: &[u8]) -> Result<Option<LoadRefusal>, Fail> {
    let heap = LocalHeap::new(alloc, HEAP)?;
    let mut module = b"\0asm\x01\0\0\0".to_vec(alloc)?;
    module.extend_from_slice(bytes)?;
    Ok(load(&heap, &module).err())
}

#[test]
fn counts_of_modules(rt: HostRuntime) -> Result<(), Fail> {
    for (name, bytes, wanted) in MODULES {
        equal(
            &rt,
            name,
            &module_refusal(rt.alloc(), *bytes)?,
            &Some(*wanted),
        );
    }
    Ok(())
}

/// The bytes after a world's version, and the refusal.
type WorldRow = (&'static str, &'static [u8], ReadRefusal);

const WORLDS: &[WorldRow] = &[
    (
        "2^32 - 1 contracts",
        &[255, 255, 255, 255],
        ReadRefusal::TooLarge,
    ),
    ("1,025 contracts", &[1, 4, 0, 0], ReadRefusal::TooLarge),
    ("1,024 contracts", &[0, 4, 0, 0], ReadRefusal::Malformed(8)),
    (
        "a contract of 2^32 - 1 bytes",
        &[1, 0, 0, 0, 255, 255, 255, 255, 0, 0, 0, 0, 0, 0, 0, 0],
        ReadRefusal::Malformed(12),
    ),
    (
        "2^64 - 1 cells of maps",
        &[0, 0, 0, 0, 255, 255, 255, 255, 255, 255, 255, 255],
        ReadRefusal::Malformed(12),
    ),
    // They would take 2^64 + 4 bytes.
    (
        "922,337,203,685,477,581 cells of maps",
        &[
            0, 0, 0, 0, 0xCD, 0xCC, 0xCC, 0xCC, 0xCC, 0xCC, 0xCC, 0x0C, 1, 2, 3, 4,
        ],
        ReadRefusal::Malformed(12),
    ),
    (
        "2^64 - 1 counters",
        &[
            0, 0, 0, 0, 0, 0, 0, 0, 0, 0, 0, 0, 255, 255, 255, 255, 255, 255, 255, 255,
        ],
        ReadRefusal::Malformed(20),
    ),
    (
        "922,337,203,685,477,581 counters",
        &[
            0, 0, 0, 0, 0, 0, 0, 0, 0, 0, 0, 0, 0xCD, 0xCC, 0xCC, 0xCC, 0xCC, 0xCC, 0xCC, 0x0C, 1,
            2, 3, 4,
        ],
        ReadRefusal::Malformed(20),
    ),
];

/// What is answered to a world of these bytes after its version, in a small heap.
fn world_refusal(alloc: Global, bytes: &[u8]) -> Result<Option<ReadRefusal>, Fail> {
    let heap = LocalHeap::new(alloc, HEAP)?;
    let mut world = b"WBWD\x01\0\0\0".to_vec(alloc)?;
    world.extend_from_slice(bytes)?;
    Ok(read_world(&heap, &world).err())
}

#[test]
fn counts_of_worlds(rt: HostRuntime) -> Result<(), Fail> {
    for (name, bytes, wanted) in WORLDS {
        equal(
            &rt,
            name,
            &world_refusal(rt.alloc(), *bytes)?,
            &Some(*wanted),
        );
    }
    Ok(())
}

/// The bytes after a block's digests, and the refusal.
type BlockRow = (&'static str, &'static [u8], BlockRefusal);

const BLOCKS: &[BlockRow] = &[
    (
        "2^32 - 1 positions",
        &[255, 255, 255, 255],
        BlockRefusal::TooLarge,
    ),
    ("65,536 positions", &[0, 0, 1, 0], BlockRefusal::TooLarge),
    (
        "65,535 positions",
        &[255, 255, 0, 0],
        BlockRefusal::Malformed(72),
    ),
    (
        "255 values of a call",
        &[
            1, 0, 0, 0, 0, 0, 0, 0, 3, 0, 0, 0, 0, 0, 0, 0, 0, 255, 0, 0, 0, 0, 0, 0, 0, 0,
        ],
        BlockRefusal::Malformed(89),
    ),
    (
        "2^32 - 1 locks of a call",
        &[
            1, 0, 0, 0, 0, 0, 0, 0, 3, 0, 0, 0, 0, 0, 0, 0, 0, 0, 255, 255, 255, 255,
        ],
        BlockRefusal::Malformed(90),
    ),
    // They would take 2^32 + 14 bytes.
    (
        "238,609,295 locks of a call",
        &[
            1, 0, 0, 0, 0, 0, 0, 0, 3, 0, 0, 0, 0, 0, 0, 0, 0, 0, 0x8F, 0xE3, 0x38, 0x0E, 0, 0, 0,
            0, 0, 0, 0, 0, 0, 0, 0, 0, 0, 0,
        ],
        BlockRefusal::Malformed(90),
    ),
];

/// What is answered to a block of these bytes after its digests, in a small heap.
fn block_refusal(alloc: Global, bytes: &[u8]) -> Result<Option<BlockRefusal>, Fail> {
    let heap = LocalHeap::new(alloc, HEAP)?;
    let mut block = b"WBLK\x01\0\0\0".to_vec(alloc)?;
    block.resize(72, 9)?;
    block.extend_from_slice(bytes)?;
    Ok(read_block(&heap, &block).err())
}

#[test]
fn counts_of_blocks(rt: HostRuntime) -> Result<(), Fail> {
    for (name, bytes, wanted) in BLOCKS {
        equal(
            &rt,
            name,
            &block_refusal(rt.alloc(), *bytes)?,
            &Some(*wanted),
        );
    }
    Ok(())
}
