// Random bytes, and random bytes behind what a file of each kind begins with, read as a module, as a world, as a block and as a text:
// each reader answers, and where it names a place, the bytes have it.
ghost use Rattle.std.specs.Prelude.{◌<◌};

use crate::assertions::equal;
use block::{BlockRefusal, read_block};
use lexer::{LexRefusal, tokens};
use loader::{LoadRefusal, load};
use rand_core::Rng;
use rand_pcg::Pcg32;
use std::alloc::{AllocError, Global};
use std::str;
use world::{ReadRefusal, read_world};

/// What a file begins with: nothing that is known, or a module's, a world's or a block's first bytes.
const FRONTS: [&[u8]; 4] = [
    b"",
    b"\0asm\x01\0\0\0",
    b"WBWD\x01\0\0\0",
    b"WBLK\x01\0\0\0",
];

/// Bytes of which texts are made.
const LETTERS: [u8; 32] = *b"(((;;;)))\"\"\"\\\\ \n\tnu{}0x9_-$azA.=";

/// The front, with so many random bytes after it.
fn noise(
    alloc: Global,
    random: &mut Pcg32,
    front: &[u8],
    size: u32,
) -> Result<Vec<u8>, AllocError> {
    let mut bytes = front.to_vec(alloc)?;
    for _ in 0..size {
        bytes.push((random.next_u32() >> 24) as u8)?;
    }
    Ok(bytes)
}

/// Whether loading answers, at a place within the bytes.
fn loads(alloc: Global, bytes: &[u8]) -> bool {
    match load(alloc, bytes) {
        Err(LoadRefusal::Malformed(at) | LoadRefusal::Unsupported(at)) => at <= bytes.len(),
        answer => !matches!(answer, Err(LoadRefusal::NoMemory)),
    }
}

/// The same of reading a world.
fn reads_world(alloc: Global, bytes: &[u8]) -> bool {
    match read_world(alloc, bytes) {
        Err(ReadRefusal::Malformed(at)) => at <= bytes.len(),
        answer => !matches!(answer, Err(ReadRefusal::NoMemory)),
    }
}

/// The same of reading a block.
fn reads_block(alloc: Global, bytes: &[u8]) -> bool {
    match read_block(alloc, bytes) {
        Err(BlockRefusal::Malformed(at)) => at <= bytes.len(),
        answer => !matches!(answer, Err(BlockRefusal::NoMemory)),
    }
}

/// The same of a text.
fn lexes(alloc: Global, text: &str) -> bool {
    match tokens(alloc, text) {
        Err(LexRefusal::BadToken(at) | LexRefusal::Unclosed(at)) => at < text.len(),
        answer => !matches!(answer, Err(LexRefusal::NoMemory)),
    }
}

/// The same of two texts: the bytes without their highest bits, and letters for the bytes.
fn both_lex(alloc: Global, bytes: &[u8]) -> Result<bool, AllocError> {
    let mut ascii = Vec::new(alloc);
    let mut letters = Vec::new(alloc);
    for byte in bytes {
        ascii.push(*byte & 0x7F)?;
        letters.push(LETTERS[usize::from(*byte % 32)])?;
    }
    match (str::from_utf8(&ascii), str::from_utf8(&letters)) {
        (Ok(ascii), Ok(letters)) => Ok(lexes(alloc, ascii) && lexes(alloc, letters)),
        _ => Ok(false),
    }
}

/// Whether each reader answers to a file with this front.
fn is_answered(
    alloc: Global,
    random: &mut Pcg32,
    front: &[u8],
    size: u32,
) -> Result<bool, AllocError> {
    let bytes = noise(alloc, random, front, size)?;
    let read = loads(alloc, &bytes) && reads_world(alloc, &bytes) && reads_block(alloc, &bytes);
    Ok(read && both_lex(alloc, &bytes)?)
}

/// The first file to which a reader does not answer.
fn fault(
    alloc: Global,
    files: u32,
    least: u32,
    sizes: u32,
) -> Result<Option<(u32, usize)>, AllocError>
    requires { 0 < sizes }
{
    let mut random = Pcg32::new(42, 54);
    for file in 0..files {
        for (number, front) in FRONTS.iter().enumerate() {
            let size = least.saturating_add(random.next_u32() % sizes);
            if !is_answered(alloc, &mut random, *front, size)? {
                return Ok(Some((file, number)));
            }
        }
    }
    Ok(None)
}

#[test]
fn two_thousand_small_files(rt: HostRuntime) -> Result<(), AllocError> {
    equal(&rt, &"small files", &fault(rt.alloc(), 500, 0, 293)?, &None);
    Ok(())
}

#[test]
fn a_million_bytes(rt: HostRuntime) -> Result<(), AllocError> {
    equal(
        &rt,
        &"a large file",
        &fault(rt.alloc(), 1, 1_000_000, 1)?,
        &None,
    );
    Ok(())
}
