//! What compilers write that WebAssembly 1.0 has not, and what turns it off.

ghost use Rattle.std.specs.Prelude.{◌<◌, IfSome, length};

use std::alloc::{AllocError, Global};

/// What a compiler wrote that this profile has not.
#[derive(Clone, Copy, Debug, PartialEq, Eq)]
pub(crate) enum Extension {
    /// `memory.copy`, `memory.fill` and their like, passive segments, and the section of data counts.
    BulkMemory,
    /// Types of references, `table.get` and its like, the `select` with a type, and a table that `call_indirect` names.
    ReferenceTypes,
    /// `return_call` and `return_call_indirect`.
    TailCalls,
    /// `v128` and its instructions.
    Simd,
    /// Atomic instructions and shared memories.
    Threads,
    /// Blocks whose type an index names.
    MultiValue,
    /// Memories and tables whose addresses have 64 bits.
    Memory64,
    /// Conversions from floating point.
    Floats,
    /// An object file, which is not linked.
    ObjectFile,
}

/// What is said of floating point.
pub(crate) const FLOATS: &str =
    "a form of the standard that this profile leaves out: `f32`, `f64` and their instructions; no option of a compiler turns them off: use integers alone";

impl Extension {
    /// What it is, and what turns it off.
    pub(crate) fn words(self, alloc: Global) -> Result<String, AllocError> {
        let (name, option) = match self {
            Extension::BulkMemory => ("bulk memory", "-mno-bulk-memory"),
            Extension::ReferenceTypes => ("reference types", "-mno-reference-types"),
            Extension::TailCalls => ("tail calls", "-mno-tail-call"),
            Extension::Simd => ("SIMD", "-mno-simd128"),
            Extension::Threads => ("threads", "-mno-atomics and without -pthread"),
            Extension::MultiValue => ("multi-value", "-mno-multivalue"),
            Extension::Memory64 => {
                return "the module is of wasm64; compile with --target=wasm32-unknown-unknown".to_string(
                    alloc,
                );
            }
            Extension::Floats => return FLOATS.to_string(alloc),
            Extension::ObjectFile => {
                return "this is an object file; link it: leave -c and -r out".to_string(alloc);
            }
        };
        format!(in alloc;
            "{name} came after WebAssembly 1.0; compile with {option}, or with -mcpu=mvp -msign-ext for all of that kind (clang), or for wasm32v1-none (Rust)"
        )
    }
}

/// The extension of a type of values, by its byte.
fn of_type(byte: u8) -> Option<Extension> {
    match byte {
        0x7B => Some(Extension::Simd),
        0x6F | 0x70 => Some(Extension::ReferenceTypes),
        _ => None,
    }
}

/// The extension of limits, by their first byte.
fn of_limits(byte: u8) -> Option<Extension> {
    match byte {
        0x02 | 0x03 => Some(Extension::Threads),
        0x04..=0x07 => Some(Extension::Memory64),
        _ => None,
    }
}

/// The extension of an instruction that begins with 0xFC, by its second byte.
fn of_prefixed(byte: u8) -> Extension {
    match byte {
        0x00..=0x07 => Extension::Floats,
        0x08..=0x0E => Extension::BulkMemory,
        _ => Extension::ReferenceTypes,
    }
}

/// The extension of what is refused in an expression, by the byte before it and its first two. Bytes of instructions that this profile has are
/// refused as the type of a block, or as the table of `call_indirect`.
fn of_instruction(before: u8, byte: u8, next: u8) -> Option<Extension> {
    match byte {
        0xFC => Some(of_prefixed(next)),
        0xFD => Some(Extension::Simd),
        0xFE => Some(Extension::Threads),
        0x12 | 0x13 => Some(Extension::TailCalls),
        0x1C | 0x25 | 0x26 | 0xD0..=0xD2 => Some(Extension::ReferenceTypes),
        0x00..=0x3F | 0x80..=0xBF if matches!(before, 0x02..=0x04) => Some(Extension::MultiValue),
        0x80 => Some(Extension::ReferenceTypes),
        _ => of_type(byte),
    }
}

/// The extension of what is refused in the section of this number, by the byte before it and its first two.
fn of_section(id: u8, before: u8, byte: u8, next: u8) -> Option<Extension> {
    match id {
        2 if before == 0x02 => of_limits(byte),
        1 | 2 => of_type(byte),
        4 if byte == 0x6F => Some(Extension::ReferenceTypes),
        4 | 5 => of_limits(byte),
        6 | 10 => of_instruction(before, byte, next),
        9 => Some(Extension::ReferenceTypes),
        11 => Some(Extension::BulkMemory),
        _ => None,
    }
}

/// A section of a module.
#[derive(Clone, Copy, Debug)]
struct Section<'b> {
    /// Its number.
    id: u8,
    /// What it holds.
    content: &'b [u8],
    /// The bytes behind it.
    behind: &'b [u8],
}

/// The section at the front of these bytes, where they hold one whole.
fn next_section<'b>(bytes: &'b [u8]) -> Option<Section<'b>>
    ensures shorter { IfSome result (λ s. length s.behind.now < length bytes.now) }
{
    let (id, rest) = bytes.split_first()?;
    let (size, at) = leb::read_u32(rest, 0)?;
    let body = &rest[at..];
    if size as usize > body.len() {
        return None;
    }
    let (content, behind) = body.split_at(size as usize);
    Some(Section {
        id: *id,
        content,
        behind,
    })
}

/// How the section of an object file begins that the linker reads: with its name.
const LINKING: &[u8] = b"\x07linking";

/// Where a module is refused.
#[derive(Clone, Copy, Debug, PartialEq, Eq)]
enum Spot {
    /// Anywhere in an object file.
    Object,
    /// At the number of the section that this is.
    Number(u8),
    /// In the section of this number.
    Within(u8),
    /// Somewhere else.
    Elsewhere,
}

impl Spot {
    /// The same, once a section of this number was passed, by the numbers of bytes that are left where the module is refused, where the section begins and
    /// where it ends.
    fn behind_section(self, id: u8, left: usize, begins: usize, ends: usize) -> Spot {
        if left == begins {
            return Spot::Number(id);
        }
        if left < begins && left > ends {
            return Spot::Within(id);
        }
        self
    }
}

/// Where the sections are refused, by the number of bytes that are left there.
fn spot_in(sections: &[u8], left: usize) -> Spot {
    let mut spot = Spot::Elsewhere;
    let mut rest = sections;
    while let Some(section) = next_section(rest) {
        if section.id == 0 && section.content.starts_with(LINKING) {
            return Spot::Object;
        }
        spot = spot.behind_section(section.id, left, rest.len(), section.behind.len());
        rest = section.behind;
    }
    spot
}

/// The byte at a place, and 0 behind the last.
fn byte_at(bytes: &[u8], at: usize) -> u8 {
    match bytes.get(at) {
        Some(byte) => *byte,
        None => 0,
    }
}

/// What a compiler wrote at the byte at which a module of these bytes is refused, where that is known. It is for people to read, and no clause
/// speaks of it.
pub(crate) fn extension_at(bytes: &[u8], at: usize) -> Option<Extension> {
    let sections = bytes.get(8..)?;
    match spot_in(sections, bytes.len().saturating_sub(at)) {
        Spot::Object => Some(Extension::ObjectFile),
        Spot::Number(12) => Some(Extension::BulkMemory),
        Spot::Within(id) => of_section(
            id,
            byte_at(bytes, at.saturating_sub(1)),
            byte_at(bytes, at),
            byte_at(bytes, at.saturating_add(1)),
        ),
        Spot::Number(_) | Spot::Elsewhere => None,
    }
}
