// Bodies of functions, in bytes (Core Specification, 5.4 Instructions).
use crate::source::{Source, any_number, count, draw, one_of, put_byte, put_number, put_signed};
use rand_core::Rng;
use std::alloc::{AllocError, Global};

/// Opcodes behind which nothing stands.
pub const BARE: &[u8] = &[
    0x00, 0x01, 0x0F, 0x1A, 0x1B, 0x45, 0x46, 0x47, 0x48, 0x49, 0x4A, 0x4B, 0x4C, 0x4D, 0x4E, 0x4F,
    0x50, 0x51, 0x52, 0x53, 0x54, 0x55, 0x56, 0x57, 0x58, 0x59, 0x5A, 0x67, 0x68, 0x69, 0x6A, 0x6B,
    0x6C, 0x6D, 0x6E, 0x6F, 0x70, 0x71, 0x72, 0x73, 0x74, 0x75, 0x76, 0x77, 0x78, 0x79, 0x7A, 0x7B,
    0x7C, 0x7D, 0x7E, 0x7F, 0x80, 0x81, 0x82, 0x83, 0x84, 0x85, 0x86, 0x87, 0x88, 0x89, 0x8A, 0xA7,
    0xAC, 0xAD, 0xC0, 0xC1, 0xC2, 0xC3, 0xC4,
];
/// Opcodes with one number: branches, calls, locals and globals.
pub const NUMBERED: [u8; 8] = [0x0C, 0x0D, 0x10, 0x20, 0x21, 0x22, 0x23, 0x24];
/// Loads and stores.
pub const ACCESSES: &[u8] = &[
    0x28, 0x29, 0x2C, 0x2D, 0x2E, 0x2F, 0x30, 0x31, 0x32, 0x33, 0x34, 0x35, 0x36, 0x37, 0x3A, 0x3B,
    0x3C, 0x3D, 0x3E,
];
/// The size of the memory, and its growth.
pub const SIZES: [u8; 2] = [0x3F, 0x40];
/// Blocks, loops and ifs.
pub const OPENINGS: [u8; 3] = [0x02, 0x03, 0x04];
/// The other opcodes: an else part, a table of branches, an indirect call, and constants.
pub const OTHERS: [u8; 5] = [0x05, 0x0E, 0x11, 0x41, 0x42];

// The opcode, counted.
fn put_opcode(source: &mut Source, out: &mut Vec<u8>, opcode: u8) -> Result<(), AllocError> {
    count(source, usize::from(opcode));
    put_byte(out, opcode)
}

/// A constant of either type.
pub fn put_constant(source: &mut Source, out: &mut Vec<u8>) -> Result<(), AllocError> {
    let half = source.random.next_u32();
    let small = i64::from(half) - 2_147_483_648;
    let number = match draw(source, 6) {
        0 => small,
        1 => small / 16_777_216,
        2 => 2_147_483_647,
        3 => -2_147_483_648,
        _ => i64::from(draw(source, 300)) - 150,
    };
    if draw(source, 2) == 0 {
        put_opcode(source, out, 0x41)?;
        return put_signed(out, number);
    }
    put_opcode(source, out, 0x42)?;
    match draw(source, 4) {
        0 => put_signed(out, i64::MAX),
        1 => put_signed(out, i64::MIN),
        2 => put_signed(out, number.wrapping_mul(4_294_967_291)),
        _ => put_signed(out, number),
    }
}

// A table of branches.
fn put_table(source: &mut Source, out: &mut Vec<u8>) -> Result<(), AllocError> {
    put_opcode(source, out, 0x0E)?;
    let labels = draw(source, 4);
    put_number(out, labels)?;
    for _ in 0..=labels {
        put_number(out, any_number(source))?;
    }
    Ok(())
}

// An instruction that holds no others.
fn put_plain(source: &mut Source, out: &mut Vec<u8>, types: u32) -> Result<(), AllocError> {
    match draw(source, 8) {
        0 => {
            let opcode = one_of(source, &NUMBERED);
            put_opcode(source, out, opcode)?;
            put_number(out, any_number(source))
        }
        1 => {
            let opcode = one_of(source, ACCESSES);
            put_opcode(source, out, opcode)?;
            put_number(
                out,
                draw(source, 32).min(draw(source, 5).saturating_add(draw(source, 5))),
            )?;
            put_number(out, any_number(source))
        }
        2 => put_table(source, out),
        3 => {
            put_opcode(source, out, 0x11)?;
            put_number(out, draw(source, types))?;
            put_byte(out, 0)
        }
        4 => {
            let opcode = one_of(source, &SIZES);
            put_opcode(source, out, opcode)?;
            put_byte(out, 0)
        }
        5 => put_constant(source, out),
        _ => {
            let opcode = one_of(source, BARE);
            put_opcode(source, out, opcode)
        }
    }
}

// What a block, a loop or an if begins with, and whether it is an if.
fn put_opening(source: &mut Source, out: &mut Vec<u8>) -> Result<bool, AllocError> {
    let opcode = one_of(source, &OPENINGS);
    put_opcode(source, out, opcode)?;
    out.push(one_of(source, &[0x40, 0x7F, 0x7E]))?;
    Ok(opcode == 0x04)
}

/// An expression of so many instructions at least, some of which hold others.
pub fn put_body(
    source: &mut Source,
    out: &mut Vec<u8>,
    types: u32,
    size: u32,
    alloc: Global,
) -> Result<(), AllocError> {
    // Whether an else part may still come, of each block that is open.
    let mut opened: Vec<bool> = Vec::new(alloc);
    for _ in 0..size {
        match draw(source, 8) {
            0 => opened.push(put_opening(source, out)?)?,
            1 => match opened.pop() {
                // An else part holds something, else it would not be the shortest spelling.
                Some(true) => {
                    put_opcode(source, out, 0x05)?;
                    put_plain(source, out, types)?;
                    opened.push(false)?;
                }
                Some(false) => put_byte(out, 0x0B)?,
                None => put_plain(source, out, types)?,
            },
            _ => put_plain(source, out, types)?,
        }
    }
    for _ in 0..=opened.len() {
        out.push(0x0B)?;
    }
    Ok(())
}
