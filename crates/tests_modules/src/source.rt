// What modules are drawn from: random numbers, and how often each thing was made; and numbers as the binary format spells them
// (Core Specification, 5.2.2 Integers).
use rand_core::Rng;
use rand_pcg::Pcg32;
use std::alloc::AllocError;

/// Things that are counted: opcodes at their own numbers, and behind them sections, imports, exports and names.
pub const THINGS: usize = 320;
/// Where the sections are counted.
pub const SECTIONS: usize = 256;
/// Where the imports are counted, by their kinds.
pub const IMPORTS: usize = 272;
/// Where the exports are counted, by their kinds.
pub const EXPORTS: usize = 280;
/// Where the names are counted.
pub const NAMES: usize = 288;

/// Random numbers, and how often each thing was made.
#[derive(Drop)]
pub struct Source {
    pub random: Pcg32,
    pub made: [u32; THINGS],
}

/// One of the first so many numbers.
pub fn draw(source: &mut Source, below: u32) -> u32 {
    (source.random.next_u32() >> 8) % below.max(1)
}

/// Counts one thing.
pub fn count(source: &mut Source, thing: usize) {
    if let Some(times) = source.made.get_mut(thing) {
        *times = times.saturating_add(1);
    }
}

/// One byte.
pub fn put_byte(out: &mut Vec<u8>, byte: u8) -> Result<(), AllocError> {
    out.push(byte)?;
    Ok(())
}

/// The shortest spelling of a number without a sign.
pub fn put_number(out: &mut Vec<u8>, number: u32) -> Result<(), AllocError> {
    let mut left = number;
    for _ in 0..4u32 {
        if left < 128 {
            return put_byte(out, left as u8);
        }
        out.push((left % 128) as u8 | 0x80)?;
        left /= 128;
    }
    put_byte(out, (left % 128) as u8)
}

/// The shortest spelling of a number with a sign.
pub fn put_signed(out: &mut Vec<u8>, number: i64) -> Result<(), AllocError> {
    let mut left = number;
    for _ in 0..10u32 {
        let low = u8::try_from(left & 0x7F).unwrap_or(0);
        if left >= -64 && left < 64 {
            return put_byte(out, low);
        }
        out.push(low | 0x80)?;
        left >>= 7;
    }
    Ok(())
}

/// Bytes behind their number.
pub fn put_bytes(out: &mut Vec<u8>, bytes: &[u8]) -> Result<(), AllocError> {
    put_number(out, u32::try_from(bytes.len()).unwrap_or(0))?;
    out.extend_from_slice(bytes)
}

/// One of the bytes.
pub fn one_of(source: &mut Source, bytes: &[u8]) -> u8 {
    let below = u32::try_from(bytes.len()).unwrap_or(1);
    let place = draw(source, below) as usize;
    bytes.get(place).copied().unwrap_or(0)
}

/// A number, small mostly.
pub fn any_number(source: &mut Source) -> u32 {
    match draw(source, 8) {
        0 => source.random.next_u32(),
        1 => source.random.next_u32() >> 16,
        2 => 4_294_967_295,
        3 => 128,
        _ => draw(source, 6),
    }
}
