//! Random texts, and random ones of the letters that texts of calls are made of: reading answers, with a line that the text has.

use crate::assertions::holds;
use rand_core::Rng;
use rand_pcg::Pcg32;
use std::alloc::{AllocError, Global};
use wblock_calls::{CallsRefusal, MOST_CALLS, read_calls};

/// How many lines a text ends.
fn ended_lines(text: &[u8]) -> usize {
    text.iter().filter(|byte| **byte == b'\n').count()
}

/// Bytes of which texts of calls are made.
const LETTERS: [u8; 16] = *b"0019 -i3264:\nrun";

/// So many random bytes, and as many of those that texts of calls are made of.
fn noise(alloc: Global, random: &mut Pcg32, size: u32) -> Result<[Vec<u8>; 2], AllocError> {
    let mut bytes = Vec::new(alloc);
    let mut letters = Vec::new(alloc);
    for _ in 0..size {
        let byte = (random.next_u32() >> 24) as u8;
        bytes.push(byte)?;
        letters.push(LETTERS[usize::from(byte % 16)])?;
    }
    Ok([bytes, letters])
}

/// Whether reading answers, with a line that the text has.
fn is_answered(alloc: Global, text: &[u8]) -> bool {
    let lines = ended_lines(text);
    match read_calls(alloc, text) {
        Ok(calls) => calls.len() == lines,
        Err(CallsRefusal::Line(line)) => line <= lines.saturating_add(1),
        Err(CallsRefusal::TooMany) => lines > MOST_CALLS,
        Err(CallsRefusal::NoMemory) => false,
    }
}

#[test]
fn random_texts_of_calls(rt: HostRuntime) -> Result<(), AllocError> {
    let mut random = Pcg32::new(42, 54);
    for size in [10, 20, 30, 40, 50, 100, 200, 300, 1_000_000] {
        for text in &noise(rt.alloc(), &mut random, size)? {
            holds(&rt, &size, is_answered(rt.alloc(), text));
        }
    }
    Ok(())
}
