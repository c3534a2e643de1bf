// A block read and written, whatever memory is refused.
use crate::assertions::holds;
use block::{BlockRefusal, read_block, write_block};
use byte_sinks::{Failures, MemorySink};
use std::alloc::Global;

/// Digests of 0 and the record of call 0 twice.
const SMALL: &[u8] = &[
    87, 66, 76, 75, 1, 0, 0, 0, 0, 0, 0, 0, 0, 0, 0, 0, 0, 0, 0, 0, 0, 0, 0, 0, 0, 0, 0, 0, 0, 0,
    0, 0, 0, 0, 0, 0, 0, 0, 0, 0, 0, 0, 0, 0, 0, 0, 0, 0, 0, 0, 0, 0, 0, 0, 0, 0, 0, 0, 0, 0, 0, 0,
    0, 0, 0, 0, 0, 0, 0, 0, 0, 0, 2, 0, 0, 0, 0, 0, 0, 0, 3, 0, 0, 0, 0, 0, 0, 0, 0, 0, 1, 0, 0, 0,
    0, 0, 0, 0, 1, 7, 0, 0, 0, 0, 0, 0, 0, 1, 0, 0, 0, 0, 0, 0, 0, 0, 3, 0, 0, 0, 0, 0, 0, 0, 0, 0,
    1, 0, 0, 0, 0, 0, 0, 0, 1, 7, 0, 0, 0, 0, 0, 0, 0, 1, 0, 0, 0, 0, 0, 0, 0, 0, 0, 0, 0, 0, 0, 0,
    0, 0, 0, 0, 0, 0, 0, 0, 0, 0, 0, 0, 0, 0, 0, 0, 0, 0, 0, 0, 0, 0, 0, 0, 0, 0, 0, 0, 0, 0,
];

/// The block is read and written, or one of the two wants memory and has put nothing.
fn wants_memory_alone(alloc: Global) -> bool {
    match read_block(alloc, SMALL) {
        Ok(read) => {
            let mut sink = MemorySink::new(alloc, 188, Failures::none());
            match write_block(alloc, &read, &mut sink) {
                Ok(()) => sink.bytes() == SMALL,
                Err(_) => sink.bytes().is_empty(),
            }
        }
        Err(refusal) => refusal == BlockRefusal::NoMemory,
    }
}

/// It passes whichever allocation fails.
#[test]
fn want_of_memory_is_the_only_other_answer(rt: HostRuntime) {
    holds(&rt, &"memory alone", wants_memory_alone(rt.alloc()));
}
