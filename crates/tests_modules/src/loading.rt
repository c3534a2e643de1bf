use crate::assertions::holds;
use crate::both::refusal;
use loader::LoadRefusal::{self, Malformed};
use test_support::EXAMPLE;

/// The header of a module.
pub const HEADER: [u8; 8] = [0x00, 0x61, 0x73, 0x6D, 0x01, 0x00, 0x00, 0x00];

// Whether this is to be answered to the front of the example contract of so many bytes.
fn is_answer(front: usize, answer: Option<LoadRefusal>) -> bool {
    match front {
        8 | 31 | 84 | 201 => answer.is_none(),
        93 | 137 => answer == Some(Malformed(front)),
        _ => matches!(answer, Some(Malformed(at)) if at <= front),
    }
}

#[test]
fn fronts_of_the_example_contract(rt: HostRuntime) {
    let bytes = EXAMPLE;
    for front in 0..=bytes.len() {
        let answer = refusal(rt.alloc(), bytes.get(..front).unwrap_or(bytes));
        holds(&rt, &(front, answer), is_answer(front, answer));
    }
}
