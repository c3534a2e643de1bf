// Sinks in memory, whole and failing.
use crate::assertions::holds;
use byte_sinks::{Failures, MemorySink, put_all};
use std::alloc::Global;

/// The size of pieces, after how many of them a call fails, what is put, whether that fails, and what is kept.
type Row<'a> = (usize, Option<u64>, &'a [&'a [u8]], bool, &'a [u8]);

const LINES: &[&[u8]] = &[b"one line\n", b"", b"two\n"];

const LETTERS: &[&[u8]] = &[b"abcdefg"];

const ROWS: &[Row] = &[
    (0, None, LINES, false, b"one line\ntwo\n"),
    (1, None, LINES, false, b"one line\ntwo\n"),
    (3, None, LINES, false, b"one line\ntwo\n"),
    (100, None, LINES, false, b"one line\ntwo\n"),
    (3, Some(0), LETTERS, true, b""),
    (3, Some(1), LETTERS, true, b"abc"),
    (3, Some(2), LETTERS, true, b"abcdef"),
    (3, Some(3), LETTERS, false, b"abcdefg"),
];

/// Whether a put fails, and what is kept of the puts, as a row says.
fn keeps(alloc: Global, row: &Row) -> bool {
    let (piece, calls, puts, fails, kept) = *row;
    let failures = match calls {
        None => Failures::none(),
        Some(calls) => Failures::after(calls),
    };
    let mut sink = MemorySink::new(alloc, piece, failures);
    let mut failed = false;
    for bytes in puts {
        failed |= put_all(&mut sink, *bytes).is_err();
    }
    failed == fails && sink.bytes() == kept
}

#[test]
fn takes_all_in_pieces_or_keeps_a_beginning(rt: HostRuntime) {
    for row in ROWS {
        holds(&rt, &(row.0, row.1), keeps(rt.alloc(), row));
    }
}
