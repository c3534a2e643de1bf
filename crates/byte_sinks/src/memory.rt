//! A sink in memory.

ghost use Rattle.std.specs.Prelude.{◌≡◌, true, []};

use crate::failures::Failures;
use crate::sink::{Sink, SinkFault};
use std::alloc::Global;

/// A sink that keeps its bytes and takes at most so many at a time. A call of a chosen number fails, and so does one
/// that is refused memory.
#[derive(Debug, Drop)]
pub struct MemorySink {
    bytes: Vec<u8>,
    piece: usize,
    failures: Failures,
}

impl MemorySink {
    ghost use Rattle.byte_sinks.specs.Memory.{bytes_of};

    /// An empty sink that takes at most `piece` bytes at a time, or one where that is 0.
    pub fn new(alloc: Global, piece: usize, failures: Failures) -> MemorySink
        ensures { bytes_of result ≡ [] }
    {
        MemorySink {
            bytes: Vec::new(alloc),
            piece,
            failures,
        }
    }

    /// The bytes put so far.
    pub fn bytes(&self) -> &[u8]
        ensures { result.now ≡ bytes_of self.now }
    {
        self.bytes.as_slice()
    }

    /// The bytes put, without the sink.
    pub fn into_bytes(self) -> Vec<u8>
        ensures { result.items ≡ bytes_of self }
    {
        let MemorySink {
            bytes,
            piece: _,
            failures: _,
        } = self;
        bytes
    }
}

impl Sink for MemorySink {
    ghost tells = { true };

    ghost told = { λ s. s.bytes.items };

    ghost failures = { λ s. s.failures };

    fn put_some(&mut self, bytes: &[u8]) -> Result<usize, SinkFault> {
        if self.failures.fails() {
            return Err(SinkFault);
        }
        let n = bytes.len().min(self.piece.max(1));
        if self.bytes.extend_from_slice(&bytes[..n]).is_err() {
            self.failures.count();
            return Err(SinkFault);
        }
        Ok(n)
    }
}
