//! The streams of the machine, of which nothing is told.

ghost use Rattle.std.specs.Prelude.{false, []};

use byte_sinks::{Failures, Sink, SinkFault};
use std::io::Write;

/// A stream as a sink.
#[derive(Drop)]
pub struct Stream<W> {
    writer: W,
    failures: Failures,
}

impl<W: Write> Stream<W> {
    /// A stream that writes to this.
    pub fn new(writer: W) -> Stream<W> {
        Stream {
            writer,
            failures: Failures::none(),
        }
    }
}

impl<W: Write> Sink for Stream<W> {
    ghost tells = { false };

    ghost told = { λ _. [] };

    ghost failures = { λ s. s.failures };

    fn put_some(&mut self, bytes: &[u8]) -> Result<usize, SinkFault> {
        match self.writer.write(bytes) {
            Ok(n) if n > 0 || bytes.is_empty() => Ok(n),
            _ => {
                self.failures.count();
                Err(SinkFault)
            }
        }
    }
}
