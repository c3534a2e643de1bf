//! Lines that are read one after another.

ghost use Rattle.std.specs.Prelude.{◌≡◌, ◌≤◌, ℕ, List, [], Bool, false, Err, IfOk, OnOk, IsTrue, vec_len};
ghost use Rattle.byte_sinks.specs.Putting.{IsRaised};
ghost use Rattle.wblock_io.specs.Lines.{IsNextLine};
ghost use Rattle.wblock_io.specs.declared.lines.LineFault.{LineFault as Why};

use byte_sinks::Failures;
use std::alloc::Global;
use std::io::{BufRead, ErrorKind, Read};
use thiserror::Error;

/// The most bytes of a line that is kept.
pub const MOST_LINE_BYTES: usize = 1_048_576;

/// What a reader of lines finds.
#[derive(Debug, Drop)]
pub enum NextLine {
    /// A line, without its newline.
    Line(Vec<u8>),
    /// A line of more than 1,048,576 bytes. None of them are kept.
    TooLong,
    /// No further line. What stands behind the last newline is none.
    End,
}

/// Why no line was read.
#[derive(Clone, Copy, Debug, PartialEq, Eq, Error)]
pub enum LineFault {
    /// The read failed.
    #[error("the line could not be read")]
    Failed,
    /// Memory was refused.
    #[error("memory was refused")]
    NoMemory,
}

/// Lines that are read one after another. Each failure is counted.
pub trait Lines {
    /// Whether it is known what lines are to come: it is not known of a stream of the machine.
    ghost tells: { Bool };

    /// The lines that are to come, each without its newline.
    ghost coming: { Self → List (List ℕ) };

    /// How many calls have failed: a whole number without bound.
    ghost failures: { Self → ℕ };

    /// Reads the next line.
    fn next_line(&mut self, alloc: Global) -> Result<NextLine, LineFault>
        ensures next { IfOk result (λ found. IsTrue tells → IsNextLine (coming self.old) found (coming self.new)) }
        ensures calm { OnOk result (failures self.new ≡ failures self.old) }
        ensures counted { result ≡ Err Why.Failed → IsRaised (failures self.old) (failures self.new) };
}

/// Lines in memory. A call of a chosen number fails.
#[derive(Debug, Drop)]
pub struct MemoryLines {
    pub(crate) lines: Vec<Vec<u8>>,
    pub(crate) at: usize,
    pub(crate) failures: Failures,
    ghost within: { at ≤ vec_len lines },
}

/// The lines of a reader of the machine, of which nothing is told.
#[derive(Drop)]
pub struct LineReader<R> {
    reader: R,
    failures: Failures,
}

impl<R: BufRead> LineReader<R> {
    /// The lines of this reader.
    pub fn new(reader: R) -> LineReader<R> {
        LineReader {
            reader,
            failures: Failures::none(),
        }
    }

    /// What a read of this error comes to.
    fn fail(&mut self, kind: ErrorKind) -> LineFault
        ensures { result ≡ Why.Failed → IsRaised self.old.failures self.new.failures }
    {
        if kind == ErrorKind::OutOfMemory {
            return LineFault::NoMemory;
        }
        self.failures.count();
        LineFault::Failed
    }
}

impl<R: BufRead> Lines for LineReader<R> {
    ghost tells = { false };

    ghost coming = { λ _. [] };

    ghost failures = { λ r. r.failures };

    fn next_line(&mut self, alloc: Global) -> Result<NextLine, LineFault> {
        let most = MOST_LINE_BYTES + 1;
        let mut line = Vec::new(alloc);
        let read = self
            .reader
            .by_ref()
            .take(most as u64)
            .read_until(b'\n', &mut line);
        if let Err(error) = read {
            return Err(self.fail(error.kind()));
        }
        if line.last() == Some(&b'\n') {
            line.pop();
            return Ok(NextLine::Line(line));
        }
        if line.len() < most {
            return Ok(NextLine::End);
        }
        match self.reader.skip_until(b'\n') {
            Ok(_) => Ok(NextLine::TooLong),
            Err(error) => Err(self.fail(error.kind())),
        }
    }
}
