//! Lines in memory, read one after another.

ghost use Rattle.std.specs.Prelude.{◌≡◌, [], ◌∷◌, ◌++◌, true, OnOk, OnErr};
ghost use Rattle.wblock_io.specs.RemainingLines.{coming_of};

use crate::lines::{LineFault, Lines, MOST_LINE_BYTES, MemoryLines, NextLine};
use byte_sinks::Failures;
use std::alloc::{AllocError, Global};

impl MemoryLines {
    /// No lines.
    pub fn new(alloc: Global, failures: Failures) -> MemoryLines
        ensures { coming_of result ≡ [] }
    {
        MemoryLines {
            lines: Vec::new(alloc),
            at: 0,
            failures,
        }
    }

    /// Puts a line behind the others.
    pub fn push(&mut self, alloc: Global, line: &[u8]) -> Result<(), AllocError>
        ensures pushed { OnOk result (coming_of self.new ≡ coming_of self.old ++ line.now ∷ []) }
        ensures kept { OnErr result (coming_of self.new ≡ coming_of self.old) }
    {
        let line = line.to_vec(alloc)?;
        if self.lines.push(line).is_err() {
            return Err(AllocError);
        }
        Ok(())
    }
}

impl Lines for MemoryLines {
    ghost tells = { true };

    ghost coming = { coming_of };

    ghost failures = { λ m. m.failures };

    fn next_line(&mut self, alloc: Global) -> Result<NextLine, LineFault> {
        if self.failures.fails() {
            return Err(LineFault::Failed);
        }
        if self.at >= self.lines.len() {
            return Ok(NextLine::End);
        }
        if self.lines[self.at].len() > MOST_LINE_BYTES {
            self.at += 1;
            return Ok(NextLine::TooLong);
        }
        let Ok(line) = self.lines[self.at].as_slice().to_vec(alloc) else {
            return Err(LineFault::NoMemory);
        };
        self.at += 1;
        Ok(NextLine::Line(line))
    }
}
