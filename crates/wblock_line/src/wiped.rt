//! A writer before whose bytes the line of the progress is taken away.

use crate::Progress;
use std::io::{self, Print, Write};
use std::time::Clock;

/// Writes to a writer, and first takes the line of the progress away, where one stands.
#[derive(Drop)]
pub struct Wiped<'a, W, C, E> {
    writer: W,
    progress: &'a Progress<'a, C, E>,
}

impl<'a, W: Write, C: Clock, E: Print> Wiped<'a, W, C, E> {
    /// A writer to this one.
    pub fn new(writer: W, progress: &'a Progress<'a, C, E>) -> Wiped<'a, W, C, E> {
        Wiped { writer, progress }
    }
}

impl<W: Write, C: Clock, E: Print> Write for Wiped<'_, W, C, E> {
    fn write(&mut self, buf: &[u8]) -> io::Result<usize> {
        self.progress.wipe();
        self.writer.write(buf)
    }

    fn flush(&mut self) -> io::Result<()> {
        self.writer.flush()
    }
}
