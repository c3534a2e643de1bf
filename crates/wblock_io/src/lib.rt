//! Files by name, lines and streams: in memory, and those of the machine.
#![tactic(auto)]

mod cause;
mod disk;
mod failing;
mod files;
mod lines;
mod memory;
mod memory_lines;
mod stream;
mod temporary;

pub use cause::Cause;
pub use disk::Disk;
pub use failing::FileFailures;
pub use files::{Files, ReadFault, WriteFault, write_draft, write_file};
pub use lines::{LineFault, LineReader, Lines, MOST_LINE_BYTES, MemoryLines, NextLine};
pub use memory::MemoryFiles;
pub use stream::Stream;
pub use temporary::{Claim, Owner};
