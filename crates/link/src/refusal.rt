// Why a module is not instantiated.

use thiserror::Error;

/// Why a module is refused, in the order in which it is judged (Core Specification, 4.5.4 Instantiation).
#[derive(Clone, Copy, Debug, PartialEq, Eq, Error)]
pub enum LinkRefusal {
    /// The import of this number is the first that is no host call of its type, and it names none.
    #[error("import {0} is no host call")]
    UnknownImport(u32),
    /// The import of this number is the first that is no host call of its type, and it names one.
    #[error("import {0} is of another type than its host call")]
    ImportType(u32),
    /// The segment of this number is the first out of range. The element segments are counted first.
    #[error("segment {0} is out of range")]
    SegmentRange(u32),
    /// A memory begins with more than 1,024 pages.
    #[error("a memory begins with more than 1024 pages")]
    TooManyPages,
    /// A table begins with more than 65,536 elements.
    #[error("a table begins with more than 65536 elements")]
    TableTooLarge,
    /// There is no memory for the list of host calls, or for what the memory begins with.
    #[error("memory was refused")]
    NoMemory,
}
