//! Why bytes gave no block or no world.

use thiserror::Error;

/// Why bytes gave no block. Reading goes from front to back, and the first fault is answered.
#[derive(Clone, Copy, Debug, PartialEq, Eq, Error)]
pub enum BlockRefusal {
    /// A field that begins at this byte cannot be, or ends past the input; or a count whose smallest items exceed the rest stands there; or
    /// it is the first byte that is left over.
    #[error("what begins at byte {0} spells no block")]
    Malformed(usize),
    /// There are more than 65,535 positions.
    #[error("there are more than 65,535 positions")]
    TooLarge,
    /// Memory was refused.
    #[error("memory was refused")]
    NoMemory,
}

/// Why bytes gave no world. Reading goes from front to back, and the first fault is answered.
#[derive(Clone, Copy, Debug, PartialEq, Eq, Error)]
pub enum ReadRefusal {
    /// A field that begins at this byte cannot be, or ends past the input; or a count whose smallest items exceed the rest stands there; or
    /// the length of a contract that does not load, is not valid, cannot be linked or is not in its shortest spelling; or it is the first
    /// byte that is left over. A cell that does not rise is at fault at its contract if that falls, else at its key.
    #[error("what begins at byte {0} spells no world")]
    Malformed(usize),
    /// There are more than 1,024 contracts.
    #[error("there are more than 1,024 contracts")]
    TooLarge,
    /// Memory was refused.
    #[error("memory was refused")]
    NoMemory,
}
