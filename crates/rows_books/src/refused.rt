//! Why nothing is found.

use std::alloc::{AllocError, AllocFailed};
use wtypes::NoMemory;

/// Why nothing is found.
#[derive(Clone, Copy, Debug)]
pub enum Refused {
    /// A line of the row is not as its kind has it.
    Line,
    /// Memory was refused.
    NoMemory,
}

impl From<AllocError> for Refused {
    fn from(_refused: AllocError) -> Refused {
        Refused::NoMemory
    }
}

impl<T: Drop> From<AllocFailed<T>> for Refused {
    fn from(_refused: AllocFailed<T>) -> Refused {
        Refused::NoMemory
    }
}

impl From<NoMemory> for Refused {
    fn from(_refused: NoMemory) -> Refused {
        Refused::NoMemory
    }
}
