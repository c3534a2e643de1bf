//! Why nothing is found.

use interp::start::StartRefusal;
use std::alloc::{AllocError, AllocFailed};
use wtypes::NoMemory;

/// Why nothing is found.
#[derive(Clone, Copy, Debug)]
pub(crate) enum Refused {
    /// The call does not start.
    Start(StartRefusal),
    /// A module of the row can't be deployed.
    Contract,
    /// A line of the row is not as this kind has it.
    Line,
    /// The call has an end before its first turn.
    Early,
    /// Memory was refused.
    NoMemory,
}

impl From<AllocError> for Refused {
    fn from(_refused: AllocError) -> Refused {
        Refused::NoMemory
    }
}

impl<T: Drop> From<AllocFailed<T>> for Refused {
    fn from(_refused: AllocFailed<T>) -> Refused {
        Refused::NoMemory
    }
}

impl From<NoMemory> for Refused {
    fn from(_refused: NoMemory) -> Refused {
        Refused::NoMemory
    }
}

impl From<StartRefusal> for Refused {
    fn from(refusal: StartRefusal) -> Refused {
        match refusal {
            StartRefusal::NoMemory => Refused::NoMemory,
            refusal => Refused::Start(refusal),
        }
    }
}
