//! Why bytes were not written.

ghost use Rattle.std.specs.Prelude.{◌≡◌};

use std::alloc::AllocError;
use thiserror::Error;

/// Why bytes were not written.
#[derive(Clone, Copy, Debug, PartialEq, Eq, Error)]
pub enum WriteRefusal {
    /// Memory was refused. Nothing was put.
    #[error("memory was refused")]
    NoMemory,
    /// The sink failed. What was put is a beginning of the bytes that is not all.
    #[error("the sink failed")]
    Write,
}

impl From<AllocError> for WriteRefusal {
    ghost use Rattle.byte_sinks.specs.declared.refusal.WriteRefusal.TheVariants.{NoMemory};

    ghost from_gives = { λ _ e. e ≡ NoMemory };

    fn from(_error: AllocError) -> WriteRefusal {
        WriteRefusal::NoMemory
    }
}
