// Why a reader of what stands at the front of bytes stopped.
ghost use Rattle.std.specs.Prelude.{◌≡◌};
ghost use Rattle.expr_reader.specs.Outcome.{is_memory, refusal_before};

use crate::LoadRefusal;
use module_tree::limit::Limit;
use std::alloc::{AllocError, AllocFailed};
use thiserror::Error;

/// Why a reader stopped, by how many bytes were left from the first byte of the item at fault on. Where these stand in
/// the input is not known to it: [`DecodeFault::ending_at`] makes the refusal of it.
#[derive(Clone, Copy, Debug, PartialEq, Eq, Error)]
pub enum DecodeFault {
    /// The grammar has no such form, and so many bytes were left.
    #[error("malformed where {0} bytes are left")]
    Malformed(usize),
    /// A form that this profile leaves out, and so many bytes were left.
    #[error("a form that is not supported, where {0} bytes are left")]
    Unsupported(usize),
    /// A limit is passed.
    #[error("more than {0}")]
    TooLarge(Limit),
    /// Memory was refused.
    #[error("memory was refused")]
    NoMemory,
}

impl DecodeFault {
    /// The refusal, where the bytes that were read end at this offset.
    pub fn ending_at(self, end: usize) -> LoadRefusal
        ensures { result ≡ refusal_before end self }
    {
        match self {
            DecodeFault::Malformed(left) => LoadRefusal::Malformed(end.saturating_sub(left)),
            DecodeFault::Unsupported(left) => LoadRefusal::Unsupported(end.saturating_sub(left)),
            DecodeFault::TooLarge(limit) => LoadRefusal::TooLarge(limit),
            DecodeFault::NoMemory => LoadRefusal::NoMemory,
        }
    }

    /// The same of an enclosure that so many more bytes stand behind.
    pub fn with_more(self, more: usize) -> DecodeFault
        ensures { is_memory result ≡ is_memory self }
    {
        match self {
            DecodeFault::Malformed(left) => DecodeFault::Malformed(left.saturating_add(more)),
            DecodeFault::Unsupported(left) => DecodeFault::Unsupported(left.saturating_add(more)),
            DecodeFault::TooLarge(limit) => DecodeFault::TooLarge(limit),
            DecodeFault::NoMemory => DecodeFault::NoMemory,
        }
    }
}

impl From<AllocError> for DecodeFault {
    ghost use Rattle.expr_reader.specs.declared.unread.DecodeFault.TheVariants.{NoMemory};

    ghost from_gives = { λ _ e. e ≡ NoMemory };

    fn from(_e: AllocError) -> DecodeFault {
        DecodeFault::NoMemory
    }
}

impl<T: Drop> From<AllocFailed<T>> for DecodeFault {
    ghost use Rattle.expr_reader.specs.declared.unread.DecodeFault.TheVariants.{NoMemory};

    ghost from_gives = { λ _ e. e ≡ NoMemory };

    fn from(_e: AllocFailed<T>) -> DecodeFault {
        DecodeFault::NoMemory
    }
}
