//! Why words are not read.

ghost use Rattle.std.specs.Prelude.{◌≡◌};
ghost use Rattle.text_body.specs.declared.unread.ParseFault.TheVariants.{NoMemory};

use std::alloc::{AllocError, AllocFailed};
use thiserror::Error;

/// Why words are not read as a part of a text. How many are left is for people to read: no clause speaks of it.
#[derive(Clone, Copy, Debug, PartialEq, Eq, Error)]
pub enum ParseFault {
    /// They cannot go on with the word at which so many are left, itself among them; at their end none is left.
    #[error("the words cannot go on where {0} of them are left")]
    Stuck(usize),
    /// The allocator refused.
    #[error("memory was refused")]
    NoMemory,
}

impl<T: Drop> From<AllocFailed<T>> for ParseFault {
    ghost from_gives = { λ _ e. e ≡ NoMemory };

    fn from(_failed: AllocFailed<T>) -> Self {
        ParseFault::NoMemory
    }
}

impl From<AllocError> for ParseFault {
    ghost from_gives = { λ _ e. e ≡ NoMemory };

    fn from(_failed: AllocError) -> Self {
        ParseFault::NoMemory
    }
}
