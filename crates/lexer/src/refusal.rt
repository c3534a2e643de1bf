//! The words of a text in the text format of WebAssembly (Core Specification, 6.2.2 Tokens): keywords by the tables,
//! names, integers and strings where they are written.

ghost use Rattle.std.specs.Prelude.{◌≡◌};
ghost use Rattle.lexer.specs.declared.refusal.TextRefusal.TheVariants.{NoMemory};

use std::alloc::{AllocError, AllocFailed};
use thiserror::Error;

/// Why a text is refused behind its tokens. A place is the number of bytes before it, and is for people to read: no
/// clause speaks of it.
#[derive(Clone, Copy, Debug, PartialEq, Eq, Error)]
pub enum TextRefusal {
    /// What stands at this place may not stand there.
    #[error("what stands at byte {0} may not stand there")]
    Unexpected(usize),
    /// The allocator refused.
    #[error("memory was refused")]
    NoMemory,
}

impl<T: Drop> From<AllocFailed<T>> for TextRefusal {
    ghost from_gives = { λ _ e. e ≡ NoMemory };

    fn from(_failed: AllocFailed<T>) -> Self {
        TextRefusal::NoMemory
    }
}

impl From<AllocError> for TextRefusal {
    ghost from_gives = { λ _ e. e ≡ NoMemory };

    fn from(_failed: AllocError) -> Self {
        TextRefusal::NoMemory
    }
}
