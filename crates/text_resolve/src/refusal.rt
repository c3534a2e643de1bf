//! Why a text is refused.

ghost use Rattle.std.specs.Prelude.{◌≡◌};
ghost use Rattle.text_resolve.specs.declared.refusal.AsmRefusal.TheVariants as refusal;
ghost use Rattle.text_resolve.specs.declared.refusal.ResolveFault.TheVariants.{NoMemory};

use lexer::LexRefusal;
use module_tree::limit::Limit;
use std::alloc::{AllocError, AllocFailed};
use thiserror::Error;

/// Why a text is refused. A place is the number of bytes before it, and is for people to read: no clause speaks of it.
#[derive(Clone, Copy, Debug, PartialEq, Eq, Error)]
pub enum AsmRefusal {
    /// It does not lex.
    #[error("{0}")]
    Lex(LexRefusal),
    /// What stands at this place may not stand there.
    #[error("what stands at byte {0} may not stand there")]
    Unexpected(usize),
    /// The name or the type index at this place stands for nothing, or for something else than what is written there.
    #[error("the name or type index at byte {0} stands for nothing, or for something else than is written")]
    UnknownName(usize),
    /// The name at this place stands before in the same space.
    #[error("the name at byte {0} stands before")]
    RepeatedName(usize),
    /// The integer at this place is out of range.
    #[error("the integer at byte {0} is out of range")]
    NumberRange(usize),
    /// A limit is passed.
    #[error("more than {0}")]
    TooLarge(Limit),
    /// Memory was refused.
    #[error("memory was refused")]
    NoMemory,
}

impl From<AllocError> for AsmRefusal {
    ghost from_gives = { λ _ e. e ≡ refusal.NoMemory };

    fn from(_e: AllocError) -> AsmRefusal {
        AsmRefusal::NoMemory
    }
}

/// Why names, integers or instructions of a text stand for nothing. Places are as those of [`AsmRefusal`].
#[derive(Clone, Copy, Debug, PartialEq, Eq, Error)]
pub enum ResolveFault {
    /// As [`AsmRefusal::UnknownName`].
    #[error("the name or type index at byte {0} stands for nothing, or for something else than is written")]
    UnknownName(usize),
    /// As [`AsmRefusal::RepeatedName`].
    #[error("the name at byte {0} stands before")]
    RepeatedName(usize),
    /// As [`AsmRefusal::NumberRange`].
    #[error("the integer at byte {0} is out of range")]
    NumberRange(usize),
    /// A limit is passed.
    #[error("more than {0}")]
    TooLarge(Limit),
    /// They are no module's, and no place of the text is at fault by itself.
    #[error("the fields make no module")]
    Broken,
    /// Memory was refused.
    #[error("memory was refused")]
    NoMemory,
}

impl From<AllocError> for ResolveFault {
    ghost from_gives = { λ _ e. e ≡ NoMemory };

    fn from(_e: AllocError) -> ResolveFault {
        ResolveFault::NoMemory
    }
}

impl<T: Drop> From<AllocFailed<T>> for ResolveFault {
    ghost from_gives = { λ _ e. e ≡ NoMemory };

    fn from(_e: AllocFailed<T>) -> ResolveFault {
        ResolveFault::NoMemory
    }
}
