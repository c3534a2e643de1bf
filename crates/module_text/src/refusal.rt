//! Why a module gets no text.

use std::alloc::AllocError;
use thiserror::Error;
use wtypes::NoMemory;

/// Why a module gets no text.
#[derive(Clone, Copy, Debug, PartialEq, Eq, Error)]
pub enum TextRefusal {
    /// The text would have more than 1,048,576 bytes.
    #[error("the text would have more than 1048576 bytes")]
    TooLong,
    /// What was written does not name the module. No valid module is known for which this comes.
    #[error("no text was found that names the module")]
    Unwritten,
    /// Memory was refused.
    #[error("memory was refused")]
    NoMemory,
}

impl From<AllocError> for TextRefusal {
    ghost use Rattle.std.specs.Prelude.{◌≡◌};
    ghost use Rattle.module_text.specs.declared.refusal.TextRefusal.TheVariants as refusal;

    ghost from_gives = { λ _ e. e ≡ refusal.NoMemory };

    fn from(_refused: AllocError) -> TextRefusal {
        TextRefusal::NoMemory
    }
}

impl From<NoMemory> for TextRefusal {
    ghost use Rattle.std.specs.Prelude.{◌≡◌};
    ghost use Rattle.module_text.specs.declared.refusal.TextRefusal.TheVariants as refusal;

    ghost from_gives = { λ _ e. e ≡ refusal.NoMemory };

    fn from(_refused: NoMemory) -> TextRefusal {
        TextRefusal::NoMemory
    }
}
