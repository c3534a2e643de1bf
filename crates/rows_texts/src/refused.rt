//! Why nothing is found.

use assembler::AsmRefusal;
use lexer::{LexRefusal, TextRefusal};
use loader::LoadRefusal;
use std::alloc::{AllocError, AllocFailed, Global};
use text_body::ParseFault;
use text_resolve::ResolveFault;
use wtypes::NoMemory;

/// Why nothing is found, by the step that refuses.
#[derive(Clone, Copy, Debug)]
pub(crate) enum Refused {
    /// The text has no tokens.
    Lex(LexRefusal),
    /// The tokens are no words, or the words no fields.
    Text(TextRefusal),
    /// The words are not what is read of them.
    Body(ParseFault),
    /// A name or an integer stands for nothing.
    Names(ResolveFault),
    /// The text names no module.
    Module(AsmRefusal),
    /// The bytes spell no module.
    Load(LoadRefusal),
    /// The module has no text.
    Written(module_text::TextRefusal),
    /// The contract of the row is none.
    Contract,
    /// The row's line is not as this kind has it.
    Line,
    /// Memory was refused.
    NoMemory,
}

impl From<AllocError> for Refused {
    fn from(_refused: AllocError) -> Refused {
        Refused::NoMemory
    }
}

impl<T: Drop> From<AllocFailed<T>> for Refused {
    fn from(_refused: AllocFailed<T>) -> Refused {
        Refused::NoMemory
    }
}

impl From<NoMemory> for Refused {
    fn from(_refused: NoMemory) -> Refused {
        Refused::NoMemory
    }
}

impl From<LexRefusal> for Refused {
    fn from(refusal: LexRefusal) -> Refused {
        Refused::Lex(refusal)
    }
}

impl From<TextRefusal> for Refused {
    fn from(refusal: TextRefusal) -> Refused {
        Refused::Text(refusal)
    }
}

impl From<ParseFault> for Refused {
    fn from(refusal: ParseFault) -> Refused {
        Refused::Body(refusal)
    }
}

impl From<ResolveFault> for Refused {
    fn from(refusal: ResolveFault) -> Refused {
        Refused::Names(refusal)
    }
}

impl From<AsmRefusal> for Refused {
    fn from(refusal: AsmRefusal) -> Refused {
        Refused::Module(refusal)
    }
}

impl From<LoadRefusal> for Refused {
    fn from(refusal: LoadRefusal) -> Refused {
        Refused::Load(refusal)
    }
}

impl From<module_text::TextRefusal> for Refused {
    fn from(refusal: module_text::TextRefusal) -> Refused {
        Refused::Written(refusal)
    }
}

/// The text of what was found, or of why nothing was: none where memory was refused.
pub(crate) fn text_of(alloc: Global, answered: Result<String, Refused>) -> Option<String> {
    match answered {
        Ok(found) => Some(found),
        Err(Refused::NoMemory) => None,
        Err(refusal) => format!(in alloc; "{refusal:?}\n").ok(),
    }
}
