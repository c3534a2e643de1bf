//! Why the library does not do what it is asked.

ghost use Rattle.std.specs.Prelude.{◌≡◌};
ghost use Rattle.embed.specs.Refusals.{IfRefused, refusal};

use std::alloc::AllocError;
use wtypes::NoMemory;

/// What is refused.
#[derive(Clone, Copy, Debug, PartialEq, Eq)]
pub enum Subject {
    /// Bytes that spell no module.
    Load,
    /// A module that is not valid.
    Check,
    /// A module that cannot be linked, or one contract too many.
    Deploy,
    /// A text that names no module.
    Assemble,
    /// A module that has no text.
    Text,
    /// Bytes that spell no world.
    World,
    /// A text that spells no calls, or not the one that is asked for.
    Calls,
    /// A block that is rejected.
    Block,
}

/// Which refusal, and where. The numbers and places are those of the program's lines.
#[derive(Clone, Copy, Debug, PartialEq, Eq)]
pub struct Refusal {
    /// What is refused.
    pub subject: Subject,
    /// The number of the refusal.
    pub number: u32,
    /// The place, where it has one.
    pub place: Option<u64>,
    /// The number of the function in which a rule is broken, imports counted first.
    pub function: Option<u32>,
}

impl Refusal {
    /// The refusal of this number at a place, of no function.
    pub(crate) fn at(subject: Subject, number: u32, place: Option<u64>) -> Refusal
        ensures { result ≡ refusal subject number place }
    {
        Refusal {
            subject,
            number,
            place,
            function: None,
        }
    }

    /// The failure of this refusal, with its sentence; or for memory, where that was refused to the sentence.
    pub(crate) fn with_sentence(self, sentence: Result<String, AllocError>) -> Failure
        ensures { IfRefused result (λ r. r ≡ self) }
    {
        match sentence {
            Ok(sentence) => Failure::Refused(self, sentence),
            Err(AllocError) => Failure::NoMemory,
        }
    }
}

/// The failure of the refusal of this number at a place, of no function, with its sentence; or for memory, where that was refused to the sentence.
pub(crate) fn refused(
    subject: Subject,
    number: u32,
    place: Option<u64>,
    sentence: Result<String, AllocError>,
) -> Failure
    ensures { IfRefused result (λ r. r ≡ refusal subject number place) }
{
    Refusal::at(subject, number, place).with_sentence(sentence)
}

/// Why the library does not do what it is asked.
#[derive(Debug, Drop)]
pub enum Failure {
    /// What was passed is refused. The sentence says what is wrong, where, and what to do. It has no newline.
    Refused(Refusal, String),
    /// Memory was refused, and nothing is said of what was passed.
    NoMemory,
}

impl From<NoMemory> for Failure {
    ghost use Rattle.embed.specs.declared.failure.Failure.TheVariants as failure;

    ghost from_gives = { λ _ e. e ≡ failure.NoMemory };

    fn from(_refused: NoMemory) -> Failure {
        Failure::NoMemory
    }
}

impl From<AllocError> for Failure {
    ghost use Rattle.embed.specs.declared.failure.Failure.TheVariants as failure;

    ghost from_gives = { λ _ e. e ≡ failure.NoMemory };

    fn from(_refused: AllocError) -> Failure {
        Failure::NoMemory
    }
}
