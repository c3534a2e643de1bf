//! What is told of a call.

ghost use Rattle.std.specs.Prelude.{◌≡◌};
ghost use Rattle.foshqarel_c.specs.Buffers.{or_nowhere, subject_number, told_given, told_refusal};

use embed::{Refusal, Subject};

/// No place.
const NOWHERE: u64 = u64::MAX;

/// What is told of a call, whatever it answers.
#[repr(C)]
#[derive(Clone, Copy, Debug, PartialEq, Eq)]
pub struct Told {
    /// How many bytes or items there are to be given, or how many bytes the sentence has.
    pub size: u64,
    /// How many bytes the world after a block has that is produced.
    pub next_size: u64,
    /// Where what was passed is at fault; the greatest number where there is no place.
    pub place: u64,
    /// The number of the function that is at fault; the greatest number where there is none.
    pub function: u64,
    /// What is refused, 0 where nothing is.
    pub subject: u32,
    /// Which refusal, 0 where there is none.
    pub number: u32,
}

/// The number of what is refused.
fn subject_number(subject: Subject) -> u32
    ensures { result ≡ subject_number subject }
{
    match subject {
        Subject::Load => 1,
        Subject::Check => 2,
        Subject::Deploy => 3,
        Subject::Assemble => 4,
        Subject::Text => 5,
        Subject::World => 6,
        Subject::Calls => 7,
        Subject::Block => 8,
    }
}

/// The place, or the greatest number where there is none.
fn or_nowhere(place: Option<u64>) -> u64
    ensures { result ≡ or_nowhere place }
{
    match place {
        Some(place) => place,
        None => NOWHERE,
    }
}

/// The same of a function.
fn function_or_nowhere(function: Option<u32>) -> u64
    ensures { result ≡ or_nowhere function }
{
    match function {
        Some(function) => u64::from(function),
        None => NOWHERE,
    }
}

impl Told {
    /// That so much is to be given, and so much of a world after it.
    pub(crate) fn given(size: usize, next_size: usize) -> Told
        ensures { result ≡ told_given size next_size }
    {
        Told {
            size: size as u64,
            next_size: next_size as u64,
            place: NOWHERE,
            function: NOWHERE,
            subject: 0,
            number: 0,
        }
    }

    /// A refusal, whose sentence has so many bytes.
    pub(crate) fn refused(refusal: Refusal, size: usize) -> Told
        ensures { result ≡ told_refusal refusal size }
    {
        Told {
            size: size as u64,
            next_size: 0,
            place: or_nowhere(refusal.place),
            function: function_or_nowhere(refusal.function),
            subject: subject_number(refusal.subject),
            number: refusal.number,
        }
    }
}
