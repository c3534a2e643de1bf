//! What is wrong with a line.

use std::alloc::AllocError;

/// Why a line of a script is not played.
#[derive(Clone, Copy)]
pub(crate) enum Wrong {
    /// It can't be read as UTF-8, or at all.
    Unread,
    /// No step is done so.
    Step,
    /// There is no such kind, or it had no memory.
    Kind,
    /// Bytes are not compared so.
    How,
    /// Nothing fails so.
    Fail,
    /// A number does not stand where one has to.
    Number,
    /// Hex digits do not stand where they have to.
    Hex,
    /// Bytes have no such place.
    Place,
    /// No bytes have this name.
    Name,
    /// Other bytes have this name.
    Taken,
    /// No file has this name.
    File,
    /// Nothing takes pieces.
    Piece,
    /// It has to stand before the first step of its row.
    Late,
    /// It has to stand behind a step.
    Early,
    /// It has to stand in a row.
    Outside,
    /// The row has no step.
    Empty,
    /// Memory was refused.
    Memory,
}

impl From<AllocError> for Wrong {
    fn from(_: AllocError) -> Wrong {
        Wrong::Memory
    }
}

impl Wrong {
    /// What is wrong, in words.
    pub(crate) fn words(self) -> &'static str {
        match self {
            Wrong::Unread => "the file can't be read",
            Wrong::Step => "no step is done so",
            Wrong::Kind => "no answer came from this kind",
            Wrong::How => "bytes are not compared so",
            Wrong::Fail => "nothing is planned to fail so",
            Wrong::Number => "a number is wanted",
            Wrong::Hex => "hex digits are wanted",
            Wrong::Place => "the bytes have no such place",
            Wrong::Name => "no bytes have this name",
            Wrong::Taken => "other bytes have this name",
            Wrong::File => "no file has this name",
            Wrong::Piece => "nothing before it takes pieces",
            Wrong::Late => "it has to stand before the first step of its row",
            Wrong::Early => "it has to stand behind a step",
            Wrong::Outside => "it has to stand in a row",
            Wrong::Empty => "the row has no step",
            Wrong::Memory => "memory was refused",
        }
    }
}
