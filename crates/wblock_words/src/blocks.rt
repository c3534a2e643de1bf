//! Blocks that are rejected.

ghost use Rattle.std.specs.Prelude.{IfOk, string_bytes};
ghost use Rattle.wblock_words.specs.Sentences.{TellsBlock};

use crate::files::kind_of;
use records::{BlockRefusal, Fault, read_position, read_receipt, read_u32};
use spec_ledger::Version;
use std::alloc::{AllocError, Global};
use wblock_calls::place_line;

/// What to do about a block that is rejected for the reason of this number.
pub fn advice_on(reason: u8) -> &'static str {
    match reason {
        1 => "name the file BLOCK that `mine` wrote, whole",
        2 => "name the file WORLD over which it was mined, not the world after it",
        3 => "name the file CALLS of which it was mined, unchanged",
        5 | 6 => "give the `--fuel` with which it was mined",
        _ => "do not take it: whoever made it did not mine it as the calls run",
    }
}

/// A field of a position.
#[derive(Clone, Copy, Debug, PartialEq, Eq)]
enum PositionField {
    /// The number of its call.
    Call,
    /// What its call came to.
    Receipt,
    /// Its locks, with their modes and turns.
    Profile,
}

impl PositionField {
    /// What is wrong with the field.
    fn fault(self) -> &'static str {
        match self {
            PositionField::Call => "the number of its call is cut off",
            PositionField::Receipt => "its receipt is cut off, or is none that a call has",
            PositionField::Profile => {
                "its locks are cut off, have another kind or mode than there is, or do not rise"
            }
        }
    }
}

/// A field of a block, behind the digest of the calls.
#[derive(Clone, Copy, Debug, PartialEq, Eq)]
enum Field {
    /// The number of positions.
    Count,
    /// A field of the position of this number.
    Position(u32, PositionField),
    /// The fuel that all calls used.
    Fuel,
    /// The digest of the world after.
    After,
    /// What is left over.
    Over,
}

/// The version of a block whose bytes name one.
fn version_of(bytes: &[u8]) -> Version {
    match bytes {
        [_, _, _, _, 2, ..] => Version::Two,
        _ => Version::One,
    }
}

/// The field at which bytes are no position of this version.
fn position_field(version: Version, bytes: &[u8]) -> PositionField {
    let Ok((_, rest)) = read_u32(bytes) else {
        return PositionField::Call;
    };
    if read_receipt(version, rest).is_ok() {
        PositionField::Profile
    } else {
        PositionField::Receipt
    }
}

/// The field of a block of this version at which it is read no further, of the bytes from the number of positions on.
fn field_of(alloc: Global, version: Version, bytes: &[u8]) -> Result<Field, AllocError> {
    let Ok((count, mut rest)) = read_u32(bytes) else {
        return Ok(Field::Count);
    };
    for number in 0..count {
        match read_position(version, alloc, rest) {
            Ok((_, after)) => rest = after,
            Err(Fault::NoMemory) => return Err(AllocError),
            Err(Fault::Malformed(_) | Fault::TooLarge) => {
                return Ok(Field::Position(number, position_field(version, rest)));
            }
        }
    }
    Ok(match rest.len() {
        0..8 => Field::Fuel,
        8..40 => Field::After,
        _ => Field::Over,
    })
}

/// What is said of a field of a block.
fn field_fault(alloc: Global, field: Field) -> Result<String, AllocError> {
    match field {
        Field::Count =>
            ": the number of positions is cut off, or they do not fit into the file".to_string(
                alloc,
            ),
        Field::Position(number, part) => {
            let fault = part.fault();
            format!(in alloc; ", position {number}: {fault}")
        }
        Field::Fuel => ": the fuel that the calls used is cut off".to_string(alloc),
        Field::After => ": the digest of the world after is cut off".to_string(alloc),
        Field::Over => ": the block ends here, and the file goes on".to_string(alloc),
    }
}

/// What is said of bytes that are no block from this byte on.
fn fault_at(alloc: Global, bytes: &[u8], at: usize) -> Result<String, AllocError> {
    match at {
        0 => {
            let kind = kind_of(bytes);
            format!(in alloc; ": the file does not begin as a block does, and {kind}")
        }
        4 => ": the version of the format is neither 1 nor 2".to_string(alloc),
        8 => ": the digest of the world before is cut off".to_string(alloc),
        40 => ": the digest of the calls is cut off".to_string(alloc),
        72 => field_fault(alloc, Field::Count),
        _ => match bytes.get(72..) {
            Some(rest) => {
                let field = field_of(alloc, version_of(bytes), rest)?;
                field_fault(alloc, field)
            }
            None => field_fault(alloc, Field::Over),
        },
    }
}

/// The sentence of bytes that are no block.
///
/// # Errors
///
/// Memory is refused, or that is the refusal.
pub fn block_words(alloc: Global, bytes: &[u8], refusal: BlockRefusal) -> Result<String, AllocError>
    ensures { IfOk result (λ s. TellsBlock refusal (string_bytes s)) }
{
    match refusal {
        BlockRefusal::Malformed(at) => {
            let fault = fault_at(alloc, bytes, at)?;
            let advice = advice_on(1);
            let said = format!(in alloc; "{fault}; {advice}")?;
            place_line(alloc, "block, byte ", at, said.as_str())
        }
        BlockRefusal::TooLarge => place_line(
            alloc,
            "block, byte ",
            72,
            ": there are more than 65,535 positions; mine fewer calls",
        ),
        BlockRefusal::NoMemory => Err(AllocError),
    }
}
