//! Worlds that are refused.

ghost use Rattle.std.specs.Prelude.{IfOk, string_bytes};
ghost use Rattle.wblock_words.specs.Sentences.{TellsWorld};

use crate::files::kind_of;
use records::{ReadRefusal, read_u32, read_u64};
use std::alloc::{AllocError, Global};
use wblock_calls::place_line;

/// A field of a world.
#[derive(Clone, Copy, Debug, PartialEq, Eq)]
enum Field {
    /// The length of the contract of this number, and all that is wrong with it.
    Contract(u32),
    /// The number of cells of a list.
    Count(&'static str),
    /// The cell of this number of a list, and its byte.
    Cell(&'static str, usize, usize),
    /// What is left over.
    Over,
}

/// The contract at which so many bytes are left, or the bytes behind the contracts.
fn contract_at(bytes: &[u8], left: usize) -> Result<&[u8], u32> {
    let Ok((count, mut rest)) = read_u32(bytes) else {
        return Err(0);
    };
    for number in 0..count {
        if rest.len() <= left {
            return Err(number);
        }
        let Ok((size, body)) = read_u32(rest) else {
            return Err(number);
        };
        let Some(after) = body.get(size as usize..) else {
            return Err(number);
        };
        rest = after;
    }
    Ok(rest)
}

/// The field of a list of cells at which so many bytes are left, or the bytes behind the list.
fn cell_at<'a>(bytes: &'a [u8], list: &'static str, left: usize) -> Result<&'a [u8], Field> {
    if bytes.len() <= left {
        return Err(Field::Count(list));
    }
    let Ok((count, cells)) = read_u64(bytes) else {
        return Err(Field::Count(list));
    };
    let at = cells.len().saturating_sub(left);
    let number = at / 20;
    if (number as u64) < count {
        return Err(Field::Cell(list, number, at % 20));
    }
    let whole = usize::try_from(count)
        .unwrap_or(usize::MAX)
        .saturating_mul(20);
    cells.get(whole..).ok_or(Field::Count(list))
}

/// The field of a world at which so many bytes are left, behind its version.
fn field_at(bytes: &[u8], left: usize) -> Field {
    let cells = match contract_at(bytes, left) {
        Ok(cells) => cells,
        Err(number) => return Field::Contract(number),
    };
    let counters = match cell_at(cells, "map cell", left) {
        Ok(counters) => counters,
        Err(field) => return field,
    };
    match cell_at(counters, "counter", left) {
        Ok(_) => Field::Over,
        Err(field) => field,
    }
}

/// What is wrong with a cell at its byte.
fn cell_cause(byte: usize) -> &'static str {
    match byte {
        0 => "it is cut off, or its contract is below that of the cell before",
        4 => "its key is not above that of the cell before",
        _ => "its value is 0, which no counter has here",
    }
}

/// What is said of a field of a world.
fn field_fault(alloc: Global, field: Field) -> Result<String, AllocError> {
    match field {
        Field::Contract(number) => format!(in alloc;
            ", contract {number}: its module is cut off, is not valid, cannot be a contract, or is not in its shortest spelling"
        ),
        Field::Count(list) => format!(in alloc;
            ": the number of {list}s is cut off, or they do not fit into the file"
        ),
        Field::Cell(list, number, byte) => {
            let cause = cell_cause(byte);
            format!(in alloc; ", {list} {number}: {cause}")
        }
        Field::Over => ": the world ends here, and the file goes on".to_string(alloc),
    }
}

/// What is said of bytes that are no world from this byte on.
fn fault_at(alloc: Global, bytes: &[u8], at: usize) -> Result<String, AllocError> {
    match at {
        0 => {
            let kind = kind_of(bytes);
            format!(in alloc; ": the file does not begin as a world does, and {kind}")
        }
        4 => ": the version of the format is not 1".to_string(alloc),
        8 => ": the number of contracts is cut off, or they do not fit into the file".to_string(
            alloc,
        ),
        _ => match bytes.get(8..) {
            Some(parts) => {
                let field = field_at(parts, bytes.len().saturating_sub(at));
                field_fault(alloc, field)
            }
            None => field_fault(alloc, Field::Over),
        },
    }
}

/// The sentence of bytes that are no world.
///
/// # Errors
///
/// Memory is refused, or that is the refusal.
pub fn world_words(alloc: Global, bytes: &[u8], refusal: ReadRefusal) -> Result<String, AllocError>
    ensures { IfOk result (λ s. TellsWorld refusal (string_bytes s)) }
{
    match refusal {
        ReadRefusal::Malformed(at) => {
            let fault = fault_at(alloc, bytes, at)?;
            let said = format!(in alloc;
                "{fault}; name a file WORLD as `deploy` or `mine` wrote it, whole"
            )?;
            place_line(alloc, "world, byte ", at, said.as_str())
        }
        ReadRefusal::TooLarge => place_line(
            alloc,
            "world, byte ",
            8,
            ": there are more than 1,024 contracts; deploy fewer",
        ),
        ReadRefusal::NoMemory => Err(AllocError),
    }
}
