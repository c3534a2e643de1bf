//! Words of lines.

use crate::refused::Refused;
use spec_ledger::{CellKey, Kind, Lock, Mode, Op, Outcome, Reply, TraceStep};
use std::alloc::Global;
use std::str::from_utf8;
use storage::Cells;
use wtypes::TrapCode;

/// The text of bytes.
pub fn text_of(bytes: &[u8]) -> Result<&str, Refused> {
    match from_utf8(bytes) {
        Ok(text) => Ok(text),
        Err(_) => Err(Refused::Line),
    }
}

/// The first word of a line, and what stands behind the space after it.
pub fn cut(line: &str) -> (&str, &str) {
    line.split_once(' ').unwrap_or((line, ""))
}

/// A number of 64 bits.
pub fn long(word: &str) -> Result<u64, Refused> {
    match word.parse::<u64>() {
        Ok(number) => Ok(number),
        Err(_) => Err(Refused::Line),
    }
}

/// A number of 32 bits.
pub fn short(word: &str) -> Result<u32, Refused> {
    match word.parse::<u32>() {
        Ok(number) => Ok(number),
        Err(_) => Err(Refused::Line),
    }
}

/// A key of a contract's storage: `CONTRACT:KEY`.
pub fn place_of(word: &str) -> Result<CellKey, Refused> {
    let (contract, key) = word.split_once(':').unwrap_or((word, ""));
    Ok(CellKey {
        contract: short(contract)?,
        key: long(key)?,
    })
}

/// A lock that a line begins with, and what stands behind it: `KIND CONTRACT:KEY`.
pub fn lock_of(line: &str) -> Result<(Lock, &str), Refused> {
    let (word, rest) = cut(line);
    let (place, rest) = cut(rest);
    let kind = match word {
        "Map" => Kind::Map,
        "Counter" => Kind::Counter,
        _ => return Err(Refused::Line),
    };
    let CellKey { contract, key } = place_of(place)?;
    Ok((
        Lock {
            contract,
            kind,
            key,
        },
        rest,
    ))
}

/// How a lock is held.
pub fn mode_of(word: &str) -> Result<Mode, Refused> {
    match word {
        "Read" => Ok(Mode::Read),
        "Add" => Ok(Mode::Add),
        "Excl" => Ok(Mode::Excl),
        _ => Err(Refused::Line),
    }
}

/// How a call ended.
pub(crate) fn outcome_of(word: &str) -> Result<Outcome, Refused> {
    match word {
        "Returned" => Ok(Outcome::Returned(None)),
        "Trapped" => Ok(Outcome::Trapped(TrapCode::Unreachable)),
        "OutOfFuel" => Ok(Outcome::OutOfFuel),
        _ => Err(Refused::Line),
    }
}

/// An operation: `Get PLACE`, `Has PLACE`, `Put PLACE NUMBER`, `Del PLACE`, `Add PLACE NUMBER` or `Total PLACE`.
pub(crate) fn op_of(line: &str) -> Result<Op, Refused> {
    let (word, rest) = cut(line);
    let (place, number) = cut(rest);
    let place = place_of(place)?;
    match word {
        "Get" => Ok(Op::Get(place)),
        "Has" => Ok(Op::Has(place)),
        "Put" => Ok(Op::Put(place, long(number)?)),
        "Del" => Ok(Op::Del(place)),
        "Add" => Ok(Op::Add(place, long(number)?)),
        "Total" => Ok(Op::Total(place)),
        _ => Err(Refused::Line),
    }
}

/// A reply of 32 bits.
fn short_reply(digits: &str) -> Result<Reply, Refused> {
    match digits.parse::<i32>() {
        Ok(number) => Ok(Reply::I32(number)),
        Err(_) => Err(Refused::Line),
    }
}

/// A reply of 64 bits.
fn long_reply(digits: &str) -> Result<Reply, Refused> {
    match digits.parse::<i64>() {
        Ok(number) => Ok(Reply::I64(number)),
        Err(_) => Err(Refused::Line),
    }
}

/// The reply to an operation, which has none where it puts or adds.
fn reply_of(op: Op, digits: &str) -> Result<Reply, Refused> {
    match op {
        Op::Get(_) => long_reply(digits),
        Op::Has(_) => short_reply(digits),
        Op::Put(_, _) => Ok(Reply::Nothing),
        Op::Del(_) => short_reply(digits),
        Op::Add(_, _) => Ok(Reply::Nothing),
        Op::Total(_) => long_reply(digits),
    }
}

/// A step of a call: `Opened`, `Kept`, `Dropped`, or an operation, and ` = ` and the reply where it has one.
fn step_of(text: &str) -> Result<TraceStep, Refused> {
    match text {
        "Opened" => Ok(TraceStep::Opened),
        "Kept" => Ok(TraceStep::Kept),
        "Dropped" => Ok(TraceStep::Dropped),
        _ => {
            let (op, digits) = text.split_once(" = ").unwrap_or((text, ""));
            let op = op_of(op)?;
            Ok(TraceStep::Did(op, reply_of(op, digits)?))
        }
    }
}

/// Steps with commas between them.
pub(crate) fn steps_of(alloc: Global, text: &str) -> Result<Vec<TraceStep>, Refused> {
    let mut steps = Vec::new(alloc);
    if !text.is_empty() {
        for step in text.split(',') {
            steps.push(step_of(step.trim_start())?)?;
        }
    }
    Ok(steps)
}

/// Puts a number into a cell. No counter is put at 0.
pub fn put_cell(cells: &mut Cells, line: &str) -> Result<(), Refused> {
    let (lock, value) = lock_of(line)?;
    let value = long(value)?;
    match lock.kind {
        Kind::Counter if value == 0 => Err(Refused::Line),
        _ => Ok(cells.insert(lock, value)?),
    }
}
