//! Which function a call starts with.

use crate::numbers::first_line;
use crate::refused::Refused;
use call::Call;
use instance::{asked_entry, entry_of};
use std::alloc::Global;
use std::str::from_utf8;
use test_support::{EXAMPLE, FIRST_MODULE, deployed};
use wtypes::Value;

/// The value of a word.
fn value_of(word: &str) -> Option<Value> {
    match word.split_once(':')? {
        ("i32", digits) => Some(Value::I32(digits.parse::<i32>().ok()?)),
        ("i64", digits) => Some(Value::I64(digits.parse::<i64>().ok()?)),
        _ => None,
    }
}

/// The call of the words of a line: the name of an export, and arguments.
fn call_of(alloc: Global, line: &str) -> Result<Call, Refused> {
    let mut args = Vec::new(alloc);
    for word in line.split(' ').skip(1) {
        match value_of(word) {
            Some(value) => args.push(value)?,
            None => return Err(Refused::Line),
        }
    }
    let (name, _) = line.split_once(' ').unwrap_or((line, ""));
    match Call::new(0, name.to_string(alloc)?, args, 100) {
        Some(call) => Ok(call),
        None => Err(Refused::Line),
    }
}

/// The function that a call enters, or why it enters none and the number of that: the first line has the name and the arguments, and the module is
/// behind it.
pub(crate) fn entry(alloc: Global, input: &[u8]) -> Result<String, Refused> {
    let (line, bytes) = first_line(input)?;
    let call = call_of(alloc, line)?;
    let Ok(contract) = deployed(alloc, bytes) else {
        return Err(Refused::Contract);
    };
    match entry_of(&contract, &call) {
        Ok(func) => Ok(format!(in alloc; "{func}\n")?),
        Err(refusal) => {
            let number = refusal.code();
            Ok(format!(in alloc; "{refusal:?} {number}\n")?)
        }
    }
}

/// The three numbers of a line.
fn three(line: &str) -> Option<(usize, u32, u32)> {
    let (level, rest) = line.split_once(' ')?;
    let (contract, export) = rest.split_once(' ')?;
    let level = level.parse::<usize>().ok()?;
    let contract = contract.parse::<u32>().ok()?;
    let export = export.parse::<u32>().ok()?;
    Some((level, contract, export))
}

/// The function that is entered of the two contracts of `test_support`, or the status: how many levels there are, the number of a contract and that of its
/// export.
pub(crate) fn asked(alloc: Global, input: &[u8]) -> Result<String, Refused> {
    let Some((level, contract, export)) = three(from_utf8(input).unwrap_or("")) else {
        return Err(Refused::Line);
    };
    let Ok(example) = deployed(alloc, EXAMPLE) else {
        return Err(Refused::Contract);
    };
    let Ok(first) = deployed(alloc, FIRST_MODULE) else {
        return Err(Refused::Contract);
    };
    match asked_entry(&[example, first], level, contract, export) {
        Ok((_, func)) => Ok(format!(in alloc; "{func}\n")?),
        Err(status) => Ok(format!(in alloc; "status {status}\n")?),
    }
}
