//! What a row asks: a call, what is asked of it in lines, and modules.

use crate::refused::Refused;
use call::Call;
use link::deployed::Deployed;
use spec_ledger::Version;
use std::alloc::Global;
use std::str::from_utf8;
use test_support::deployed;
use wtypes::Value;

/// What a module begins with.
const HEAD: [u8; 8] = [0, b'a', b's', b'm', 1, 0, 0, 0];

/// A call, the lines behind its own, and the contracts.
#[derive(Drop)]
pub(crate) struct Question {
    pub(crate) call: Call,
    pub(crate) asks: Vec<String>,
    pub(crate) contracts: Vec<Deployed<Global>>,
}

/// The lines before the first empty one, and the bytes behind it.
pub(crate) fn parted(input: &[u8]) -> Option<(&str, &[u8])> {
    let mut before = 0;
    for (place, byte) in input.iter().enumerate() {
        if *byte == b'\n' && before == b'\n' {
            let (lines, behind) = input.split_at(place);
            return Some((from_utf8(lines).ok()?, behind.get(1..)?));
        }
        before = *byte;
    }
    None
}

/// Whether a module begins at this place.
fn is_head(bytes: &[u8], place: usize) -> bool {
    match bytes.get(place..) {
        Some(rest) => rest.starts_with(&HEAD),
        None => false,
    }
}

/// Puts the contract of the module between two places behind these.
fn put_contract(
    alloc: Global,
    contracts: &mut Vec<Deployed<Global>>,
    bytes: &[u8],
    from: usize,
    to: usize,
) -> Result<(), Refused> {
    let module = bytes.get(from..to).unwrap_or(&[]);
    match deployed(alloc, module) {
        Ok(contract) => contracts.push(contract)?,
        Err(_) => return Err(Refused::Contract),
    }
    Ok(())
}

/// The contracts of modules that stand one behind another: each ends where the head of the next one stands.
pub(crate) fn contracts_of(alloc: Global, bytes: &[u8]) -> Result<Vec<Deployed<Global>>, Refused> {
    let mut contracts = Vec::new(alloc);
    let mut from = 0;
    for place in 1..bytes.len() {
        if is_head(bytes, place) {
            put_contract(alloc, &mut contracts, bytes, from, place)?;
            from = place;
        }
    }
    put_contract(alloc, &mut contracts, bytes, from, bytes.len())?;
    Ok(contracts)
}

/// The value of a word.
pub(crate) fn value_of(word: &str) -> Option<Value> {
    match word.split_once(':')? {
        ("i32", digits) => Some(Value::I32(digits.parse::<i32>().ok()?)),
        ("i64", digits) => Some(Value::I64(digits.parse::<i64>().ok()?)),
        _ => None,
    }
}

/// The contract, the fuel and the export that the first words of a line name.
fn called(line: &str) -> Option<(u32, u64, &str)> {
    let (contract, rest) = line.split_once(' ')?;
    let (fuel, rest) = rest.split_once(' ')?;
    let (entry, _) = rest.split_once(' ').unwrap_or((rest, ""));
    let contract = contract.parse::<u32>().ok()?;
    Some((contract, fuel.parse::<u64>().ok()?, entry))
}

/// The call of a line, as a file of calls has it.
fn call_of(alloc: Global, line: &str) -> Result<Call, Refused> {
    let Some((contract, fuel, entry)) = called(line) else {
        return Err(Refused::Line);
    };
    let mut args = Vec::new(alloc);
    for word in line.split(' ').skip(3) {
        match value_of(word) {
            Some(value) => args.push(value)?,
            None => return Err(Refused::Line),
        }
    }
    match Call::new(contract, entry.to_string(alloc)?, args, fuel) {
        Some(call) => Ok(call),
        None => Err(Refused::Line),
    }
}

/// The lines behind the first.
fn asks_of(alloc: Global, lines: &str) -> Result<Vec<String>, Refused> {
    let mut asks = Vec::new(alloc);
    for line in lines.split('\n').skip(1) {
        if !line.is_empty() {
            asks.push(line.to_string(alloc)?)?;
        }
    }
    Ok(asks)
}

/// What bytes ask.
pub(crate) fn question_of(alloc: Global, input: &[u8]) -> Result<Question, Refused> {
    let Some((lines, modules)) = parted(input) else {
        return Err(Refused::Line);
    };
    let (line, _) = lines.split_once('\n').unwrap_or((lines, ""));
    Ok(Question {
        call: call_of(alloc, line)?,
        asks: asks_of(alloc, lines)?,
        contracts: contracts_of(alloc, modules)?,
    })
}

/// The version that the only line behind the call names: none where there is no such line.
pub(crate) fn version_of(asks: &[String]) -> Result<Option<Version>, Refused> {
    match asks.first() {
        None => Ok(None),
        Some(ask) => match ask.as_str() {
            "version 1" => Ok(Some(Version::One)),
            "version 2" => Ok(Some(Version::Two)),
            _ => Err(Refused::Line),
        },
    }
}

/// The first word of a line, and what stands behind the space after it.
pub(crate) fn cut(line: &str) -> (&str, &str) {
    line.split_once(' ').unwrap_or((line, ""))
}

/// A number of 32 bits.
pub(crate) fn short(digits: &str) -> Result<u32, Refused> {
    match digits.parse::<u32>() {
        Ok(number) => Ok(number),
        Err(_) => Err(Refused::Line),
    }
}

/// The number behind the word of a line.
pub(crate) fn number(digits: &str) -> Result<u64, Refused> {
    match digits.parse::<u64>() {
        Ok(number) => Ok(number),
        Err(_) => Err(Refused::Line),
    }
}
