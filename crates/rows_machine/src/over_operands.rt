//! What a function of a module comes to over operands.

use crate::machines::{play, started};
use crate::question::{contracts_of, parted, value_of};
use crate::refused::Refused;
use call::Call;
use link::deployed::Deployed;
use spec_ledger::Outcome;
use std::alloc::Global;
use wtypes::Value;

/// More fuel than a call of an operator uses.
const FUEL: u64 = 10;

/// The values of the words of a line.
fn values_of(alloc: Global, line: &str) -> Result<Vec<Value>, Refused> {
    let mut values = Vec::new(alloc);
    if line.is_empty() {
        return Ok(values);
    }
    for word in line.split(' ') {
        match value_of(word) {
            Some(value) => values.push(value)?,
            None => return Err(Refused::Line),
        }
    }
    Ok(values)
}

/// How a call of this export of contract 0 ends.
fn outcome_of(
    alloc: Global,
    contracts: &[Deployed<Global>],
    entry: &str,
    args: Vec<Value>,
) -> Result<Outcome, Refused> {
    let Some(call) = Call::new(0, entry.to_string(alloc)?, args, FUEL) else {
        return Err(Refused::Line);
    };
    let mut machine = started(alloc, contracts, &call, None)?;
    play(&mut machine);
    match machine.finish() {
        Ok(finished) => Ok(finished.outcome()),
        Err(_) => Err(Refused::Early),
    }
}

/// Puts a value without its type.
fn put_value(out: &mut String, value: Value) -> Result<(), Refused> {
    match value {
        Value::I32(number) => write!(out, "{number}")?,
        Value::I64(number) => write!(out, "{number}")?,
    }
    Ok(())
}

/// Puts how a call ends: its value alone, or its trap.
fn put_outcome(out: &mut String, outcome: Outcome) -> Result<(), Refused> {
    out.push(' ')?;
    match outcome {
        Outcome::Returned(Some(value)) => put_value(out, value)?,
        Outcome::Trapped(code) => write!(out, "{code:?}")?,
        other => write!(out, "{other:?}")?,
    }
    Ok(())
}

/// Puts how the calls end that have this first operand: one for each second one, or one alone where there are none.
fn put_line(
    alloc: Global,
    out: &mut String,
    contracts: &[Deployed<Global>],
    entry: &str,
    first: Value,
    seconds: &[Value],
) -> Result<(), Refused> {
    put_value(out, first)?;
    out.push(':')?;
    if seconds.is_empty() {
        let mut args = Vec::new(alloc);
        args.push(first)?;
        put_outcome(out, outcome_of(alloc, contracts, entry, args)?)?;
    }
    for second in seconds {
        let mut args = Vec::new(alloc);
        args.push(first)?;
        args.push(*second)?;
        put_outcome(out, outcome_of(alloc, contracts, entry, args)?)?;
    }
    out.push('\n')?;
    Ok(())
}

/// A line for each first operand: what an export comes to with it and each second one. The lines are the name of the export, the first operands, and the
/// second ones where it has two.
pub(crate) fn answer_to(alloc: Global, input: &[u8]) -> Result<String, Refused> {
    let Some((lines, modules)) = parted(input) else {
        return Err(Refused::Line);
    };
    let (entry, rest) = lines.split_once('\n').unwrap_or((lines, ""));
    let (firsts, rest) = rest.split_once('\n').unwrap_or((rest, ""));
    let (seconds, _) = rest.split_once('\n').unwrap_or((rest, ""));
    let contracts = contracts_of(alloc, modules)?;
    let seconds = values_of(alloc, seconds)?;
    let mut out = String::new(alloc);
    for first in &values_of(alloc, firsts)? {
        put_line(alloc, &mut out, &contracts, entry, *first, &seconds)?;
    }
    Ok(out)
}
