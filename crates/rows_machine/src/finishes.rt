//! What a call comes to at its end.

use crate::machines::{play, started};
use crate::put::put_debug;
use crate::question::{question_of, version_of};
use crate::refused::Refused;
use interp::finished::Finished;
use interp::machine::Machine;
use spec_ledger::Version;
use std::alloc::Global;

/// Puts how a call ended, the fuel that it used, how many levels it entered, the version, and what it asked for, a line each.
fn put_finished(out: &mut String, finished: &Finished<'_, Global>) -> Result<(), Refused> {
    put_debug(out, "", &finished.outcome())?;
    put_debug(out, "used ", &finished.used())?;
    put_debug(out, "levels ", &finished.asks())?;
    put_debug(out, "version ", &finished.version())?;
    for step in finished.trace() {
        put_debug(out, "", step)?;
    }
    Ok(())
}

/// Puts what the machine's call came to, or that it has no end.
pub(crate) fn put_end<'a>(out: &mut String, machine: Machine<'a, Global>) -> Result<(), Refused> {
    match machine.finish() {
        Ok(finished) => put_finished(out, &finished),
        Err(_) => {
            out.push_str("no end\n")?;
            Ok(())
        }
    }
}

/// What a call comes to at its end.
pub(crate) fn run(alloc: Global, input: &[u8]) -> Result<String, Refused> {
    let question = question_of(alloc, input)?;
    let version = version_of(&question.asks)?;
    let mut machine = started(alloc, &question.contracts, &question.call, version)?;
    play(&mut machine);
    let mut out = String::new(alloc);
    put_end(&mut out, machine)?;
    Ok(out)
}

/// What a call is answered before an instance is made.
pub(crate) fn without_fuel(alloc: Global, input: &[u8]) -> Result<String, Refused> {
    let question = question_of(alloc, input)?;
    let answered = Finished::without_fuel(alloc, &question.contracts, &question.call, Version::Two);
    let mut out = String::new(alloc);
    match answered {
        Some(finished) => put_finished(&mut out, &finished)?,
        None => out.push_str("None\n")?,
    }
    Ok(out)
}
