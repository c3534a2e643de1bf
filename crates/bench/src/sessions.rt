//! How long a session of the debugger takes forward and back.

use crate::refusals::refused;
use crate::request::Request;
use call::Call;
use debugger::Contract;
use debugger::session::Session;
use spec_ledger::Version;
use std::alloc::Global;
use std::io;
use std::time::{Clock, Instant};
use storage::Cells;

/// The nanoseconds of so many turns, or as many as there are, and how many were made.
fn time_step<R: Clock>(
    rt: &R,
    session: &mut Session<'_, Global>,
    turns: u64,
) -> io::Result<(u64, u128)> {
    let start = Instant::now(rt)?;
    let Ok(made) = session.step(turns) else {
        return Err(refused());
    };
    Ok((made, start.elapsed(rt)?.as_nanos()))
}

/// The nanoseconds of one turn back.
fn time_back<R: Clock>(rt: &R, session: &mut Session<'_, Global>) -> io::Result<u128> {
    let start = Instant::now(rt)?;
    let Ok(_) = session.back(1) else {
        return Err(refused());
    };
    Ok(start.elapsed(rt)?.as_nanos())
}

/// The line of the nanoseconds that so many turns of a session take, and one turn back after them.
fn times_of<R: Clock>(
    rt: &R,
    alloc: Global,
    session: &mut Session<'_, Global>,
    turns: u64,
) -> io::Result<String> {
    let (made, forward) = time_step(rt, session, turns)?;
    let back = time_back(rt, session)?;
    Ok(format!(in alloc; "{made} turns {forward} ns back {back} ns")?)
}

/// The line of the call alone over no cells, by as many turns as its limit of fuel.
fn line_of<R: Clock>(
    rt: &R,
    alloc: Global,
    contracts: &[Contract<Global>],
    call: &Call,
) -> io::Result<String> {
    let cells = Cells::new(alloc);
    match Session::open(alloc, contracts, &cells, call, Version::Two) {
        Ok(mut session) => times_of(rt, alloc, &mut session, call.fuel()),
        Err(_) => Err(refused()),
    }
}

/// The line of the session that the words ask for.
pub fn measure<R: Clock + std::rt::Files>(
    rt: &R,
    alloc: Global,
    words: &[String],
) -> io::Result<Option<String>> {
    match Request::of_words(words) {
        Some(request) => {
            let (contract, call) = request.prepared(rt, alloc)?;
            Ok(Some(line_of(rt, alloc, &[contract], &call)?))
        }
        None => Ok(None),
    }
}
