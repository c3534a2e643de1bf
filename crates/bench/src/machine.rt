//! How many charged instructions the machine executes a second.
use crate::rates::a_second;
use crate::refusals::refused;
use crate::request::Request;
use crate::runs::run_to_end;
use call::Call;
use interp::machine::Machine;
use link::deployed::Deployed;
use std::alloc::Global;
use std::io;
use std::time::{Clock, Instant};

/// The line of the rate at which the call is run, in charged instructions a second, with how the run ended.
fn line_of<R: Clock>(
    rt: &R,
    alloc: Global,
    contracts: &[Deployed<Global>],
    call: &Call,
) -> io::Result<String> {
    let start = Instant::now(rt)?;
    let Ok(machine) = Machine::start(alloc, contracts, call) else {
        return Err(refused());
    };
    let Some(finished) = run_to_end(machine) else {
        return Err(refused());
    };
    let time = start.elapsed(rt)?;
    let used = finished.used();
    let outcome = finished.outcome();
    let rate = a_second(used, time);
    Ok(format!(in alloc; "{rate} instructions/s used {used} {outcome:?}")?)
}

/// The line of the run that the words ask for.
pub fn measure<R: Clock + std::rt::Files>(
    rt: &R,
    alloc: Global,
    words: &[String],
) -> io::Result<Option<String>> {
    match Request::of_words(words) {
        Some(request) => {
            let (contract, call) = request.prepared(rt, alloc)?;
            Ok(Some(line_of(rt, alloc, &[contract], &call)?))
        }
        None => Ok(None),
    }
}
