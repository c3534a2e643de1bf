//! Whether turns in one call come to the same as single ones.

ghost use Rattle.interp.specs.Progress.{IsFree};

use crate::machines::{started, turn_on, turn_on_by_one};
use crate::question::{Question, question_of};
use crate::refused::Refused;
use call::Call;
use interp::machine::Machine;
use link::deployed::Deployed;
use std::alloc::Global;

/// How many stops are compared: operations, levels that are entered and left, and the end, which is told again.
const STOPS: u32 = 8;

/// Whether two machines show the same.
fn show_alike<'a>(at_once: &Machine<'a, Global>, by_one: &Machine<'a, Global>) -> bool {
    at_once.used() == by_one.used() && at_once.stack() == by_one.stack()
}

/// Whether the next stops of two machines are the same, of which one makes the turns in one call and the other one by one.
fn stop_alike<'a>(at_once: &mut Machine<'a, Global>, by_one: &mut Machine<'a, Global>) -> bool
    requires at_once { IsFree at_once.old.status }
    requires by_one { IsFree by_one.old.status }
{
    'stops: for _ in 0..STOPS {
        let turn = turn_on_by_one(by_one);
        let told = turn_on(at_once) == turn;
        let shown = show_alike(at_once, by_one);
        if !told || !shown {
            return false;
        }
    }
    true
}

/// Whether both have run to an end, and it is the same.
fn end_alike<'a>(at_once: Machine<'a, Global>, by_one: Machine<'a, Global>) -> bool {
    match (at_once.finish(), by_one.finish()) {
        (Ok(at_once), Ok(by_one)) => {
            at_once.outcome() == by_one.outcome() && at_once.trace() == by_one.trace()
        }
        _ => false,
    }
}

/// Whether turns of a call in one call come to the same as single ones.
fn is_alike(alloc: Global, contracts: &[Deployed<Global>], call: &Call) -> Result<bool, Refused> {
    let mut at_once = started(alloc, contracts, call, None)?;
    let mut by_one = started(alloc, contracts, call, None)?;
    let stops = stop_alike(&mut at_once, &mut by_one);
    Ok(end_alike(at_once, by_one) && stops)
}

/// The same call with another fuel.
fn fuelled(alloc: Global, call: &Call, fuel: u64) -> Result<Call, Refused> {
    let entry = call.entry().to_string(alloc)?;
    let args = call.args().to_vec(alloc)?;
    match Call::new(call.contract(), entry, args, fuel) {
        Some(call) => Ok(call),
        None => Err(Refused::Line),
    }
}

/// The fuel with which a call differs, from none to its own.
fn differing(alloc: Global, question: &Question) -> Result<Option<u64>, Refused> {
    for fuel in 0..=question.call.fuel() {
        let call = fuelled(alloc, &question.call, fuel)?;
        if !is_alike(alloc, &question.contracts, &call)? {
            return Ok(Some(fuel));
        }
    }
    Ok(None)
}

/// Whether turns of a call in one call come to the same as single ones, with its fuel and with each that is less.
pub(crate) fn alike(alloc: Global, input: &[u8]) -> Result<String, Refused> {
    let question = question_of(alloc, input)?;
    match differing(alloc, &question)? {
        None => Ok("alike\n".to_string(alloc)?),
        Some(fuel) => Ok(format!(in alloc; "not alike with {fuel}\n")?),
    }
}
