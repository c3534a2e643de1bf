//! What is done to a book.

use crate::refused::Refused;
use crate::words::{cut, lock_of, long, op_of, outcome_of, short, steps_of};
use boost::book::Run;
use boost::play::Event;
use spec_ledger::{Lock, Op, Outcome, TraceStep};
use std::alloc::Global;

/// What a call did, and how it ended.
#[derive(Drop)]
pub(crate) struct Did {
    pub(crate) trace: Vec<TraceStep>,
    pub(crate) outcome: Outcome,
}

/// What is done to a book: by the number of a call, whose hand has the ticket of its attempt.
#[derive(Drop)]
pub(crate) enum Act {
    /// `begin CALL`: an attempt begins.
    Begin(u32),
    /// `begin CALL NUMBER`: an attempt of this number begins.
    BeginAs(u32, u64),
    /// `op CALL OP`: an operation is done.
    Op(u32, Op),
    /// `enter CALL`: a level is entered.
    Enter(u32),
    /// `leave CALL keep` or `leave CALL drop`: the innermost level is left.
    Leave(u32, bool),
    /// `undo CALL`: the attempt is undone.
    Undo(u32),
    /// `commit CALL OUTCOME STEPS`: the attempt is committed, whose run is this.
    Commit(u32, Did),
    /// `end CALL OUTCOME`: the attempt is committed as the book kept it.
    End(u32, Outcome),
    /// `unbegin CALL COUNT`: the begin is taken back to this count.
    Unbegin(u32, u64),
    /// `trace CALL`: what the attempt did.
    Trace(u32),
    /// `begun CALL`: how many attempts were begun.
    Begun(u32),
    /// `holds KIND CONTRACT:KEY`: what a cell holds.
    Holds(Lock),
}

/// A call that begins, under a number where one is given.
fn begin_of(call: u32, number: &str) -> Result<Act, Refused> {
    if number.is_empty() {
        Ok(Act::Begin(call))
    } else {
        Ok(Act::BeginAs(call, long(number)?))
    }
}

/// Whether what was done in a level is kept.
pub(crate) fn keeps(word: &str) -> Result<bool, Refused> {
    match word {
        "keep" => Ok(true),
        "drop" => Ok(false),
        _ => Err(Refused::Line),
    }
}

/// How a call ended, and what it did.
pub(crate) fn did_of(alloc: Global, text: &str) -> Result<Did, Refused> {
    let (outcome, steps) = cut(text);
    Ok(Did {
        trace: steps_of(alloc, steps)?,
        outcome: outcome_of(outcome)?,
    })
}

/// What is done by a call.
fn of_call(alloc: Global, word: &str, call: u32, rest: &str) -> Result<Act, Refused> {
    match word {
        "begin" => begin_of(call, rest),
        "op" => Ok(Act::Op(call, op_of(rest)?)),
        "enter" => Ok(Act::Enter(call)),
        "leave" => Ok(Act::Leave(call, keeps(rest)?)),
        "undo" => Ok(Act::Undo(call)),
        "commit" => Ok(Act::Commit(call, did_of(alloc, rest)?)),
        "end" => Ok(Act::End(call, outcome_of(rest)?)),
        "unbegin" => Ok(Act::Unbegin(call, long(rest)?)),
        "trace" => Ok(Act::Trace(call)),
        "begun" => Ok(Act::Begun(call)),
        _ => Err(Refused::Line),
    }
}

/// What a line says.
pub(crate) fn act_of(alloc: Global, line: &str) -> Result<Act, Refused> {
    let (word, rest) = cut(line);
    if word == "holds" {
        let (lock, _) = lock_of(rest)?;
        return Ok(Act::Holds(lock));
    }
    let (call, rest) = cut(rest);
    of_call(alloc, word, short(call)?, rest)
}

/// What is done to a book that knows its calls by their numbers; none where no list of events has it.
pub(crate) fn event_of<'b>(act: &'b Act) -> Option<Event<'b>> {
    match act {
        Act::Begin(call) => Some(Event::Begin(*call)),
        Act::Op(call, op) => Some(Event::Op(*call, *op)),
        Act::Enter(call) => Some(Event::Enter(*call)),
        Act::Leave(call, keep) => Some(Event::Leave(*call, *keep)),
        Act::Undo(call) => Some(Event::Undo(*call)),
        Act::Commit(call, did) => Some(Event::Commit(
            *call,
            Run {
                trace: did.trace.as_slice(),
                outcome: did.outcome,
            },
        )),
        _ => None,
    }
}
