//! What is said of the calls of a block that did not return.

ghost use Rattle.std.specs.Prelude.{◌↔◌, IsTrue, IfOk, string_bytes};
ghost use Rattle.std.specs.List.{AllByRecursion};
ghost use Rattle.wblock_blocks.specs.Notes.{HasReturned, IsNoteOf};

use block::Position;
use call::Call;
use instance::{Refusal, entry_of};
use link::deployed::Deployed;
use spec_ledger::Outcome;
use std::alloc::{AllocError, Global};
use std::fmt;
use wblock_words::entry_words;

/// The calls that ended in one way, which is no return.
#[derive(Clone, Copy, Debug)]
struct Ending {
    /// How they ended.
    outcome: Outcome,
    /// The number of the first of them, in the order of the block.
    first: u32,
    /// How many there are.
    count: u32,
}

/// An outcome as a receipt names it, without a value.
#[derive(Clone, Copy)]
struct OutcomeName(Outcome);

impl fmt::Display for OutcomeName {
    fn fmt<W: fmt::Write>(&self, f: &mut fmt::Formatter<W>) -> fmt::Result {
        match self.0 {
            Outcome::Returned(_) => f.write_str("returned"),
            Outcome::Trapped(code) => {
                let code = code as u8;
                write!(f, "trapped {code}")
            }
            Outcome::OutOfFuel => f.write_str("out-of-fuel"),
            Outcome::Rejected(code) => write!(f, "rejected {code}"),
        }
    }
}

/// Why a call of these contracts does not start, if it does not.
fn refusal_of(contracts: &[Deployed<Global>], call: &Call) -> Option<Refusal> {
    match contracts.get(call.contract() as usize) {
        None => Some(Refusal::NoContract),
        Some(contract) => entry_of(contract, call).err(),
    }
}

/// What an outcome of a call means.
fn outcome_words(
    alloc: Global,
    contracts: &[Deployed<Global>],
    call: &Call,
    outcome: Outcome,
) -> Result<String, AllocError> {
    match outcome {
        Outcome::Trapped(code) => format!(in alloc; "{code}"),
        Outcome::OutOfFuel => format!(in alloc; "its limit of fuel was used up"),
        Outcome::Returned(_) | Outcome::Rejected(_) => match refusal_of(contracts, call) {
            Some(refusal) => {
                let entry = entry_words(alloc, contracts, call)?;
                format!(in alloc; "{refusal}{entry}")
            }
            None => Ok(String::new(alloc)),
        },
    }
}

/// Whether a call returned.
fn has_returned(position: &Position) -> bool
    ensures { IsTrue result ↔ HasReturned position.now }
{
    matches!(position.receipt().outcome, Outcome::Returned(_))
}

/// Whether all calls returned.
#[tactic(auto, using(crate::proofs::Notes::at))]
fn have_returned(positions: &[Position]) -> bool
    ensures { IsTrue result ↔ AllByRecursion HasReturned positions.now }
{
    for position in positions {
        if !has_returned(position) {
            return false;
        }
    }
    true
}

/// Counts a call among those that ended as it did, and answers whether there are any.
fn is_counted(endings: &mut [Ending], outcome: Outcome) -> bool {
    for ending in endings {
        if ending.outcome == outcome {
            ending.count = ending.count.saturating_add(1);
            return true;
        }
    }
    false
}

/// The ways in which calls ended that did not return, in the order in which the block has them.
fn endings_of(alloc: Global, positions: &[Position]) -> Result<Vec<Ending>, AllocError> {
    let mut endings = Vec::new(alloc);
    for position in positions {
        let outcome = position.receipt().outcome;
        if has_returned(position) || is_counted(&mut endings, outcome) {
            continue;
        }
        endings.push(Ending {
            outcome,
            first: position.call(),
            count: 1,
        })?;
    }
    Ok(endings)
}

/// The line of calls that ended in one way, without its newline: how, how many there are, which is the first, and what that means for it.
fn ending_line(
    alloc: Global,
    contracts: &[Deployed<Global>],
    calls: &[Call],
    ending: &Ending,
) -> Result<String, AllocError> {
    let first = ending.first;
    let Some(call) = calls.get(first as usize) else {
        return Ok(String::new(alloc));
    };
    let name = OutcomeName(ending.outcome);
    let count = ending.count;
    let contract = call.contract();
    let entry = call.entry();
    let words = outcome_words(alloc, contracts, call, ending.outcome)?;
    match count {
        1 => format!(in alloc; "{name}: call {first} (`{entry}` of contract {contract}): {words}"),
        _ => {
            format!(in alloc;
                "{name}: {count} calls, first call {first} (`{entry}` of contract {contract}): {words}"
            )
        }
    }
}

/// The lines of calls that ended in these ways, but for the last newline.
fn ending_lines(
    alloc: Global,
    contracts: &[Deployed<Global>],
    calls: &[Call],
    endings: &[Ending],
) -> Result<String, AllocError> {
    let mut text = String::new(alloc);
    for ending in endings {
        if !text.is_empty() {
            text.push('\n')?;
        }
        let line = ending_line(alloc, contracts, calls, ending)?;
        text.push_str(line.as_str())?;
    }
    Ok(text)
}

/// What is said of the calls of a block of these positions: a line for each way in which some ended that did not return, or nothing where all returned.
pub(crate) fn note_of(
    alloc: Global,
    contracts: &[Deployed<Global>],
    calls: &[Call],
    positions: &[Position],
) -> Result<String, AllocError>
    ensures { IfOk result (λ note. IsNoteOf positions.now (string_bytes note)) }
{
    if have_returned(positions) {
        return Ok(String::new(alloc));
    }
    let endings = endings_of(alloc, positions)?;
    let lines = ending_lines(alloc, contracts, calls, endings.as_slice())?;
    format!(in alloc; "{lines}\n")
}
