//! Calls that run side by side in a book.
ghost use Rattle.std.specs.Prelude.{◌≡◌, ◌+◌, ◌<◌, IfOk, OnOk, length};

use crate::book_load::{GROUPS, LIVE, Load, ROUNDS};
use boost::book::{Book, Run, Ticket};
use rand_pcg::Pcg32;
use spec_ledger::{Outcome, TraceStep};
use std::alloc::Global;
use storage::NoMemory;

/// A call that runs.
#[derive(Drop)]
struct Live {
    ticket: Ticket,
    trace: Vec<TraceStep>,
    /// What chooses its keys.
    random: Pcg32,
}

/// Begins a call.
fn begun(book: &mut Book, alloc: Global, call: u32) -> Result<Live, NoMemory>
    ensures { OnOk result (book.new.entries ≡ book.old.entries) }
{
    let Ok(ticket) = book.begin(call) else {
        return Err(NoMemory);
    };
    Ok(Live {
        ticket,
        trace: Vec::new(alloc),
        random: Pcg32::new(u64::from(call), 0),
    })
}

/// Does a call's next operation.
fn operate(book: &mut Book, live: &mut Live, load: Load) -> Result<(), NoMemory>
    ensures { OnOk result (book.new.entries ≡ book.old.entries) }
{
    let op = load.operation(&mut live.random);
    let Ok(reply) = book.op(&live.ticket, op) else {
        return Err(NoMemory);
    };
    live.trace
        .push(TraceStep::Did(op, reply))
        .map_err(|_| NoMemory)
}

/// Commits a call.
fn commit(book: &mut Book, live: Live) -> Result<(), NoMemory>
    ensures { OnOk result (length book.new.entries ≡ length book.old.entries + 1) }
{
    let Live {
        ticket,
        trace,
        random: _,
    } = live;
    let run = Run {
        trace: &trace,
        outcome: Outcome::Returned(None),
    };
    match book.commit(ticket, &run) {
        Ok(_) => Ok(()),
        Err(_) => Err(NoMemory),
    }
}

/// Begins as many calls as are live at once, from this one on.
fn begin_group(book: &mut Book, alloc: Global, first: u32) -> Result<Vec<Live>, NoMemory>
    requires { first < 1000 }
    ensures lives { IfOk result (λ lives. length lives.items ≡ 8) }
    ensures entries { OnOk result (book.new.entries ≡ book.old.entries) }
{
    let mut lives = Vec::new(alloc);
    for call in first..first + LIVE {
        let live = begun(book, alloc, call)?;
        lives.push(live).map_err(|_| NoMemory)?;
    }
    Ok(lives)
}

/// Does an operation of each call, call after call.
fn run_round(book: &mut Book, lives: &mut [Live], load: Load) -> Result<(), NoMemory>
    ensures { OnOk result (book.new.entries ≡ book.old.entries) }
{
    for live in lives {
        operate(book, live, load)?;
    }
    Ok(())
}

/// Does the operations of all rounds.
fn run_rounds(book: &mut Book, lives: &mut [Live], load: Load) -> Result<(), NoMemory>
    ensures { OnOk result (book.new.entries ≡ book.old.entries) }
{
    for _ in 0..ROUNDS {
        run_round(book, lives, load)?;
    }
    Ok(())
}

/// Commits calls, the last one first.
fn commit_group(book: &mut Book, mut lives: Vec<Live>) -> Result<(), NoMemory>
    ensures { OnOk result (length book.new.entries ≡ length book.old.entries + length lives.items) }
{
    while let Some(live) = lives.pop() {
        commit(book, live)?;
    }
    Ok(())
}

/// Runs all calls, and commits each. The calls are new and no two of their operations conflict, so that a book refuses them nothing but memory.
///
/// # Errors
///
/// Where memory was refused.
pub fn commit_calls(book: &mut Book, alloc: Global, load: Load) -> Result<(), NoMemory>
    ensures { OnOk result (length book.new.entries ≡ length book.old.entries + 1000) }
{
    for group in 0..GROUPS {
        let mut lives = begin_group(book, alloc, group * LIVE)?;
        run_rounds(book, &mut lives, load)?;
        commit_group(book, lives)?;
    }
    Ok(())
}
