//! Books of calls.

use crate::acts::{Act, Did, event_of};
use crate::put::{put_closed, put_debug, put_steps};
use crate::refused::Refused;
use crate::scene::{Scene, scene_of};
use crate::words::text_of;
use boost::book::{Book, Run, Ticket};
use boost::play::Answer;
use spec_ledger::Op;
use std::alloc::Global;
use storage::Cells;

/// The tickets of the calls.
type Hands = [Option<Ticket>; 3];

/// The ticket in the hand of a call.
fn ticket_of(hands: &Hands, call: u32) -> Option<&Ticket> {
    hands.get(call as usize)?.as_ref()
}

/// Takes the ticket out of the hand of a call.
fn taken(hands: &mut Hands, call: u32) -> Option<Ticket> {
    hands.get_mut(call as usize)?.take()
}

/// Gives a ticket to the hand of a call.
fn give(hands: &mut Hands, call: u32, ticket: Ticket) -> Result<(), Refused> {
    match hands.get_mut(call as usize) {
        Some(hand) => {
            *hand = Some(ticket);
            Ok(())
        }
        None => Err(Refused::Line),
    }
}

/// Puts the number of an attempt that is begun, whose ticket comes into the hand of the call.
fn put_begun(
    out: &mut String,
    hands: &mut Hands,
    call: u32,
    ticket: Ticket,
) -> Result<(), Refused> {
    writeln!(out, "Ok({})", ticket.number())?;
    give(hands, call, ticket)
}

/// Puts what is answered to a call that begins.
fn put_begin(
    out: &mut String,
    book: &mut Book,
    hands: &mut Hands,
    call: u32,
) -> Result<(), Refused> {
    match book.begin(call) {
        Ok(ticket) => put_begun(out, hands, call, ticket),
        Err(refusal) => {
            writeln!(out, "Err({refusal:?})")?;
            Ok(())
        }
    }
}

/// Puts what is answered to a call that begins under a number.
fn put_begin_as(
    out: &mut String,
    book: &mut Book,
    hands: &mut Hands,
    call: u32,
    number: u64,
) -> Result<(), Refused> {
    match book.begin_as(call, number) {
        Ok(ticket) => put_begun(out, hands, call, ticket),
        Err(refusal) => {
            writeln!(out, "Err({refusal:?})")?;
            Ok(())
        }
    }
}

/// Puts the reply to an operation.
fn put_done(out: &mut String, book: &mut Book, ticket: &Ticket, op: Op) -> Result<(), Refused> {
    let answer = book.op(ticket, op);
    put_debug(out, &answer)?;
    Ok(())
}

/// Puts what is answered where a level is entered.
fn put_entered(out: &mut String, book: &mut Book, ticket: &Ticket) -> Result<(), Refused> {
    let answer = book.enter(ticket);
    put_debug(out, &answer)?;
    Ok(())
}

/// Puts what is answered where a level is left.
fn put_left(out: &mut String, book: &mut Book, ticket: &Ticket, keep: bool) -> Result<(), Refused> {
    let answer = book.leave(ticket, keep);
    put_debug(out, &answer)?;
    Ok(())
}

/// Puts what an attempt did.
fn put_trace(out: &mut String, book: &Book, ticket: &Ticket) -> Result<(), Refused> {
    match book.trace_of(ticket) {
        Some(steps) => {
            out.push_str("did")?;
            put_steps(out, " ", steps)?;
            out.push('\n')?;
        }
        None => out.push_str("none\n")?,
    }
    Ok(())
}

/// Puts the position of an attempt that is committed, or why it is not: the hand has its ticket again.
fn put_commit(
    out: &mut String,
    book: &mut Book,
    hands: &mut Hands,
    call: u32,
    did: &Did,
) -> Result<(), Refused> {
    let Some(ticket) = taken(hands, call) else {
        return Err(Refused::Line);
    };
    let run = Run {
        trace: did.trace.as_slice(),
        outcome: did.outcome,
    };
    match book.commit(ticket, &run) {
        Ok(position) => {
            writeln!(out, "Ok({position})")?;
            Ok(())
        }
        Err((ticket, refusal)) => {
            writeln!(out, "Err({refusal:?})")?;
            give(hands, call, ticket)
        }
    }
}

/// Does what takes a ticket out of its hand, and puts the answer.
fn put_ended(
    out: &mut String,
    book: &mut Book,
    hands: &mut Hands,
    act: &Act,
) -> Result<(), Refused> {
    match act {
        Act::Undo(call) => match taken(hands, *call) {
            Some(ticket) => {
                book.undo(ticket);
                out.push_str("done\n")?;
                Ok(())
            }
            None => Err(Refused::Line),
        },
        Act::Commit(call, did) => put_commit(out, book, hands, *call, did),
        Act::End(call, outcome) => match taken(hands, *call) {
            Some(ticket) => match book.end(ticket, *outcome) {
                Ok(position) => {
                    writeln!(out, "Ok({position})")?;
                    Ok(())
                }
                Err(ticket) => {
                    out.push_str("not ended\n")?;
                    give(hands, *call, ticket)
                }
            },
            None => Err(Refused::Line),
        },
        Act::Unbegin(call, count) => match taken(hands, *call) {
            Some(ticket) => match book.unbegin(ticket, *count) {
                Ok(()) => {
                    out.push_str("taken back\n")?;
                    Ok(())
                }
                Err(ticket) => {
                    out.push_str("not taken back\n")?;
                    give(hands, *call, ticket)
                }
            },
            None => Err(Refused::Line),
        },
        _ => Err(Refused::Line),
    }
}

/// Does what needs the ticket in its hand, and puts the answer.
fn put_held(out: &mut String, book: &mut Book, hands: &Hands, act: &Act) -> Result<(), Refused> {
    let call = match act {
        Act::Op(call, _) => *call,
        Act::Enter(call) => *call,
        Act::Leave(call, _) => *call,
        Act::Trace(call) => *call,
        _ => return Err(Refused::Line),
    };
    let Some(ticket) = ticket_of(hands, call) else {
        return Err(Refused::Line);
    };
    match act {
        Act::Op(_, op) => put_done(out, book, ticket, *op),
        Act::Enter(_) => put_entered(out, book, ticket),
        Act::Leave(_, keep) => put_left(out, book, ticket, *keep),
        _ => put_trace(out, book, ticket),
    }
}

/// Does what a line says, and puts the answer.
fn put_answer(
    out: &mut String,
    book: &mut Book,
    hands: &mut Hands,
    act: &Act,
) -> Result<(), Refused> {
    match act {
        Act::Begin(call) => put_begin(out, book, hands, *call),
        Act::BeginAs(call, number) => put_begin_as(out, book, hands, *call, *number),
        Act::Begun(call) => {
            let count = book.begun_of(*call);
            put_debug(out, &count)?;
            Ok(())
        }
        Act::Holds(lock) => {
            let cell = book.cell(*lock);
            put_debug(out, &cell)?;
            Ok(())
        }
        Act::Undo(_) | Act::Commit(_, _) | Act::End(_, _) | Act::Unbegin(_, _) => {
            put_ended(out, book, hands, act)
        }
        _ => put_held(out, book, hands, act),
    }
}

/// The ticket of a book's first attempt of call 0.
fn first_ticket(alloc: Global) -> Result<Ticket, Refused> {
    let mut book = Book::open(alloc, Cells::new(alloc), 1)?;
    match book.begin(0) {
        Ok(ticket) => Ok(ticket),
        Err(_) => Err(Refused::NoMemory),
    }
}

/// The hands before the first line.
fn hands_of(alloc: Global, lent: Option<u32>) -> Result<Hands, Refused> {
    let mut hands = [None, None, None];
    if let Some(call) = lent {
        give(&mut hands, call, first_ticket(alloc)?)?;
    }
    Ok(hands)
}

/// Each line, a colon, and what the book answers.
fn put_answers(
    alloc: Global,
    out: &mut String,
    book: &mut Book,
    scene: &Scene<'_>,
) -> Result<(), Refused> {
    let mut hands = hands_of(alloc, scene.lent)?;
    for asked in &scene.asks {
        write!(out, "{}: ", asked.line)?;
        put_answer(out, book, &mut hands, &asked.act)?;
    }
    Ok(())
}

/// What a book answers to lines, and what it has when it is closed.
pub(crate) fn answer_to(alloc: Global, lines: &[u8]) -> Result<String, Refused> {
    let scene = scene_of(alloc, text_of(lines)?)?;
    let mut book = Book::open(alloc, scene.cells.copy(alloc)?, scene.calls)?;
    let mut out = String::new(alloc);
    put_answers(alloc, &mut out, &mut book, &scene)?;
    put_closed(&mut out, &book.close(), &scene.locks)?;
    Ok(out)
}

/// A book in which the lines have happened as events, and its answers.
fn played(alloc: Global, scene: &Scene<'_>) -> Result<(Book, Vec<Answer>), Refused> {
    let mut events = Vec::new(alloc);
    for asked in &scene.asks {
        match event_of(&asked.act) {
            Some(event) => events.push(event)?,
            None => return Err(Refused::Line),
        }
    }
    Ok(Book::play(alloc, scene.cells.copy(alloc)?, &events)?)
}

/// What a book of 65,535 calls answers to lines as a list of events, and what it has when it is closed.
pub(crate) fn events(alloc: Global, lines: &[u8]) -> Result<String, Refused> {
    let scene = scene_of(alloc, text_of(lines)?)?;
    let (book, answers) = played(alloc, &scene)?;
    let mut out = String::new(alloc);
    for (asked, answer) in scene.asks.iter().zip(answers.iter()) {
        writeln!(out, "{}: {answer:?}", asked.line)?;
    }
    put_closed(&mut out, &book.close(), &scene.locks)?;
    Ok(out)
}
