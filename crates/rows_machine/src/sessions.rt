//! What a session of the debugger answers, command by command.

use crate::put::put_debug;
use crate::question::{number, question_of};
use crate::refused::Refused;
use debugger::Place;
use debugger::session::{Refusal, Session};
use spec_ledger::Version;
use std::alloc::Global;
use storage::Cells;

/// Two numbers, with a space between them.
fn two(words: &str) -> Result<(u64, u64), Refused> {
    let (first, second) = words.split_once(' ').unwrap_or((words, ""));
    Ok((number(first)?, number(second)?))
}

/// The place of this function and ordinal in a contract.
fn place_of(contract: u32, words: &str) -> Result<Place, Refused> {
    let (func, ordinal) = two(words)?;
    match (u32::try_from(func), u32::try_from(ordinal)) {
        (Ok(func), Ok(ordinal)) => Ok(Place {
            contract,
            func,
            ordinal,
        }),
        _ => Err(Refused::Line),
    }
}

/// Goes one turn back, so many times.
fn back_by_ones(session: &mut Session<'_, Global>, count: u64) -> Result<(), Refusal> {
    for _ in 0..count {
        session.back(1)?;
    }
    Ok(())
}

/// Puts what a move comes to: how many turns it made.
fn put_move(
    out: &mut String,
    session: &mut Session<'_, Global>,
    word: &str,
    rest: &str,
) -> Result<(), Refused> {
    let made = match word {
        "step" => session.step(number(rest)?),
        "back" => session.back(number(rest)?),
        _ => session.cont(),
    };
    put_debug(out, " ", &made)?;
    Ok(())
}

/// Puts what a break comes to that is set or cleared in the contract that is called.
fn put_break(
    out: &mut String,
    session: &mut Session<'_, Global>,
    word: &str,
    rest: &str,
) -> Result<(), Refused> {
    let place = place_of(session.called(), rest)?;
    let done = match word {
        "break" => session.break_at(place),
        _ => session.clear(place),
    };
    put_debug(out, " ", &done)?;
    Ok(())
}

/// Puts how many turns were made, the place, and the end.
fn put_state(out: &mut String, session: &Session<'_, Global>) -> Result<(), Refused> {
    let turns = session.turns();
    let place = session.place();
    let ending = session.ending();
    writeln!(out, " {turns} {place:?} {ending:?}")?;
    Ok(())
}

/// Puts the contract that the innermost level runs, how many levels are around it, and how many were entered.
fn put_levels(out: &mut String, session: &Session<'_, Global>, word: &str) -> Result<(), Refused> {
    if word == "asks" {
        put_debug(out, " ", &session.asks())?;
    } else {
        let contract = session.contract();
        let level = session.level();
        writeln!(out, " {contract} {level}")?;
    }
    Ok(())
}

/// Puts values of the innermost level.
fn put_values(out: &mut String, session: &Session<'_, Global>, word: &str) -> Result<(), Refused> {
    let values = match word {
        "stack" => session.stack(),
        "locals" => session.locals(),
        _ => session.globals(),
    };
    put_debug(out, " ", &values)?;
    Ok(())
}

/// Puts bytes of memory.
fn put_bytes(out: &mut String, session: &Session<'_, Global>, rest: &str) -> Result<(), Refused> {
    let (from, count) = two(rest)?;
    let bytes = session.bytes(from, count);
    put_debug(out, " ", &bytes)?;
    Ok(())
}

/// Does what a line asks, and puts what is answered behind it.
fn put_asked(
    out: &mut String,
    session: &mut Session<'_, Global>,
    ask: &str,
) -> Result<(), Refused> {
    out.push_str(ask)?;
    out.push(':')?;
    let (word, rest) = ask.split_once(' ').unwrap_or((ask, ""));
    match word {
        "step" | "back" | "cont" => put_move(out, session, word, rest),
        "back_by_ones" => {
            let gone = back_by_ones(session, number(rest)?);
            put_debug(out, " ", &gone)?;
            Ok(())
        }
        "break" | "clear" => put_break(out, session, word, rest),
        "state" => put_state(out, session),
        "level" | "asks" => put_levels(out, session, word),
        "stack" | "locals" | "globals" => put_values(out, session, word),
        "bytes" => put_bytes(out, session, rest),
        _ => Err(Refused::Line),
    }
}

/// What a session of a call by the rules of version 2 over no cells answers to each line, behind the line.
pub(crate) fn answer_to(alloc: Global, input: &[u8]) -> Result<String, Refused> {
    let question = question_of(alloc, input)?;
    let cells = Cells::new(alloc);
    let mut session = Session::open(
        alloc,
        &question.contracts,
        &cells,
        &question.call,
        Version::Two,
    )?;
    let mut out = String::new(alloc);
    for ask in &question.asks {
        put_asked(&mut out, &mut session, ask.as_str())?;
    }
    Ok(out)
}
