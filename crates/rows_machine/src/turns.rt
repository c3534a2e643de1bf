//! What turns tell, one after another.

ghost use Rattle.interp.specs.Progress.{IsFree};

use crate::finishes::put_end;
use crate::machines::{make_turn, play, unfinished};
use crate::put::put_debug;
use crate::question::{number, question_of};
use crate::refused::Refused;
use interp::machine::Machine;
use std::alloc::Global;

/// Makes so many turns, and puts what each came to.
fn put_turns<'a>(
    out: &mut String,
    machine: &mut Machine<'a, Global>,
    count: u64,
) -> Result<(), Refused>
    requires { IsFree machine.old.status }
    ensures { IsFree machine.new.status }
{
    'turns: for _ in 0..count {
        let turn = make_turn(machine);
        put_debug(out, "", &turn)?;
    }
    Ok(())
}

/// Puts what a machine shows under this word.
fn put_shown<'a>(
    out: &mut String,
    machine: &Machine<'a, Global>,
    word: &str,
) -> Result<(), Refused> {
    match word {
        "ending" => {
            put_debug(out, "ending ", &machine.ending())?;
        }
        "stack" => {
            put_debug(out, "stack ", &machine.stack())?;
        }
        "locals" => {
            put_debug(out, "locals ", &machine.locals())?;
        }
        "place" => {
            put_debug(out, "place ", &machine.place())?;
        }
        _ => return Err(Refused::Line),
    }
    Ok(())
}

/// Does what a line asks, and puts what it tells.
fn put_asked<'a>(
    out: &mut String,
    machine: &mut Machine<'a, Global>,
    ask: &str,
) -> Result<(), Refused>
    requires { IsFree machine.old.status }
    ensures { IsFree machine.new.status }
{
    let (word, rest) = ask.split_once(' ').unwrap_or((ask, ""));
    match word {
        "next" => {
            let count = number(rest)?;
            put_turns(out, machine, count)
        }
        "play" => {
            play(machine);
            Ok(())
        }
        _ => put_shown(out, machine, word),
    }
}

/// Does what lines ask, one after another.
fn put_all<'a>(
    out: &mut String,
    machine: &mut Machine<'a, Global>,
    asks: &[String],
) -> Result<(), Refused>
    requires { IsFree machine.old.status }
{
    'asks: for ask in asks {
        put_asked(out, machine, ask.as_str())?;
    }
    Ok(())
}

/// What is told of a call, which has no end before its first turn, and what it comes to.
pub(crate) fn answer_to(alloc: Global, input: &[u8]) -> Result<String, Refused> {
    let question = question_of(alloc, input)?;
    let mut machine = unfinished(alloc, &question.contracts, &question.call)?;
    let mut out = String::new(alloc);
    put_all(&mut out, &mut machine, &question.asks)?;
    put_end(&mut out, machine)?;
    Ok(out)
}
