//! One shard of a book.

use crate::acts::keeps;
use crate::put::put_debug;
use crate::refused::Refused;
use crate::words::{cut, long, op_of, outcome_of, short, steps_of, text_of};
use sharding::Shard;
use std::alloc::Global;
use storage::Cells;

/// Puts what is answered where an attempt is committed: `OUTCOME POSITION`.
fn put_ended(
    out: &mut String,
    shard: &mut Shard,
    call: u32,
    number: u64,
    rest: &str,
) -> Result<(), Refused> {
    let (outcome, position) = cut(rest);
    let answer = shard.end(call, number, outcome_of(outcome)?, short(position)?);
    put_debug(out, &answer)?;
    Ok(())
}

/// Puts what is answered where a level is entered or left, or an operation is done.
fn put_stepped(
    out: &mut String,
    shard: &mut Shard,
    word: &str,
    call: u32,
    number: u64,
    rest: &str,
) -> Result<(), Refused> {
    match word {
        "op" => {
            let answer = shard.op(call, number, op_of(rest)?);
            put_debug(out, &answer)?;
        }
        "enter" => {
            let answer = shard.enter(call, number);
            put_debug(out, &answer)?;
        }
        "leave" => {
            let answer = shard.leave(call, number, keeps(rest)?);
            put_debug(out, &answer)?;
        }
        _ => return Err(Refused::Line),
    }
    Ok(())
}

/// Does what a line says, and puts the answer: `op CALL NUMBER OP`, `enter CALL NUMBER`, `leave CALL NUMBER keep`, `look CALL NUMBER STEPS`, `end CALL
/// NUMBER OUTCOME POSITION` or `undo CALL NUMBER`.
fn put_answer(
    alloc: Global,
    out: &mut String,
    shard: &mut Shard,
    line: &str,
) -> Result<(), Refused> {
    let (word, rest) = cut(line);
    let (call, rest) = cut(rest);
    let (number, rest) = cut(rest);
    let call = short(call)?;
    let number = long(number)?;
    out.push_str(line)?;
    out.push_str(": ")?;
    match word {
        "look" => {
            let answer = shard.look(call, number, &steps_of(alloc, rest)?, 0, 1);
            put_debug(out, &answer)?;
            Ok(())
        }
        "end" => put_ended(out, shard, call, number, rest),
        "undo" => {
            shard.undo(call, number);
            out.push_str("done\n")?;
            Ok(())
        }
        _ => put_stepped(out, shard, word, call, number, rest),
    }
}

/// What a shard of two calls answers to each line.
pub(crate) fn answer_to(alloc: Global, lines: &[u8]) -> Result<String, Refused> {
    let mut shard = Shard::open(alloc, Cells::new(alloc), 2)?;
    let mut out = String::new(alloc);
    for line in text_of(lines)?.split('\n') {
        if !line.is_empty() {
            put_answer(alloc, &mut out, &mut shard, line)?;
        }
    }
    Ok(out)
}
