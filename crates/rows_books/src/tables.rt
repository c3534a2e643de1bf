//! What calls of a table of locks may hold at once.

ghost use Rattle.std.specs.Prelude.{◌≡◌, length};

use crate::put::put_debug;
use crate::refused::Refused;
use crate::words::{cut, lock_of, mode_of, short, text_of};
use abstract_locks::Table;
use std::alloc::Global;

/// Puts what is answered where a call takes a lock: `KIND CONTRACT:KEY MODE`.
fn put_taken(out: &mut String, table: &mut Table, call: u32, rest: &str) -> Result<(), Refused>
    requires { length table.old ≡ 2 }
    ensures { length table.new ≡ 2 }
{
    let (lock, mode) = lock_of(rest)?;
    let mode = mode_of(mode)?;
    if call >= 2 {
        return Err(Refused::Line);
    }
    let answer = table.take(call, lock, mode);
    put_debug(out, &answer)?;
    Ok(())
}

/// Puts whether a call may take a lock.
fn put_may_take(out: &mut String, table: &Table, call: u32, rest: &str) -> Result<(), Refused>
    requires { length table.now ≡ 2 }
{
    let (lock, mode) = lock_of(rest)?;
    let mode = mode_of(mode)?;
    if call >= 2 {
        return Err(Refused::Line);
    }
    let may = table.may_take(call, lock, mode);
    put_debug(out, &may)?;
    Ok(())
}

/// Lets the locks of a call go.
fn release(out: &mut String, table: &mut Table, call: u32) -> Result<(), Refused>
    requires { length table.old ≡ 2 }
    ensures { length table.new ≡ 2 }
{
    if call >= 2 {
        return Err(Refused::Line);
    }
    table.release(call);
    out.push_str("done\n")?;
    Ok(())
}

/// Does what a line says, and puts the answer: `take CALL LOCK MODE`, `may_take CALL LOCK MODE` or `release CALL`.
fn put_answer(out: &mut String, table: &mut Table, line: &str) -> Result<(), Refused>
    requires { length table.old ≡ 2 }
    ensures { length table.new ≡ 2 }
{
    let (word, rest) = cut(line);
    let (call, rest) = cut(rest);
    let call = short(call)?;
    out.push_str(line)?;
    out.push_str(": ")?;
    match word {
        "take" => put_taken(out, table, call, rest),
        "may_take" => put_may_take(out, table, call, rest),
        "release" => release(out, table, call),
        _ => Err(Refused::Line),
    }
}

/// What a table of two calls answers to each line.
pub(crate) fn lock_table(alloc: Global, lines: &[u8]) -> Result<String, Refused> {
    let mut table = Table::open(alloc, 2)?;
    let mut out = String::new(alloc);
    'lines: for line in text_of(lines)?.split('\n') {
        if !line.is_empty() {
            put_answer(&mut out, &mut table, line)?;
        }
    }
    Ok(out)
}
