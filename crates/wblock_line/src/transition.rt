//! What a command makes of a world, while the world that it leaves has no bytes yet.

ghost use Rattle.std.specs.Prelude.{◌≡◌, ◌++◌, IfOk, map, string_bytes};
ghost use Rattle.wblock_line.specs.Answers.{upshot_of, write_of};
ghost use Rattle.wblock_line.specs.Transitions.{leaving, next_write, note_in};

use crate::answer::{Answer, Write};
use std::alloc::Global;
use world::{World, encode_world};
use wtypes::NoMemory;

/// The world that a command leaves.
#[derive(Drop)]
pub struct NextWorld<'a> {
    /// The name of the file that is to hold it.
    pub name: &'a str,
    /// The world.
    pub world: World,
}

/// What a command that is not refused does.
#[derive(Drop)]
pub struct Change<'a> {
    /// The files that are to be written, one after another, without the world.
    pub writes: Vec<Write<'a>>,
    /// The world that is to be written behind them, if any.
    pub next: Option<NextWorld<'a>>,
    /// What is to be printed then.
    pub text: String,
    /// What is to be said on standard error then: lines, each with its newline, or nothing.
    pub note: String,
}

/// What a command makes of a world.
#[derive(Drop)]
pub enum Transition<'a> {
    /// It is done.
    Done(Change<'a>),
    /// It is refused, with this line and with the sentence that says why, as an answer is. The world stays.
    Refused(String, String),
}

/// What a command comes to, and what is said on standard error once it is done.
#[derive(Debug, Drop)]
pub struct Noted<'a> {
    /// What it comes to.
    pub answer: Answer<'a>,
    /// Lines, each with its newline, or nothing.
    pub note: String,
}

/// These files, and behind them the world that is left, if any.
fn with_next<'a>(
    alloc: Global,
    mut writes: Vec<Write<'a>>,
    next: Option<NextWorld<'a>>,
) -> Result<Vec<Write<'a>>, NoMemory>
    ensures { IfOk result (λ all. map write_of all.items ≡ map write_of writes.entry.items ++ next_write next.entry) }
{
    let Some(left) = next else {
        return Ok(writes);
    };
    let bytes = encode_world(alloc, &left.world)?;
    writes.push(Write {
        name: left.name,
        bytes,
    })?;
    Ok(writes)
}

/// The answer that writes the world that is left, too, behind its other files.
///
/// # Errors
///
/// Memory was refused.
pub fn with_world<'a>(alloc: Global, transition: Transition<'a>) -> Result<Noted<'a>, NoMemory>
    ensures answer { IfOk result (λ n. upshot_of n.answer ≡ leaving transition.entry) }
    ensures note { IfOk result (λ n. string_bytes n.note ≡ note_in transition.entry) }
{
    match transition {
        Transition::Refused(line, why) => Ok(Noted {
            answer: Answer::Refused(line, why),
            note: String::new(alloc),
        }),
        Transition::Done(change) => {
            let Change {
                writes,
                next,
                text,
                note,
            } = change;
            let writes = with_next(alloc, writes, next)?;
            Ok(Noted {
                answer: Answer::Done(writes, text),
                note,
            })
        }
    }
}
