//! Whole bodies.
ghost use Rattle.std.specs.Prelude.{◌≡◌, ◌<◌, length, option_map, IfOk, IfErr};
ghost use Rattle.lexer.specs.WordsViews.{views};
ghost use Rattle.text_body.specs.Places.{flat_of, flats_of};
ghost use Rattle.text_body.specs.Outcome.{Unless};
ghost use Rattle.text_body.specs.Turns.{seen_top, top_of, state_of, move_of, is_end, completed, left_behind, step_of, applied};
ghost use Rattle.text_body.specs.Bodies.{IsBody, NoBody, BodiesAreOne};
ghost use Rattle.text_body.specs.declared.unread.ParseFault.TheVariants.{NoMemory};

use crate::flat::Flat;
use crate::turns::{Open, ParserStep, Top, next_turn};
use crate::unread::ParseFault;
use lexer::Word;
use std::alloc::Allocator;

/// What is open innermost.
fn innermost<'a, A: Allocator>(stack: &Vec<Open<'a, A>, A>) -> Top<'a>
    ensures { seen_top result ≡ top_of (state_of stack.now.items) }
{
    match stack.last() {
        None => Top::Nothing,
        Some(open) => match open {
            Open::Operands(_) => Top::Operands,
            Open::Inside(form) => Top::Inside(*form),
        },
    }
}

/// Takes the operator away whose operands are innermost.
fn operator<'a, A: Allocator>(stack: &mut Vec<Open<'a, A>, A>) -> Option<Flat<'a, A>>
    ensures { completed (state_of stack.old.items) ≡ (option_map flat_of result, state_of stack.new.items) }
{
    match stack.pop() {
        Some(Open::Operands(flat)) => Some(flat),
        _ => None,
    }
}

/// Leaves what is open innermost, if anything is.
fn leave<'a, A: Allocator>(stack: &mut Vec<Open<'a, A>, A>) -> bool
    ensures { left_behind (state_of stack.old.items) ≡ (result, state_of stack.new.items) }
{
    stack.pop().is_some()
}

/// Whether the turn ends the body.
fn ends<A: Allocator>(turn: &ParserStep<'_, A>) -> bool
    ensures { result ≡ is_end (move_of turn.now) }
{
    matches!(turn, ParserStep::Ends)
}

/// Does a turn, if what is open allows it.
fn apply<'a, A: Allocator>(
    turn: ParserStep<'a, A>,
    stack: &mut Vec<Open<'a, A>, A>,
    flats: &mut Vec<Flat<'a, A>, A>,
) -> Result<bool, ParseFault>
    ensures done { IfOk result (λ done. applied done (state_of stack.new.items, flats_of flats.new.items) ≡ step_of (move_of turn.entry) (state_of stack.old.items) (flats_of flats.old.items)) }
    ensures refused { IfErr result (λ refusal. refusal ≡ NoMemory) }
{
    match turn {
        ParserStep::Emits(flat) => {
            flats.push(flat)?;
            Ok(true)
        }
        ParserStep::Opens(flat, form) => {
            flats.push(flat)?;
            stack.push(Open::Inside(form))?;
            Ok(true)
        }
        ParserStep::Begins(open) => {
            stack.push(open)?;
            Ok(true)
        }
        ParserStep::Completes => {
            let Some(flat) = operator(stack) else {
                return Ok(false);
            };
            flats.push(flat)?;
            Ok(true)
        }
        ParserStep::Closes(flat) => {
            if !leave(stack) {
                return Ok(false);
            }
            flats.push(flat)?;
            Ok(true)
        }
        ParserStep::Turns(flat, form) => {
            if !leave(stack) {
                return Ok(false);
            }
            flats.push(flat)?;
            stack.push(Open::Inside(form))?;
            Ok(true)
        }
        ParserStep::Ends => Ok(false),
    }
}

/// Reads the instructions up to a `)`, folded forms unfolded, and goes past that bracket. Where it refuses, it says
/// how many words were left.
pub fn body<'w, 'a, A: Allocator + Clone>(
    alloc: &A,
    rest: &mut &'w [Word<'a>],
) -> Result<Vec<Flat<'a, A>, A>, ParseFault>
    // The words that were passed are these instructions and the bracket.
    ensures grammar { IfOk result (λ found. IsBody (views rest.old.now) (views rest.new.now) (flats_of found.items)) }
    // It is refused for another cause than memory only where the words do not begin with a body.
    ensures refused { IfErr result (Unless (NoBody (views rest.old.now))) }
    ensures shorter { IfOk result (λ _. length rest.new.now < length rest.old.now) }
{
    let mut stack = Vec::new(alloc.clone()?);
    let mut flats = Vec::new(alloc.clone()?);
    loop {
        let turn = next_turn(alloc, innermost(&stack), rest)?;
        if ends(&turn) {
            if !stack.is_empty() {
                return Err(ParseFault::Stuck(rest.len()));
            }
            return Ok(flats);
        }
        if !apply(turn, &mut stack, &mut flats)? {
            return Err(ParseFault::Stuck(rest.len()));
        }
    }
}

/// A law: no words begin with two bodies.
pub fn no_words_begin_with_two_bodies()
    ensures { BodiesAreOne }
{}
