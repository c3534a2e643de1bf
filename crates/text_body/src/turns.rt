//! What the next words of a body do.
ghost use Rattle.std.specs.Prelude.{◌≡◌, ◌≤◌, ◌<◌, ◌+◌, length, IfOk, Option, option_map};
ghost use Rattle.lexer.specs.WordsViews.{views};
ghost use Rattle.text_body.specs.Places.{opener_of};
ghost use Rattle.text_body.specs.Outcome.{Gives};
ghost use Rattle.text_body.specs.Turns.{seen_top, move_of, move_at, left_at, folded_at, then_at, right_at, key_at, end_at, else_at, takes_all, opener_of_key, folded_block_at, flat_block_at};

use crate::flat::{Flat, Opener};
use crate::parts::{Part, closes, enters, header, left_behind_parts, optional_id, plain};
use crate::unread::ParseFault;
use lexer::{Piece, Word};
use spec_text::KeyWord;
use std::alloc::Allocator;
use wtypes::ValType;

/// What is open, if not the operands of an instruction.
#[derive(Clone, Copy)]
pub enum Form<'a> {
    /// A folded block or loop.
    Folded,
    /// A flat block or loop, or a flat conditional behind its `else`.
    Flatly,
    /// A flat conditional before its `else`.
    FlatIf,
    /// A folded conditional before its `then`: its label and its result.
    Condition(Option<Piece<'a>>, Option<ValType>),
    /// Behind the `then` of a folded conditional.
    Then,
    /// Behind the `else` of a folded conditional.
    Otherwise,
}

/// What is open.
#[derive(Drop)]
pub enum Open<'a, A: Allocator> {
    /// The operands of a folded instruction, which comes behind them.
    Operands(Flat<'a, A>),
    /// A form that holds instructions.
    Inside(Form<'a>),
}

/// What is open innermost.
#[derive(Clone, Copy)]
pub enum Top<'a> {
    /// Nothing but the body.
    Nothing,
    /// The operands of an instruction.
    Operands,
    /// A form that holds instructions.
    Inside(Form<'a>),
}

/// What the next words do.
#[derive(Drop)]
pub enum ParserStep<'a, A: Allocator> {
    /// They are an instruction.
    Emits(Flat<'a, A>),
    /// They are an instruction, which opens this form.
    Opens(Flat<'a, A>, Form<'a>),
    /// They open this, and are no instruction yet.
    Begins(Open<'a, A>),
    /// They end the operands of an instruction.
    Completes,
    /// They close the innermost form by this instruction.
    Closes(Flat<'a, A>),
    /// They turn the innermost form into this one by an instruction.
    Turns(Flat<'a, A>, Form<'a>),
    /// They end the body.
    Ends,
}

/// The opener that a word is.
fn opener(key: KeyWord) -> Option<Opener>
    ensures { option_map opener_of result ≡ opener_of_key key }
{
    match key {
        KeyWord::Block => Some(Opener::Block),
        KeyWord::Loop => Some(Opener::Loop),
        KeyWord::If => Some(Opener::If),
        _ => None,
    }
}

/// A folded block, loop or conditional, behind its word.
fn folded_block<'w, 'a, A: Allocator>(
    opener: Option<Opener>,
    rest: &mut &'w [Word<'a>],
) -> Result<ParserStep<'a, A>, ParseFault>
    ensures value { Gives (λ t. (move_of t, views rest.new.now)) result (folded_block_at (option_map opener_of opener) (views rest.old.now)) }
    ensures shorter { IfOk result (λ _. length rest.new.now ≤ length rest.old.now) }
{
    let Some(opener) = opener else {
        return Err(ParseFault::Stuck(rest.len() + 1));
    };
    let (label, found) = header(rest)?;
    match opener {
        Opener::If => Ok(ParserStep::Begins(Open::Inside(Form::Condition(label, found)))),
        Opener::Block => Ok(ParserStep::Opens(
            Flat::Opens(Opener::Block, label, found),
            Form::Folded,
        )),
        Opener::Loop => Ok(ParserStep::Opens(
            Flat::Opens(Opener::Loop, label, found),
            Form::Folded,
        )),
    }
}

/// A flat block, loop or conditional, behind its word.
fn flat_block<'w, 'a, A: Allocator>(
    opener: Option<Opener>,
    rest: &mut &'w [Word<'a>],
) -> Result<ParserStep<'a, A>, ParseFault>
    ensures value { Gives (λ t. (move_of t, views rest.new.now)) result (flat_block_at (option_map opener_of opener) (views rest.old.now)) }
    ensures shorter { IfOk result (λ _. length rest.new.now ≤ length rest.old.now) }
{
    let Some(opener) = opener else {
        return Err(ParseFault::Stuck(rest.len() + 1));
    };
    let (label, found) = header(rest)?;
    match opener {
        Opener::If => Ok(ParserStep::Opens(Flat::Opens(Opener::If, label, found), Form::FlatIf)),
        Opener::Block => Ok(ParserStep::Opens(
            Flat::Opens(Opener::Block, label, found),
            Form::Flatly,
        )),
        Opener::Loop => Ok(ParserStep::Opens(
            Flat::Opens(Opener::Loop, label, found),
            Form::Flatly,
        )),
    }
}

/// A folded instruction, behind its bracket.
fn folded<'w, 'a, A: Allocator + Clone>(
    alloc: &A,
    rest: &mut &'w [Word<'a>],
) -> Result<ParserStep<'a, A>, ParseFault>
    ensures value { Gives (λ t. (move_of t, views rest.new.now)) result (folded_at (views rest.old.now)) }
    ensures shorter { IfOk result (λ _. length rest.new.now ≤ length rest.old.now) }
{
    match *rest {
        [] => Err(ParseFault::Stuck(0)),
        [word, after @ ..] => match *word {
            Word::Op(op) => {
                *rest = after;
                let found = plain(alloc, op, rest)?;
                Ok(ParserStep::Begins(Open::Operands(found)))
            }
            Word::Key(key) => {
                *rest = after;
                folded_block(opener(key), rest)
            }
            _ => Err(ParseFault::Stuck(rest.len())),
        },
    }
}

/// `then`, behind itself.
fn then<'w, 'a, A: Allocator>(
    top: Top<'a>,
    rest: &mut &'w [Word<'a>],
) -> Result<ParserStep<'a, A>, ParseFault>
    ensures value { Gives (λ t. (move_of t, views rest.new.now)) result (then_at (seen_top top.entry) (views rest.old.now)) }
    ensures shorter { IfOk result (λ _. length rest.new.now ≤ length rest.old.now) }
{
    match top {
        Top::Inside(form) => match form {
            Form::Condition(label, found) => Ok(ParserStep::Turns(
                Flat::Opens(Opener::If, label, found),
                Form::Then,
            )),
            _ => Err(ParseFault::Stuck(rest.len() + 1)),
        },
        _ => Err(ParseFault::Stuck(rest.len() + 1)),
    }
}

/// What stands behind an opening bracket.
fn left<'w, 'a, A: Allocator + Clone>(
    alloc: &A,
    top: Top<'a>,
    rest: &mut &'w [Word<'a>],
) -> Result<ParserStep<'a, A>, ParseFault>
    ensures value { Gives (λ t. (move_of t, views rest.new.now)) result (left_at (seen_top top.entry) (views rest.old.now)) }
    ensures shorter { IfOk result (λ _. length rest.new.now ≤ length rest.old.now) }
{
    match *rest {
        [Word::Key(KeyWord::Then), after @ ..] => {
            *rest = after;
            then(top, rest)
        }
        _ => folded(alloc, rest),
    }
}

/// What stands behind a closing bracket.
fn right<'w, 'a, A: Allocator>(
    top: Top<'a>,
    rest: &mut &'w [Word<'a>],
) -> Result<ParserStep<'a, A>, ParseFault>
    ensures value { Gives (λ t. (move_of t, views rest.new.now)) result (right_at (seen_top top.entry) (views rest.old.now)) }
    ensures shorter { IfOk result (λ _. length rest.new.now ≤ length rest.old.now) }
{
    match top {
        Top::Nothing => Ok(ParserStep::Ends),
        Top::Operands => Ok(ParserStep::Completes),
        Top::Inside(form) => match form {
            Form::Folded => Ok(ParserStep::Closes(Flat::End(None))),
            Form::Then => {
                if closes(rest) {
                    return Ok(ParserStep::Closes(Flat::End(None)));
                }
                if enters(Part::Else, rest) {
                    return Ok(ParserStep::Turns(Flat::Else(None), Form::Otherwise));
                }
                Err(ParseFault::Stuck(left_behind_parts(rest)))
            }
            Form::Otherwise => {
                if closes(rest) {
                    return Ok(ParserStep::Closes(Flat::End(None)));
                }
                Err(ParseFault::Stuck(rest.len()))
            }
            _ => Err(ParseFault::Stuck(rest.len() + 1)),
        },
    }
}

/// `end`, behind itself.
fn end<'w, 'a, A: Allocator>(
    top: Top<'a>,
    rest: &mut &'w [Word<'a>],
) -> Result<ParserStep<'a, A>, ParseFault>
    ensures value { Gives (λ t. (move_of t, views rest.new.now)) result (end_at (seen_top top.entry) (views rest.old.now)) }
    ensures shorter { IfOk result (λ _. length rest.new.now ≤ length rest.old.now) }
{
    match top {
        Top::Inside(form) => match form {
            Form::Flatly => Ok(ParserStep::Closes(Flat::End(optional_id(rest)))),
            Form::FlatIf => Ok(ParserStep::Closes(Flat::End(optional_id(rest)))),
            _ => Err(ParseFault::Stuck(rest.len() + 1)),
        },
        _ => Err(ParseFault::Stuck(rest.len() + 1)),
    }
}

/// A flat `else`, behind itself.
fn otherwise<'w, 'a, A: Allocator>(
    top: Top<'a>,
    rest: &mut &'w [Word<'a>],
) -> Result<ParserStep<'a, A>, ParseFault>
    ensures value { Gives (λ t. (move_of t, views rest.new.now)) result (else_at (seen_top top.entry) (views rest.old.now)) }
    ensures shorter { IfOk result (λ _. length rest.new.now ≤ length rest.old.now) }
{
    match top {
        Top::Inside(form) => match form {
            Form::FlatIf => Ok(ParserStep::Turns(Flat::Else(optional_id(rest)), Form::Flatly)),
            _ => Err(ParseFault::Stuck(rest.len() + 1)),
        },
        _ => Err(ParseFault::Stuck(rest.len() + 1)),
    }
}

/// Whether instructions that are not folded may stand here.
fn all_allowed(top: Top<'_>) -> bool
    ensures { result ≡ takes_all (seen_top top.entry) }
{
    match top {
        Top::Nothing => true,
        Top::Operands => false,
        Top::Inside(form) => match form {
            Form::Condition(_, _) => false,
            _ => true,
        },
    }
}

/// A word that is no instruction's name, behind itself.
fn key_word<'w, 'a, A: Allocator>(
    top: Top<'a>,
    key: KeyWord,
    rest: &mut &'w [Word<'a>],
) -> Result<ParserStep<'a, A>, ParseFault>
    ensures value { Gives (λ t. (move_of t, views rest.new.now)) result (key_at (seen_top top.entry) key (views rest.old.now)) }
    ensures shorter { IfOk result (λ _. length rest.new.now ≤ length rest.old.now) }
{
    match key {
        KeyWord::End => end(top, rest),
        KeyWord::Else => otherwise(top, rest),
        _ => {
            if !all_allowed(top) {
                return Err(ParseFault::Stuck(rest.len() + 1));
            }
            flat_block(opener(key), rest)
        }
    }
}

/// What the next words do.
pub(crate) fn next_turn<'w, 'a, A: Allocator + Clone>(
    alloc: &A,
    top: Top<'a>,
    rest: &mut &'w [Word<'a>],
) -> Result<ParserStep<'a, A>, ParseFault>
    ensures value { Gives (λ t. (move_of t, views rest.new.now)) result (move_at (seen_top top.entry) (views rest.old.now)) }
    ensures shorter { IfOk result (λ _. length rest.new.now < length rest.old.now) }
{
    match *rest {
        [] => Err(ParseFault::Stuck(0)),
        [word, after @ ..] => match *word {
            Word::LeftBracket => {
                *rest = after;
                left(alloc, top, rest)
            }
            Word::RightBracket => {
                *rest = after;
                right(top, rest)
            }
            Word::Op(op) => {
                if !all_allowed(top) {
                    return Err(ParseFault::Stuck(rest.len()));
                }
                *rest = after;
                let found = plain(alloc, op, rest)?;
                Ok(ParserStep::Emits(found))
            }
            Word::Key(key) => {
                *rest = after;
                key_word(top, key, rest)
            }
            _ => Err(ParseFault::Stuck(rest.len())),
        },
    }
}
