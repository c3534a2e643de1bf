//! The parts of instructions, read from the front of the words that are left. Where a reader refuses, it says
//! how many words were left.
ghost use Rattle.std.specs.Prelude.{◌≡◌, ◌≤◌, ◌<◌, ◌+◌, length, map, IfOk, IfSome, IfNone, Option, option_map, true, false};
ghost use Rattle.spec_text.specs.Grammar.{are_unnamed, is_simple, is_indexed};
ghost use Rattle.lexer.specs.WordsViews.{view, views};
ghost use Rattle.text_body.specs.Places.{text_of, index_of, binding_of, use_of, flat_of};
ghost use Rattle.text_body.specs.Outcome.{Gives};
ghost use Rattle.text_body.specs.Reading.{moved, id_at, offset_at, align_at, index_of_word, index_at, next_index_at, next_at, indices_at, is_key, behind_bracket, ahead, close_at, valued_at, binding_at, bindings_at, results_at, result_at, header_at, types_at, closed_index_at, use_at, const_at, table_at, indirect_at, argument_at, other_at, plain_at};

use crate::flat::{Binding, Flat, Index, TypeUse};
use crate::unread::ParseFault;
use lexer::{Piece, Word};
use spec_text::{KeyWord, Operator};
use std::alloc::Allocator;
use wtypes::ValType;

/// The words that begin a part in brackets.
#[derive(Clone, Copy)]
pub enum Part {
    /// `type`
    Type,
    /// `param`
    Param,
    /// `result`
    Result,
    /// `local`
    Local,
    /// `export`
    Export,
    /// `else`
    Else,
}

/// A name, if there is one.
pub(crate) fn optional_id<'w, 'a>(rest: &mut &'w [Word<'a>]) -> Option<Piece<'a>>
    ensures is { (text_of result, views rest.new.now) ≡ id_at (views rest.old.now) }
    ensures shorter { length rest.new.now ≤ length rest.old.now }
{
    match *rest {
        [] => None,
        [word, after @ ..] => match *word {
            Word::Id(piece) => {
                *rest = after;
                Some(piece)
            }
            _ => None,
        },
    }
}

/// `offset=`, if it is there.
fn offset<'w, 'a>(rest: &mut &'w [Word<'a>]) -> Option<Piece<'a>>
    ensures is { (text_of result, views rest.new.now) ≡ offset_at (views rest.old.now) }
    ensures shorter { length rest.new.now ≤ length rest.old.now }
{
    match *rest {
        [] => None,
        [word, after @ ..] => match *word {
            Word::OffsetIs(piece) => {
                *rest = after;
                Some(piece)
            }
            _ => None,
        },
    }
}

/// `align=`, if it is there.
fn align<'w, 'a>(rest: &mut &'w [Word<'a>]) -> Option<Piece<'a>>
    ensures is { (text_of result, views rest.new.now) ≡ align_at (views rest.old.now) }
    ensures shorter { length rest.new.now ≤ length rest.old.now }
{
    match *rest {
        [] => None,
        [word, after @ ..] => match *word {
            Word::AlignIs(piece) => {
                *rest = after;
                Some(piece)
            }
            _ => None,
        },
    }
}

/// An index.
pub(crate) fn index<'w, 'a>(rest: &mut &'w [Word<'a>]) -> Result<Index<'a>, ParseFault>
    ensures value { Gives (λ x. (index_of x, views rest.new.now)) result (index_at (views rest.old.now)) }
    ensures shorter { IfOk result (λ _. length rest.new.now < length rest.old.now) }
{
    match *rest {
        [] => Err(ParseFault::Stuck(0)),
        [word, after @ ..] => match *word {
            Word::Number(piece) => {
                *rest = after;
                Ok(Index::Numbered(piece))
            }
            Word::Id(piece) => {
                *rest = after;
                Ok(Index::Named(piece))
            }
            _ => Err(ParseFault::Stuck(rest.len())),
        },
    }
}

/// An index, if there is one.
fn next_index<'w, 'a>(rest: &mut &'w [Word<'a>]) -> Option<Index<'a>>
    ensures is { next_index_at (views rest.old.now) ≡ Option.Some (option_map index_of result, views rest.new.now) }
    ensures shorter { IfSome result (λ _. length rest.new.now < length rest.old.now) }
    ensures kept { IfNone result (length rest.new.now ≤ length rest.old.now) }
{
    match *rest {
        [] => None,
        [word, after @ ..] => match *word {
            Word::Number(piece) => {
                *rest = after;
                Some(Index::Numbered(piece))
            }
            Word::Id(piece) => {
                *rest = after;
                Some(Index::Named(piece))
            }
            _ => None,
        },
    }
}

/// Whether the word begins this part.
fn begins(part: Part, key: KeyWord) -> bool
    ensures { result ≡ is_key part key }
{
    match part {
        Part::Type => matches!(key, KeyWord::Type),
        Part::Param => matches!(key, KeyWord::Param),
        Part::Result => matches!(key, KeyWord::Result),
        Part::Local => matches!(key, KeyWord::Local),
        Part::Export => matches!(key, KeyWord::Export),
        Part::Else => matches!(key, KeyWord::Else),
    }
}

/// Whether this part is there; then its bracket and its word are passed.
pub(crate) fn enters<'w, 'a>(part: Part, rest: &mut &'w [Word<'a>]) -> bool
    ensures is { moved result (views rest.new.now) ≡ ahead part (views rest.old.now) }
    ensures entered { result ≡ true → length rest.new.now < length rest.old.now }
    ensures kept { result ≡ false → rest.new.now ≡ rest.old.now }
{
    match *rest {
        [Word::LeftBracket, Word::Key(key), after @ ..] if begins(part, *key) => {
            *rest = after;
            true
        }
        _ => false,
    }
}

/// `)`
pub(crate) fn close<'w, 'a>(rest: &mut &'w [Word<'a>]) -> Result<(), ParseFault>
    ensures value { Gives (λ _. views rest.new.now) result (close_at (views rest.old.now)) }
    ensures shorter { IfOk result (λ _. length rest.new.now < length rest.old.now) }
{
    match *rest {
        [Word::RightBracket, after @ ..] => {
            *rest = after;
            Ok(())
        }
        _ => Err(ParseFault::Stuck(rest.len())),
    }
}

/// Whether `)` is there; then it is passed.
pub(crate) fn closes<'w, 'a>(rest: &mut &'w [Word<'a>]) -> bool
    ensures is { moved result (views rest.new.now) ≡ close_at (views rest.old.now) }
    ensures kept { result ≡ false → rest.new.now ≡ rest.old.now }
    ensures shorter { length rest.new.now ≤ length rest.old.now }
{
    match *rest {
        [Word::RightBracket, after @ ..] => {
            *rest = after;
            true
        }
        _ => false,
    }
}

/// How many words are left at the fault where neither `)` stands nor a part in brackets that may stand here: the word
/// behind an opening bracket, or else the first.
pub(crate) fn left_behind_parts(rest: &[Word<'_>]) -> usize
    ensures { result ≤ length rest.now }
{
    match rest {
        [Word::LeftBracket, after @ ..] => after.len(),
        _ => rest.len(),
    }
}

/// A value type and `)`.
pub(crate) fn valued<'w, 'a>(rest: &mut &'w [Word<'a>]) -> Result<ValType, ParseFault>
    ensures value { Gives (λ t. (t, views rest.new.now)) result (valued_at (views rest.old.now)) }
    ensures shorter { IfOk result (λ _. length rest.new.now < length rest.old.now) }
{
    match *rest {
        [Word::Key(KeyWord::Value(t)), after @ ..] => {
            let found = *t;
            *rest = after;
            close(rest)?;
            Ok(found)
        }
        _ => Err(ParseFault::Stuck(rest.len())),
    }
}

/// A name, if there is one, a value type and `)`.
fn binding<'w, 'a>(rest: &mut &'w [Word<'a>]) -> Result<Binding<'a>, ParseFault>
    ensures value { Gives (λ b. (binding_of b, views rest.new.now)) result (binding_at (views rest.old.now)) }
    ensures shorter { IfOk result (λ _. length rest.new.now < length rest.old.now) }
{
    let name = optional_id(rest);
    let value_type = valued(rest)?;
    Ok(Binding { name, value_type })
}

/// A parameter or a local, if there is one.
fn next_binding<'w, 'a>(
    part: Part,
    rest: &mut &'w [Word<'a>],
) -> Result<Option<Binding<'a>>, ParseFault>
    ensures value { Gives (λ r. (option_map binding_of r, views rest.new.now)) result (next_at part binding_at (views rest.old.now)) }
    ensures shorter { IfOk result (λ r. IfSome r (λ _. length rest.new.now < length rest.old.now)) }
    ensures kept { IfOk result (λ r. length rest.new.now ≤ length rest.old.now) }
{
    if !enters(part, rest) {
        return Ok(None);
    }
    let found = binding(rest)?;
    Ok(Some(found))
}

/// A result, if there is one.
fn next_result<'w, 'a>(rest: &mut &'w [Word<'a>]) -> Result<Option<ValType>, ParseFault>
    ensures value { Gives (λ r. (r, views rest.new.now)) result (result_at (views rest.old.now)) }
    ensures shorter { IfOk result (λ r. IfSome r (λ _. length rest.new.now < length rest.old.now)) }
    ensures kept { IfOk result (λ r. length rest.new.now ≤ length rest.old.now) }
{
    if !enters(Part::Result, rest) {
        return Ok(None);
    }
    let found = valued(rest)?;
    Ok(Some(found))
}

/// As many indices as there are.
pub(crate) fn indices<'w, 'a, A: Allocator + Clone>(
    alloc: &A,
    rest: &mut &'w [Word<'a>],
) -> Result<Vec<Index<'a>, A>, ParseFault>
    ensures value { Gives (λ r. (map index_of r.items, views rest.new.now)) result (indices_at (views rest.old.now)) }
    ensures shorter { IfOk result (λ _. length rest.new.now ≤ length rest.old.now) }
{
    let mut found = Vec::new(alloc.clone()?);
    while let Some(next) = next_index(rest) {
        found.push(next)?;
    }
    Ok(found)
}

/// Parameters or locals, as many as there are.
pub(crate) fn bindings<'w, 'a, A: Allocator + Clone>(
    alloc: &A,
    part: Part,
    rest: &mut &'w [Word<'a>],
) -> Result<Vec<Binding<'a>, A>, ParseFault>
    ensures value { Gives (λ r. (map binding_of r.items, views rest.new.now)) result (bindings_at part (views rest.old.now)) }
    ensures shorter { IfOk result (λ _. length rest.new.now ≤ length rest.old.now) }
{
    let mut found = Vec::new(alloc.clone()?);
    while let Some(next) = next_binding(part, rest)? {
        found.push(next)?;
    }
    Ok(found)
}

/// Results, as many as there are.
pub(crate) fn results<'w, 'a, A: Allocator + Clone>(
    alloc: &A,
    rest: &mut &'w [Word<'a>],
) -> Result<Vec<ValType, A>, ParseFault>
    ensures value { Gives (λ r. (r.items, views rest.new.now)) result (results_at (views rest.old.now)) }
    ensures shorter { IfOk result (λ _. length rest.new.now ≤ length rest.old.now) }
{
    let mut found = Vec::new(alloc.clone()?);
    while let Some(next) = next_result(rest)? {
        found.push(next)?;
    }
    Ok(found)
}

/// What stands behind the word of a block: its label and its result.
pub(crate) fn header<'w, 'a>(
    rest: &mut &'w [Word<'a>],
) -> Result<(Option<Piece<'a>>, Option<ValType>), ParseFault>
    ensures value { Gives (λ r. ((text_of r.0, r.1), views rest.new.now)) result (header_at (views rest.old.now)) }
    ensures shorter { IfOk result (λ _. length rest.new.now ≤ length rest.old.now) }
{
    let label = optional_id(rest);
    let found = next_result(rest)?;
    Ok((label, found))
}

/// Parameters and results.
fn types<'w, 'a, A: Allocator + Clone>(
    alloc: &A,
    index: Option<Index<'a>>,
    rest: &mut &'w [Word<'a>],
) -> Result<TypeUse<'a, A>, ParseFault>
    ensures value { Gives (λ r. (use_of r, views rest.new.now)) result (types_at (option_map index_of index.entry) (views rest.old.now)) }
    ensures shorter { IfOk result (λ _. length rest.new.now ≤ length rest.old.now) }
{
    let params = bindings(alloc, Part::Param, rest)?;
    let results = results(alloc, rest)?;
    Ok(TypeUse {
        index,
        params,
        results,
    })
}

/// An index and `)`.
fn closed_index<'w, 'a>(rest: &mut &'w [Word<'a>]) -> Result<Index<'a>, ParseFault>
    ensures value { Gives (λ r. (index_of r, views rest.new.now)) result (closed_index_at (views rest.old.now)) }
    ensures shorter { IfOk result (λ _. length rest.new.now < length rest.old.now) }
{
    let found = index(rest)?;
    close(rest)?;
    Ok(found)
}

/// What is written of a function's type.
pub(crate) fn type_use<'w, 'a, A: Allocator + Clone>(
    alloc: &A,
    rest: &mut &'w [Word<'a>],
) -> Result<TypeUse<'a, A>, ParseFault>
    ensures value { Gives (λ r. (use_of r, views rest.new.now)) result (use_at (views rest.old.now)) }
    ensures shorter { IfOk result (λ _. length rest.new.now ≤ length rest.old.now) }
{
    if !enters(Part::Type, rest) {
        return types(alloc, None, rest);
    }
    let found = closed_index(rest)?;
    types(alloc, Some(found), rest)
}

/// Whether no binding has a name.
fn unnamed(bindings: &[Binding<'_>]) -> bool
    ensures { result ≡ are_unnamed (map binding_of bindings.now) }
{
    let mut rest = bindings;
    while let [first, more @ ..] = rest {
        if first.name.is_some() {
            return false;
        }
        rest = more;
    }
    true
}

/// Whether nothing stands behind the name of this instruction.
fn stands_alone(op: Operator) -> bool
    ensures { result ≡ is_simple op }
{
    match op {
        Operator::Unreachable
        | Operator::Nop
        | Operator::Return
        | Operator::Drop
        | Operator::Select
        | Operator::MemorySize
        | Operator::MemoryGrow
        | Operator::Unary(_)
        | Operator::Binary(_)
        | Operator::Test(_)
        | Operator::Compare(_)
        | Operator::Convert(_) => true,
        _ => false,
    }
}

/// Whether one index stands behind the name of this instruction.
fn takes_index(op: Operator) -> bool
    ensures { result ≡ is_indexed op }
{
    match op {
        Operator::Br
        | Operator::BrIf
        | Operator::Call
        | Operator::LocalGet
        | Operator::LocalSet
        | Operator::LocalTee
        | Operator::GlobalGet
        | Operator::GlobalSet => true,
        _ => false,
    }
}

/// A constant, behind its name.
fn constant<'w, 'a, A: Allocator>(
    t: ValType,
    rest: &mut &'w [Word<'a>],
) -> Result<Flat<'a, A>, ParseFault>
    ensures value { Gives (λ r. (flat_of r, views rest.new.now)) result (const_at t (views rest.old.now)) }
    ensures shorter { IfOk result (λ _. length rest.new.now ≤ length rest.old.now) }
{
    match *rest {
        [] => Err(ParseFault::Stuck(0)),
        [word, after @ ..] => match *word {
            Word::Number(piece) => {
                *rest = after;
                Ok(Flat::Const(t, piece))
            }
            _ => Err(ParseFault::Stuck(rest.len())),
        },
    }
}

/// `br_table`, behind its name.
fn branch_table<'w, 'a, A: Allocator + Clone>(
    alloc: &A,
    rest: &mut &'w [Word<'a>],
) -> Result<Flat<'a, A>, ParseFault>
    ensures value { Gives (λ r. (flat_of r, views rest.new.now)) result (table_at (views rest.old.now)) }
    ensures shorter { IfOk result (λ _. length rest.new.now ≤ length rest.old.now) }
{
    let mut labels = indices(alloc, rest)?;
    let Some(last) = labels.pop() else {
        return Err(ParseFault::Stuck(rest.len()));
    };
    Ok(Flat::BrTable(labels, last))
}

/// How many words are left at the first name of a parameter, of the words before the last `left`; or `left`.
fn first_name(words: &[Word<'_>], left: usize) -> usize {
    for at in 0..words.len().saturating_sub(left) {
        if let [Word::Key(KeyWord::Param), Word::Id(_), ..] = &words[at..] {
            return words.len() - at - 1;
        }
    }
    left
}

/// `call_indirect`, behind its name. A parameter's name is at fault.
fn indirect_call<'w, 'a, A: Allocator + Clone>(
    alloc: &A,
    rest: &mut &'w [Word<'a>],
) -> Result<Flat<'a, A>, ParseFault>
    ensures value { Gives (λ r. (flat_of r, views rest.new.now)) result (indirect_at (views rest.old.now)) }
    ensures shorter { IfOk result (λ _. length rest.new.now ≤ length rest.old.now) }
{
    let words = *rest;
    let written = match type_use(alloc, rest) {
        Ok(written) => written,
        Err(ParseFault::NoMemory) => return Err(ParseFault::NoMemory),
        Err(ParseFault::Stuck(left)) => {
            return Err(ParseFault::Stuck(first_name(words, left)));
        }
    };
    if !unnamed(&written.params) {
        return Err(ParseFault::Stuck(first_name(words, rest.len())));
    }
    Ok(Flat::CallIndirect(written))
}

/// Any other instruction, behind its name.
fn other<'w, 'a, A: Allocator>(
    op: Operator,
    rest: &mut &'w [Word<'a>],
) -> Result<Flat<'a, A>, ParseFault>
    ensures value { Gives (λ r. (flat_of r, views rest.new.now)) result (other_at op (views rest.old.now)) }
    ensures shorter { IfOk result (λ _. length rest.new.now ≤ length rest.old.now) }
{
    if stands_alone(op) {
        return Ok(Flat::Simple(op));
    }
    if takes_index(op) {
        let found = index(rest)?;
        return Ok(Flat::Indexed(op, found));
    }
    Err(ParseFault::Stuck(rest.len()))
}

/// A plain instruction, behind its name.
pub(crate) fn plain<'w, 'a, A: Allocator + Clone>(
    alloc: &A,
    op: Operator,
    rest: &mut &'w [Word<'a>],
) -> Result<Flat<'a, A>, ParseFault>
    ensures value { Gives (λ r. (flat_of r, views rest.new.now)) result (plain_at op (views rest.old.now)) }
    ensures shorter { IfOk result (λ _. length rest.new.now ≤ length rest.old.now) }
{
    match op {
        Operator::Const(t) => constant(t, rest),
        Operator::Load(load) => {
            let offset = offset(rest);
            let align = align(rest);
            Ok(Flat::Load(load, offset, align))
        }
        Operator::Store(store) => {
            let offset = offset(rest);
            let align = align(rest);
            Ok(Flat::Store(store, offset, align))
        }
        Operator::BrTable => branch_table(alloc, rest),
        Operator::CallIndirect => indirect_call(alloc, rest),
        _ => other(op, rest),
    }
}
