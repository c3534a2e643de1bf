//! Bodies and other expressions.
ghost use Rattle.std.specs.Prelude.{◌≡◌, ◌+◌, ◌-◌, ◌<◌, ◌≤◌, ◌^◌, true, map, length, [], option_map, Option, IfOk, IfErr, IfSome, not};
ghost use Rattle.spec_modules.specs.Limits.{instr_fits, instrs_fit, expression_fits, counts_from};
ghost use Rattle.spec_modules.specs.Shape.{instr_depth, instrs_depth};
ghost use Rattle.spec_modules.specs.Spells.{ExpressionFits};
ghost use Rattle.spec_text.specs.Instructions.{Body};
ghost use Rattle.module_tree.specs.View.{instr_view, instrs_view, instr_ordinals, ordinals};
ghost use Rattle.module_tree.specs.Numbering.{Numbered};
ghost use Rattle.text_body.specs.Views.{text_of, flat_of, flats_of};
ghost use Rattle.text_resolve.specs.Outcome.{Gives, Unless};
ghost use Rattle.text_resolve.specs.Views.{spaces_of, flats_from};
ghost use Rattle.text_resolve.specs.Bodies.{closes, behind_end, behind_else, stops, is_done, one_at, body_at, NoBody, ExpressionsAreOne};

use crate::instrs::plain;
use crate::spaces::Spaces;
use crate::{Labels, Limit, ResolveFault, Space};
use lexer::Piece;
use module_tree::instr::Instr;
use std::alloc::Allocator;
use text_body::{Flat, Opener};
use wtypes::ValType;

// The levels of an expression, its own among them.
const LEVELS: u32 = 129;

// What the instructions of an expression are resolved by.
#[derive(Drop)]
struct Scope<'s, 'a, A: Allocator> {
    alloc: &'s A,
    spaces: &'s Spaces<'a, A>,
    locals: &'s Space<'a, A>,
}

// Whether a name behind `end` or `else` is the label's.
fn is_label(label: Option<Piece<'_>>, written: Piece<'_>) -> bool
    ensures { result ≡ closes (text_of label.entry) (Option.Some written.entry.text.now) }
{
    match label {
        None => false,
        Some(name) => name.text == written.text,
    }
}

// The place behind the end of a block of this label.
fn end_of<A: Allocator>(
    label: Option<Piece<'_>>,
    flats: &[Flat<'_, A>],
    at: usize,
) -> Result<usize, ResolveFault>
    ensures value { Gives (λ n. flats_from n flats.now) result (behind_end (text_of label.entry) (flats_from at flats.now)) }
    ensures within { IfOk result (λ n. (at < n) × (n ≤ length flats.now)) }
{
    let Some(first) = flats.get(at) else {
        return Err(ResolveFault::Broken);
    };
    let Flat::End(closing) = first else {
        return Err(ResolveFault::Broken);
    };
    let Some(written) = *closing else {
        return Ok(at + 1);
    };
    if !is_label(label, written) {
        return Err(ResolveFault::UnknownName(written.at));
    }
    Ok(at + 1)
}

// The place behind the else of a block of this label, if that is next.
fn else_of<A: Allocator>(
    label: Option<Piece<'_>>,
    flats: &[Flat<'_, A>],
    at: usize,
) -> Result<Option<usize>, ResolveFault>
    ensures value { Gives (λ found. option_map (λ n. flats_from n flats.now) found) result (behind_else (text_of label.entry) (flats_from at flats.now)) }
    ensures within { IfOk result (λ found. IfSome found (λ n. (at < n) × (n ≤ length flats.now))) }
{
    let Some(first) = flats.get(at) else {
        return Ok(None);
    };
    let Flat::Else(other) = first else {
        return Ok(None);
    };
    let Some(written) = *other else {
        return Ok(Some(at + 1));
    };
    if !is_label(label, written) {
        return Err(ResolveFault::UnknownName(written.at));
    }
    Ok(Some(at + 1))
}

// Whether a sequence stops here.
fn stops<A: Allocator>(flat: &Flat<'_, A>) -> bool
    ensures { result ≡ stops (flat_of flat.now) }
{
    matches!(flat, Flat::End(_) | Flat::Else(_))
}

// Whether a sequence goes on at this place.
fn goes_on<A: Allocator>(flats: &[Flat<'_, A>], at: usize) -> bool
    ensures goes { result ≡ not (is_done (flats_from at flats.now)) }
    ensures within { result ≡ true → at < length flats.now }
{
    match flats.get(at) {
        None => false,
        Some(first) => !stops(first),
    }
}

// The instructions from a place on up to where they stop, that place, and the next ordinal. So many levels may stand within.
#[cycle(body)]
fn body_of<'a, A: Allocator + Clone>(
    scope: &Scope<'_, 'a, A>,
    labels: &mut Labels<'a, A>,
    flats: &[Flat<'a, A>],
    at: usize,
    depth: u32,
    ordinal: u32,
) -> Result<(Vec<Instr<A>, A>, usize, u32), ResolveFault>
    requires deep { 0 < depth }
    requires place { at ≤ length flats.now }
    requires few { ordinal + (length flats.now - at) < 2 ^ 32 }
    ensures value { Gives (λ x. (instrs_view x.0.items, flats_from x.1 flats.now)) result (body_at (spaces_of scope.now.spaces.now) (map text_of scope.now.locals.now.names.items) depth (map text_of labels.old.open.items) (flats_from at flats.now)) }
    ensures labels { IfOk result (λ _. labels.new.open.items ≡ labels.old.open.items) }
    ensures fits { IfOk result (λ x. instrs_fit (instrs_view x.0.items) ≡ true) }
    ensures numbered { IfOk result (λ x. Numbered ordinal x.2 (ordinals x.0.items)) }
    ensures within { IfOk result (λ x. (at ≤ x.1) × (x.1 ≤ length flats.now) × (x.2 + at ≤ ordinal + x.1)) }
{
    let mut found = Vec::new(scope.alloc.clone()?);
    let mut place = at;
    let mut next = ordinal;
    while goes_on(flats, place) {
        let first = &flats[place];
        let (instr, behind, following) = instr_of(
            scope,
            labels,
            first,
            flats,
            place + 1,
            depth - 1,
            next,
        )?;
        found.push(instr)?;
        place = behind;
        next = following;
    }
    Ok((found, place, next))
}

// An instruction whose rest stands at a place, the place behind it, and the next ordinal. Within it so many levels may stand.
#[cycle(body)]
fn instr_of<'a, A: Allocator + Clone>(
    scope: &Scope<'_, 'a, A>,
    labels: &mut Labels<'a, A>,
    first: &Flat<'a, A>,
    flats: &[Flat<'a, A>],
    at: usize,
    depth: u32,
    ordinal: u32,
) -> Result<(Instr<A>, usize, u32), ResolveFault>
    requires place { at ≤ length flats.now }
    requires few { ordinal + (length flats.now - at) + 1 < 2 ^ 32 }
    ensures value { Gives (λ x. (instr_view x.0, flats_from x.1 flats.now)) result (one_at (spaces_of scope.now.spaces.now) (map text_of scope.now.locals.now.names.items) depth (map text_of labels.old.open.items) (flat_of first.now) (flats_from at flats.now)) }
    ensures labels { IfOk result (λ _. labels.new.open.items ≡ labels.old.open.items) }
    ensures fits { IfOk result (λ x. instr_fits (instr_view x.0) ≡ true) }
    ensures numbered { IfOk result (λ x. Numbered ordinal x.2 (instr_ordinals x.0)) }
    ensures within { IfOk result (λ x. (at ≤ x.1) × (x.1 ≤ length flats.now) × (x.2 + at ≤ ordinal + x.1 + 1)) }
{
    let Flat::Opens(opener, label, kind) = first else {
        let instr = plain(
            scope.alloc,
            scope.spaces,
            scope.locals,
            labels,
            first,
            ordinal,
        )?;
        return Ok((instr, at, ordinal + 1));
    };
    if depth == 0 {
        return Err(ResolveFault::TooLarge(Limit::Nesting));
    }
    labels.enter(*label)?;
    let (body, place, next) = body_of(scope, labels, flats, at, depth, ordinal + 1)?;
    match opener {
        Opener::Block => {
            let place = end_of(*label, flats, place)?;
            labels.leave();
            Ok((Instr::Block(ordinal, *kind, body), place, next))
        }
        Opener::Loop => {
            let place = end_of(*label, flats, place)?;
            labels.leave();
            Ok((Instr::Loop(ordinal, *kind, body), place, next))
        }
        Opener::If => match else_of(*label, flats, place)? {
            None => {
                let place = end_of(*label, flats, place)?;
                labels.leave();
                let none = Vec::new(scope.alloc.clone()?);
                Ok((Instr::If(ordinal, *kind, body, none), place, next))
            }
            Some(others) => {
                let (else_body, place, next) = body_of(scope, labels, flats, others, depth, next)?;
                let place = end_of(*label, flats, place)?;
                labels.leave();
                Ok((Instr::If(ordinal, *kind, body, else_body), place, next))
            }
        },
    }
}

/// The instructions of a body or another expression, with their ordinals. It is refused for another cause than memory
/// only where the flat instructions stand for no expression within the limits on nesting and labels.
pub fn expression<'a, A: Allocator + Clone>(
    alloc: &A,
    spaces: &Spaces<'a, A>,
    locals: &Space<'a, A>,
    flats: &Vec<Flat<'a, A>, A>,
) -> Result<Vec<Instr<A>, A>, ResolveFault>
    ensures body { IfOk result (λ v. Body (spaces_of spaces.now) (map text_of locals.now.names.items) [] (flats_of flats.now.items) [] (instrs_view v.items)) }
    ensures fits { IfOk result (λ v. ExpressionFits (instrs_view v.items)) }
    ensures in_range { IfOk result (λ v. expression_fits (instrs_view v.items) ≡ true) }
    ensures numbered { IfOk result (λ v. counts_from 0 (ordinals v.items) ≡ true) }
    ensures refused { IfErr result (Unless (NoBody (spaces_of spaces.now) (map text_of locals.now.names.items) (flats_of flats.now.items))) }
{
    let scope = Scope {
        alloc,
        spaces,
        locals,
    };
    let mut labels = Labels::new(alloc.clone()?);
    // There are never so many in a text within the limit on its bytes.
    if flats.len() >= u32::MAX as usize {
        return Err(ResolveFault::NoMemory);
    }
    let (body, place, _next) = body_of(&scope, &mut labels, flats, 0, LEVELS, 0)?;
    if place != flats.len() {
        return Err(ResolveFault::Broken);
    }
    Ok(body)
}

/// A law: no flat instructions are two expressions within the limits.
pub fn no_instructions_are_two_expressions()
    ensures { ExpressionsAreOne }
{}
