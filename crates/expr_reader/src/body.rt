// Bodies of instructions.
ghost use Rattle.std.specs.Prelude.{◌≡◌, ◌+◌, ◌<◌, ◌≤◌, ◌^◌, length, IfOk};
ghost use Rattle.expr_reader.specs.Outcome.{Gives};
ghost use Rattle.module_tree.specs.Numbering.{Numbered};
ghost use Rattle.spec_modules.specs.Reading.{unsigned_at};
ghost use Rattle.laws_modules.specs.ReadingExpressions.{items_at, table_at, one_at, body_at};
ghost use Rattle.module_tree.specs.View.{instr_view, instrs_view, instr_ordinals, ordinals};

use crate::plain::plain_of;
use crate::read::{result_of, u32_of};
use crate::unread::DecodeFault;
use module_tree::instr::Instr;
use module_tree::limit::{LABEL_LIMIT, Limit};
use std::alloc::Allocator;

// So many labels.
fn labels_of<'b, A: Allocator + Clone>(
    alloc: &A,
    count: u32,
    bytes: &'b [u8],
) -> Result<(Vec<u32, A>, &'b [u8]), DecodeFault>
    ensures value { Gives (λ x. (x.0.items, x.1.now)) result (items_at (unsigned_at 32) count bytes.now) }
    ensures shorter { IfOk result (λ x. length x.1.now ≤ length bytes.now) }
{
    let mut found = Vec::new(alloc.clone()?);
    let mut rest = bytes;
    for _i in 0..count {
        let (label, after) = u32_of(rest)?;
        found.push(label)?;
        rest = after;
    }
    Ok((found, rest))
}

// The labels of a `br_table`, and the default label.
#[tactic(auto, unfolding(laws_modules::specs::ReadingExpressions::table_at))]
fn table_of<'b, A: Allocator + Clone>(
    alloc: &A,
    bytes: &'b [u8],
    ordinal: u32,
) -> Result<(Instr<A>, &'b [u8]), DecodeFault>
    ensures value { Gives (λ x. (instr_view x.0, x.1.now)) result (table_at bytes.now) }
    ensures shorter { IfOk result (λ x. length x.1.now < length bytes.now) }
    ensures numbered { IfOk result (λ x. Numbered ordinal (ordinal + 1) (instr_ordinals x.0)) }
{
    let (count, rest) = u32_of(bytes)?;
    if count as usize > LABEL_LIMIT {
        return Err(DecodeFault::TooLarge(Limit::Labels));
    }
    let (labels, rest) = labels_of(alloc, count, rest)?;
    let (fallback, rest) = u32_of(rest)?;
    Ok((Instr::BrTable(ordinal, labels, fallback), rest))
}

// The instructions up to an end or an else, that byte, and the bytes after it.
#[cycle(body)]
pub fn body_of<'b, A: Allocator + Clone>(
    alloc: &A,
    bytes: &'b [u8],
    depth: u32,
    ordinal: u32,
) -> Result<(Vec<Instr<A>, A>, u8, &'b [u8], u32), DecodeFault>
    requires deep { 0 < depth }
    requires few { ordinal + length bytes.now < 2 ^ 32 }
    ensures value { Gives (λ x. (instrs_view x.0.items, x.1, x.2.now)) result (body_at depth bytes.now) }
    ensures shorter { IfOk result (λ x. length x.2.now < length bytes.now) }
    ensures numbered { IfOk result (λ x. Numbered ordinal x.3 (ordinals x.0.items)) }
    ensures within { IfOk result (λ x. x.3 + length x.2.now ≤ ordinal + length bytes.now) }
{
    let mut found = Vec::new(alloc.clone()?);
    let mut rest = bytes;
    let mut next = ordinal;
    while let Some((first, after)) = rest.split_first() {
        if *first == 0x0B || *first == 0x05 {
            return Ok((found, *first, after, next));
        }
        let (instr, after, following) = instr_of(alloc, *first, after, depth - 1, next)?;
        found.push(instr)?;
        rest = after;
        next = following;
    }
    Err(DecodeFault::Malformed(0))
}

// The instruction whose first byte this is, and the bytes after it. Within it so many levels may stand.
#[tactic(auto, unfolding(laws_modules::specs::ReadingExpressions::one_with))]
#[cycle(body)]
fn instr_of<'b, A: Allocator + Clone>(
    alloc: &A,
    first: u8,
    bytes: &'b [u8],
    depth: u32,
    ordinal: u32,
) -> Result<(Instr<A>, &'b [u8], u32), DecodeFault>
    requires { ordinal + length bytes.now + 1 < 2 ^ 32 }
    ensures value { Gives (λ x. (instr_view x.0, x.1.now)) result (one_at depth first bytes.now) }
    ensures shorter { IfOk result (λ x. length x.1.now ≤ length bytes.now) }
    ensures numbered { IfOk result (λ x. Numbered ordinal x.2 (instr_ordinals x.0)) }
    ensures within { IfOk result (λ x. x.2 + length x.1.now ≤ ordinal + length bytes.now + 1) }
{
    if depth == 0 && first >= 0x02 && first <= 0x04 {
        return Err(DecodeFault::TooLarge(Limit::Nesting));
    }
    match first {
        0x02 => {
            let (kind, rest) = result_of(bytes)?;
            let (body, closing, rest, next) = body_of(alloc, rest, depth, ordinal + 1)?;
            if closing != 0x0B {
                return Err(DecodeFault::Malformed(rest.len() + 1));
            }
            Ok((Instr::Block(ordinal, kind, body), rest, next))
        }
        0x03 => {
            let (kind, rest) = result_of(bytes)?;
            let (body, closing, rest, next) = body_of(alloc, rest, depth, ordinal + 1)?;
            if closing != 0x0B {
                return Err(DecodeFault::Malformed(rest.len() + 1));
            }
            Ok((Instr::Loop(ordinal, kind, body), rest, next))
        }
        0x04 => {
            let (kind, rest) = result_of(bytes)?;
            let (then_body, closing, rest, next) = body_of(alloc, rest, depth, ordinal + 1)?;
            if closing == 0x0B {
                let none = Vec::new(alloc.clone()?);
                return Ok((Instr::If(ordinal, kind, then_body, none), rest, next));
            }
            let (else_body, closing, rest, next) = body_of(alloc, rest, depth, next)?;
            if closing != 0x0B {
                return Err(DecodeFault::Malformed(rest.len() + 1));
            }
            Ok((Instr::If(ordinal, kind, then_body, else_body), rest, next))
        }
        0x0E => {
            let (table, rest) = table_of(alloc, bytes, ordinal)?;
            Ok((table, rest, ordinal + 1))
        }
        _ => {
            let (op, rest) = plain_of(first, bytes)?;
            Ok((Instr::Plain(ordinal, op), rest, ordinal + 1))
        }
    }
}
