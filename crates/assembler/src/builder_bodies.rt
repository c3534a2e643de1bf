// Whether expressions keep the limits of this profile. A number of a tree is in range by its type.
ghost use Rattle.std.specs.Prelude.{◌≡◌, nat_le, true};
ghost use Rattle.spec_modules.specs.Shape.{instr_depth, instrs_depth};
ghost use Rattle.spec_modules.specs.Limits as limit;
ghost use Rattle.module_tree.specs.View.{instr_view, instrs_view};

use crate::ranges::{are_u32, is_u32, plain_in_range};
use module_tree::instr::Instr;
use module_tree::limit::{LABEL_LIMIT, NESTING_LIMIT};
use std::alloc::Allocator;

pub(crate) fn expression_fits<A: Allocator>(body: &Vec<Instr<A>, A>) -> bool
    ensures { result ≡ limit.expression_fits (instrs_view body.now.items) }
{
    instrs_within(body, NESTING_LIMIT) && instrs_fit(body)
}

// Whether no more than so many blocks stand in one another.
#[cycle(nest)]
fn instrs_within<A: Allocator>(body: &Vec<Instr<A>, A>, levels: usize) -> bool
    ensures { result ≡ nat_le (instrs_depth (instrs_view body.now.items)) levels }
{
    for instr in body {
        if !instr_within(instr, levels) {
            return false;
        }
    }
    true
}

#[cycle(nest)]
fn instr_within<A: Allocator>(instr: &Instr<A>, levels: usize) -> bool
    ensures { result ≡ nat_le (instr_depth (instr_view instr.now)) levels }
{
    match instr {
        Instr::Plain(_, _) => true,
        Instr::BrTable(_, _, _) => true,
        Instr::Block(_, _, body) => levels > 0 && instrs_within(body, levels - 1),
        Instr::Loop(_, _, body) => levels > 0 && instrs_within(body, levels - 1),
        Instr::If(_, _, then_body, else_body) => {
            levels > 0
                && instrs_within(then_body, levels - 1)
                && instrs_within(else_body, levels - 1)
        }
    }
}

// Whether each `br_table` has no more labels than it may have.
#[cycle(fit)]
fn instrs_fit<A: Allocator>(body: &Vec<Instr<A>, A>) -> bool
    ensures { result ≡ limit.instrs_fit (instrs_view body.now.items) }
{
    for instr in body {
        if !instr_fits(instr) {
            return false;
        }
    }
    true
}

#[cycle(fit)]
fn instr_fits<A: Allocator>(instr: &Instr<A>) -> bool
    ensures { result ≡ limit.instr_fits (instr_view instr.now) }
{
    match instr {
        Instr::Plain(_, op) => {
            plain_in_range(*op);
            true
        }
        Instr::BrTable(_, labels, fallback) => {
            are_u32(labels);
            is_u32(*fallback);
            labels.len() <= LABEL_LIMIT
        }
        Instr::Block(_, _, body) => instrs_fit(body),
        Instr::Loop(_, _, body) => instrs_fit(body),
        Instr::If(_, _, then_body, else_body) => instrs_fit(then_body) && instrs_fit(else_body),
    }
}
