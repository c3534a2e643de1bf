// What is read off a tree: depth, size, and the instruction at an ordinal.

ghost use Rattle.std.specs.Prelude.{◌≡◌, ◌+◌, ◌<◌, ◌^◌, length, slice_get, Some, None, MatchResult, MatchOption, IfSome};
ghost use Rattle.spec_modules.specs.Shape.{instr_depth, instrs_depth, instr_preorder, preorder, instr_at};
ghost use Rattle.module_tree.specs.View.{instr_view, instrs_view, instr_ordinals, ordinals, ordinal_of};

use crate::instr::Instr;
use std::alloc::Allocator;

// How many blocks stand in one another.
#[cycle(depth)]
pub(crate) fn depth_of<A: Allocator>(body: &Vec<Instr<A>, A>) -> u32
    requires { instrs_depth (instrs_view body.now.items) < 2 ^ 32 }
    ensures { result ≡ instrs_depth (instrs_view body.now.items) }
{
    let mut deepest = 0;
    for i in body {
        deepest = deepest.max(depth_at(i));
    }
    deepest
}

#[cycle(depth)]
fn depth_at<A: Allocator>(instr: &Instr<A>) -> u32
    requires { instr_depth (instr_view instr.now) < 2 ^ 32 }
    ensures { result ≡ instr_depth (instr_view instr.now) }
{
    match instr {
        Instr::Plain(_, _) => 0,
        Instr::BrTable(_, _, _) => 0,
        Instr::Block(_, _, body) => depth_of(body) + 1,
        Instr::Loop(_, _, body) => depth_of(body) + 1,
        Instr::If(_, _, then_body, else_body) => {
            let then_depth = depth_of(then_body);
            let else_depth = depth_of(else_body);
            then_depth.max(else_depth) + 1
        }
    }
}

// The instruction at this place in preorder, or None where there is none.
pub(crate) fn find<A: Allocator>(body: &Vec<Instr<A>, A>, ordinal: u32) -> Option<&Instr<A>>
    ensures view { MatchOption result
        (instr_at (instrs_view body.now.items) ordinal ≡ None)
        (λ i. instr_at (instrs_view body.now.items) ordinal ≡ Some (instr_view i.now)) }
    ensures carried { IfSome result (λ i. slice_get (ordinals body.now.items) ordinal ≡ Some (ordinal_of i.now)) }
{
    match find_in(body, ordinal) {
        Ok(found) => Some(found),
        Err(_) => None,
    }
}

// The instruction, or how many places are left behind the last.
#[cycle(find)]
fn find_in<A: Allocator>(body: &Vec<Instr<A>, A>, ordinal: u32) -> Result<&Instr<A>, u32>
    ensures view { MatchResult result
        (λ i. slice_get (preorder (instrs_view body.now.items)) ordinal ≡ Some (instr_view i.now))
        (λ left. left + length (preorder (instrs_view body.now.items)) ≡ ordinal) }
    ensures carried { MatchResult result
        (λ i. slice_get (ordinals body.now.items) ordinal ≡ Some (ordinal_of i.now))
        (λ left. left + length (ordinals body.now.items) ≡ ordinal) }
{
    let mut left = ordinal;
    for i in body {
        match find_at(i, left) {
            Ok(found) => return Ok(found),
            Err(behind) => left = behind,
        }
    }
    Err(left)
}

#[cycle(find)]
fn find_at<A: Allocator>(instr: &Instr<A>, ordinal: u32) -> Result<&Instr<A>, u32>
    ensures view { MatchResult result
        (λ i. slice_get (instr_preorder (instr_view instr.now)) ordinal ≡ Some (instr_view i.now))
        (λ left. left + length (instr_preorder (instr_view instr.now)) ≡ ordinal) }
    ensures carried { MatchResult result
        (λ i. slice_get (instr_ordinals instr.now) ordinal ≡ Some (ordinal_of i.now))
        (λ left. left + length (instr_ordinals instr.now) ≡ ordinal) }
{
    if ordinal == 0 {
        return Ok(instr);
    }
    match instr {
        Instr::Plain(_, _) => Err(ordinal - 1),
        Instr::BrTable(_, _, _) => Err(ordinal - 1),
        Instr::Block(_, _, body) => find_in(body, ordinal - 1),
        Instr::Loop(_, _, body) => find_in(body, ordinal - 1),
        Instr::If(_, _, then_body, else_body) => match find_in(then_body, ordinal - 1) {
            Ok(found) => Ok(found),
            Err(left) => find_in(else_body, left),
        },
    }
}

// The number of instructions in preorder.
#[cycle(count)]
pub(crate) fn count_of<A: Allocator>(body: &Vec<Instr<A>, A>) -> u32
    requires { length (preorder (instrs_view body.now.items)) < 2 ^ 32 }
    ensures { result ≡ length (preorder (instrs_view body.now.items)) }
{
    let mut count = 0;
    for i in body {
        count += count_at(i);
    }
    count
}

#[cycle(count)]
fn count_at<A: Allocator>(instr: &Instr<A>) -> u32
    requires { length (instr_preorder (instr_view instr.now)) < 2 ^ 32 }
    ensures { result ≡ length (instr_preorder (instr_view instr.now)) }
{
    match instr {
        Instr::Plain(_, _) => 1,
        Instr::BrTable(_, _, _) => 1,
        Instr::Block(_, _, body) => count_of(body) + 1,
        Instr::Loop(_, _, body) => count_of(body) + 1,
        Instr::If(_, _, then_body, else_body) => {
            let then_count = count_of(then_body);
            let else_count = count_of(else_body);
            then_count + else_count + 1
        }
    }
}
