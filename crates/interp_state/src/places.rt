// The innermost call, and the place of the code that is left in it.
ghost use Rattle.std.specs.Prelude.{◌≡◌, ◌≤◌, drop, length, option_map};
ghost use Rattle.spec_execution.specs.Configuration.{End};
ghost use Rattle.spec_execution.specs.Turns.{place_in};
ghost use Rattle.laws_reduction.specs.Meaning.{height, listed};
ghost use Rattle.laws_reduction.specs.Branches.{in_call};
ghost use Rattle.module_tree.specs.View.{ordinal_of};
ghost use Rattle.interp_state.specs.Views.{open_of, opens_of, items_of};
ghost use Rattle.interp_state.specs.Innermost.{innermost, first_ordinal, function_in};

use crate::branches::up_to_call;
use crate::parts::{Entry, Kind, Parts};
use module_tree::instr::Instr;
use std::alloc::Allocator;
use wtypes::Value;

// The innermost call that is open.
fn innermost_call<'b, 'a, A: Allocator + Copy>(
    entries: &'b [Entry<'a, A>],
) -> Option<&'b Entry<'a, A>>
    ensures { option_map (λ e. open_of e.now) result ≡ innermost (in_call (opens_of entries.now)) }
{
    let left = up_to_call(entries);
    if left == 0 {
        return None;
    }
    Some(&entries[left - 1])
}

// The ordinal of an instruction.
fn ordinal<A: Allocator + Copy>(instr: &Instr<A>) -> u32
    ensures { result ≡ ordinal_of instr.now }
{
    match instr {
        Instr::Plain(ordinal, _) => *ordinal,
        Instr::BrTable(ordinal, _, _) => *ordinal,
        Instr::Block(ordinal, _, _) => *ordinal,
        Instr::Loop(ordinal, _, _) => *ordinal,
        Instr::If(ordinal, _, _, _) => *ordinal,
    }
}

/// The ordinal of the first of these instructions.
pub fn next_ordinal<A: Allocator + Copy>(code: &[Instr<A>]) -> Option<u32>
    ensures { result ≡ first_ordinal (items_of code.now) }
{
    match code {
        [] => None,
        [instr, ..] => Some(ordinal(instr)),
    }
}

/// How many values stand below the innermost call.
pub fn height_of_call<'a, A: Allocator + Copy>(entries: &[Entry<'a, A>]) -> usize
    ensures { result ≡ height (in_call (opens_of entries.now)) }
{
    match innermost_call(entries) {
        Some(entry) => entry.height,
        None => 0,
    }
}

/// The function and the ordinal of the first instruction of the code that is left.
pub fn place_in_code<'a, A: Allocator + Copy>(parts: &Parts<'a, A>) -> Option<(u32, u32)>
    ensures { result ≡ place_in (function_in (in_call (opens_of parts.now.entries.items))) (listed (items_of parts.now.code.now) End) }
{
    let (Some(instr), Some(entry)) = (parts.code.first(), innermost_call(&parts.entries)) else {
        return None;
    };
    match &entry.kind {
        Kind::Frame(func, _) => Some((*func, ordinal(instr))),
        Kind::Block | Kind::Loop => None,
    }
}

/// The values from this one on.
pub fn above(stack: &[Value], height: usize) -> &[Value]
    ensures { height ≤ length stack.now → result.now ≡ drop height stack.now }
{
    if height <= stack.len() {
        &stack[height..]
    } else {
        &[]
    }
}
