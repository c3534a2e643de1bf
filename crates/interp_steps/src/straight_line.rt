// Several instructions of the code at once.
ghost use Rattle.std.specs.Prelude.{true, false, ◌≡◌, ◌≢◌, ◌≤◌, ◌<◌, ◌+◌, ◌++◌, ◌∷◌, [], None, IfSome, length, drop, vec_len, vec_capacity};
ghost use Rattle.laws_reduction.specs.Meaning.{IsOrdered, IsSafeAt, Charged};
ghost use Rattle.interp_state.specs.Callee.{contract_of, base_of};
ghost use Rattle.interp_state.specs.TopmostValues.{Pushes};
ghost use Rattle.interp_state.specs.Steps.{IsOrderedParts, IsCounted, AreNumbered};
ghost use Rattle.interp_state.specs.Views.{view, opens_of};
ghost use Rattle.laws_reduction.specs.Branches.{IsTarget};
ghost use Rattle.interp_steps.specs.StraightLine.{Walks, IsSafeFor, Branched, IsFirst, IsNoPlainFirst, PushesNext, with_top, holding};

use crate::steps::{arity, first};
use interp_state::blocks::{open_in_room, settle};
use interp_state::branches::{branch, repeat};
use interp_state::callee::Callee;
use interp_state::memories::{load_value, store_value};
use interp_state::parts::{Kind, Parts};
use interp_state::plain_values::{
    binary_result, pushed_value, takes_two, unary_result, write_local,
};
use interp_state::values::{bits, pop_top, put_back, top};
use module_tree::instr::Instr;
use std::alloc::Allocator;
use wtypes::{PlainInstr, Value};

/// Makes turns as long as they only work on values, locals, memory and labels, at most so many, and tells how many. It may make none, but makes one where an instruction that pushes a constant or a local is to come and there is room on the stack.
#[inline(always)]
pub fn run_straight_line<'a, A: Allocator + Copy>(
    lent: &Callee<'a, A>,
    parts: &mut Parts<'a, A>,
    most: u64,
) -> u64
    requires some { parts.old.code.now ≢ [] }
    requires ordered { IsOrderedParts parts.old }
    requires counted { IsCounted parts.old }
    requires safe { IsSafeFor (contract_of lent.now) (view (base_of lent.now) parts.old) most }
    ensures walked { Walks (contract_of lent.now) (view (base_of lent.now) parts.old) result (view (base_of lent.now) parts.new) }
    ensures within { result ≤ most }
    ensures ordered { IsOrderedParts parts.new }
    ensures counted { IsCounted parts.new }
    ensures max { parts.new.instance.memory.max ≡ parts.old.instance.memory.max }
    ensures moves { 0 < most → vec_len parts.old.stack < vec_capacity parts.old.stack → PushesNext parts.old.code.now → 0 < result }
{
    let mut made: u64 = 0;
    'straight_line: while made < most {
        if parts.code.is_empty() {
            settle(parts);
        }
        let (more, ends) = begin(lent, parts, most - made);
        made += more;
        if ends {
            break;
        }
    }
    made
}

// Begins with the instruction to come, and goes on while a value stands beside the stack. Tells the turns, and whether the straight line ends there.
#[inline(always)]
fn begin<'a, A: Allocator + Copy>(
    lent: &Callee<'a, A>,
    parts: &mut Parts<'a, A>,
    most: u64,
) -> (u64, bool)
    requires some { 0 < most }
    requires ordered { IsOrderedParts parts.old }
    requires counted { IsCounted parts.old }
    requires safe { IsSafeFor (contract_of lent.now) (view (base_of lent.now) parts.old) most }
    ensures walked { Walks (contract_of lent.now) (view (base_of lent.now) parts.old) result.0 (view (base_of lent.now) parts.new) }
    ensures within { result.0 ≤ most }
    ensures ends { result.1 ≡ false → 0 < result.0 }
    ensures ordered { IsOrderedParts parts.new }
    ensures counted { IsCounted parts.new }
    ensures max { parts.new.instance.memory.max ≡ parts.old.instance.memory.max }
    ensures moves { vec_len parts.old.stack < vec_capacity parts.old.stack → PushesNext parts.old.code.now → 0 < result.0 }
{
    if parts.stack.len() >= parts.stack.capacity() {
        return (0, true);
    }
    let Some((op, rest)) = plain(parts.code) else {
        if enter_label(lent, parts) {
            return (1, false);
        }
        return (0, true);
    };
    match pushed_value(op, &parts.locals) {
        Some(value) => {
            parts.code = rest;
            let (made, ends) = hold(lent, parts, value, most - 1);
            (1 + made, ends)
        }
        None => {
            if let PlainInstr::Br(label) = op {
                return (go_to(parts, *label, most), false);
            }
            if !takes_top(op) {
                return (0, true);
            }
            if parts.stack.is_empty() {
                return (0, true);
            }
            let value = pop_top(&mut parts.stack);
            let (made, ends) = hold(lent, parts, value, most);
            (made, ends || made == 0)
        }
    }
}

// Whether a value beside the stack may serve an instruction.
#[inline(always)]
fn takes_top(op: &PlainInstr) -> bool {
    match op {
        PlainInstr::Unary(_) => true,
        PlainInstr::Binary(_) => true,
        PlainInstr::Test(_) => true,
        PlainInstr::Compare(_) => true,
        PlainInstr::Convert(_) => true,
        PlainInstr::LocalSet(_) => true,
        PlainInstr::LocalTee(_) => true,
        PlainInstr::BrIf(_) => true,
        PlainInstr::Load(_, _, _) => true,
        PlainInstr::Store(_, _, _) => true,
        _ => false,
    }
}

// Branches to a label, and executes the instruction of its loop as well, where it is one that keeps no value and two turns are left. Tells the turns.
#[inline(always)]
fn go_to<'a, A: Allocator + Copy>(parts: &mut Parts<'a, A>, label: u32, left: u64) -> u64
    requires some { 0 < left }
    requires target { IsTarget (opens_of parts.old.entries.items) parts.old.stack.items (drop label (opens_of parts.old.entries.items)) }
    requires counted { IsCounted parts.old }
    ensures branched { Branched parts.old (drop label (opens_of parts.old.entries.items)) result parts.new }
    ensures within { result ≤ left }
    ensures counted { IsCounted parts.new }
    ensures instance { parts.new.instance ≡ parts.old.instance }
{
    if left < 2 {
        branch(parts, label);
        return 1;
    }
    if repeat(parts, label) {
        return 2;
    }
    branch(parts, label);
    1
}

// Goes on with a value beside the stack, which is on top of it again at last. Tells the turns, and whether the straight line ends there, as far as it is known.
#[inline(always)]
fn hold<'a, A: Allocator + Copy>(
    lent: &Callee<'a, A>,
    parts: &mut Parts<'a, A>,
    first: Value,
    most: u64,
) -> (u64, bool)
    requires room { vec_len parts.old.stack < vec_capacity parts.old.stack }
    requires ordered { IsOrdered (holding (base_of lent.now) parts.old first) }
    requires counted { IsCounted parts.old }
    requires safe { IsSafeFor (contract_of lent.now) (holding (base_of lent.now) parts.old first) most }
    ensures walked { Walks (contract_of lent.now) (holding (base_of lent.now) parts.old first) result.0 (view (base_of lent.now) parts.new) }
    ensures within { result.0 ≤ most }
    ensures ordered { IsOrderedParts parts.new }
    ensures counted { IsCounted parts.new }
    ensures max { parts.new.instance.memory.max ≡ parts.old.instance.memory.max }
{
    let mut held = first;
    let mut made: u64 = 0;
    let mut ends = false;
    'held: while made < most {
        let Some((op, rest)) = plain(parts.code) else {
            if enter_if(lent, parts, held) {
                return (made + 1, false);
            }
            break;
        };
        match pushed_value(op, &parts.locals) {
            Some(second) => {
                match join_next(lent, parts, rest, held, second, most - made) {
                    Some((value, behind)) => {
                        held = value;
                        parts.code = behind;
                        made += 2;
                    }
                    None => {
                        if parts.stack.len() + 1 >= parts.stack.capacity() {
                            break;
                        }
                        parts.stack.push_reserved(held);
                        parts.code = rest;
                        held = second;
                        made += 1;
                    }
                }
            }
            None => match change_held(lent, parts, op, rest, held) {
                Some(value) => {
                    held = value;
                    made += 1;
                }
                None => {
                    let gone = let_go(lent, parts, op, rest, held, most - made);
                    if gone > 0 {
                        return (made + gone, false);
                    }
                    ends = !matches!(op, PlainInstr::Br(_));
                    break;
                }
            },
        }
    }
    put_back(&mut parts.stack, held);
    (made, ends)
}

// The first instruction, where it holds no other one, and those behind it.
#[inline(always)]
fn plain<'a, A: Allocator + Copy>(code: &'a [Instr<A>]) -> Option<(&'a PlainInstr, &'a [Instr<A>])>
    ensures first { IfSome result (λ r. IsFirst code.now r.0.now r.1.now) }
    ensures other { result ≡ None → IsNoPlainFirst code.now }
{
    if code.is_empty() {
        return None;
    }
    let (instr, rest) = first(code);
    match instr {
        Instr::Plain(_, op) => Some((op, rest)),
        _ => None,
    }
}

// What comes of two values by the operator behind the instruction that pushes the second, with the code behind both.
#[inline(always)]
fn join_next<'a, A: Allocator + Copy>(
    lent: &Callee<'a, A>,
    parts: &Parts<'a, A>,
    rest: &'a [Instr<A>],
    first: Value,
    second: Value,
    left: u64,
) -> Option<(Value, &'a [Instr<A>])>
    requires ordered { IsOrdered (with_top (base_of lent.now) parts.now (first ∷ second ∷ []) rest.now) }
    requires safe { 1 < left → rest.now ≢ [] → IsSafeAt (contract_of lent.now) (with_top (base_of lent.now) parts.now (first ∷ second ∷ []) rest.now) }
    ensures joins { IfSome result (λ r. Charged (contract_of lent.now) (with_top (base_of lent.now) parts.now (first ∷ second ∷ []) rest.now) (with_top (base_of lent.now) parts.now (r.0 ∷ []) r.1.now)) }
    ensures numbered { IfSome result (λ r. AreNumbered rest.now → AreNumbered r.1.now) }
    ensures two { IfSome result (λ r. (1 < left) × (rest.now ≢ [])) }
{
    if left < 2 {
        return None;
    }
    let (next, behind) = plain(rest)?;
    let value = binary_result(next, first, second)?;
    Some((value, behind))
}

// Executes an instruction that takes the value beside the stack and leaves one there. `None` where it is another one or traps, and nothing is done.
#[inline(always)]
fn change_held<'a, A: Allocator + Copy>(
    lent: &Callee<'a, A>,
    parts: &mut Parts<'a, A>,
    op: &PlainInstr,
    rest: &'a [Instr<A>],
    held: Value,
) -> Option<Value>
    requires here { IsFirst parts.old.code.now op.now rest.now }
    requires ordered { IsOrdered (holding (base_of lent.now) parts.old held) }
    requires counted { IsCounted parts.old }
    requires safe { IsSafeAt (contract_of lent.now) (holding (base_of lent.now) parts.old held) }
    requires room { vec_len parts.old.stack < vec_capacity parts.old.stack }
    ensures changed { IfSome result (λ v. Charged (contract_of lent.now) (holding (base_of lent.now) parts.old held) (holding (base_of lent.now) parts.new v)) }
    ensures same { result ≡ None → parts.new ≡ parts.old }
    ensures counted { IsCounted parts.new }
    ensures room { vec_len parts.new.stack < vec_capacity parts.new.stack }
    ensures max { parts.new.instance.memory.max ≡ parts.old.instance.memory.max }
{
    if let Some(value) = unary_result(op, held) {
        parts.code = rest;
        return Some(value);
    }
    if takes_two(op) {
        let below = top(&parts.stack);
        let value = binary_result(op, below, held)?;
        let _below = pop_top(&mut parts.stack);
        parts.code = rest;
        return Some(value);
    }
    match op {
        PlainInstr::LocalTee(x) => {
            write_local(*x, held, &mut parts.locals);
            parts.code = rest;
            Some(held)
        }
        PlainInstr::Load(operator, _, offset) => {
            match load_value(*operator, *offset, held, &parts.instance.memory) {
                Ok(value) => {
                    parts.code = rest;
                    Some(value)
                }
                Err(_) => None,
            }
        }
        _ => None,
    }
}

// Executes an instruction that takes the value beside the stack and leaves none, in one turn or two. 0 where it is another one, traps or wants memory, and nothing is done.
#[inline(always)]
fn let_go<'a, A: Allocator + Copy>(
    lent: &Callee<'a, A>,
    parts: &mut Parts<'a, A>,
    op: &PlainInstr,
    rest: &'a [Instr<A>],
    held: Value,
    left: u64,
) -> u64
    requires some { 0 < left }
    requires here { IsFirst parts.old.code.now op.now rest.now }
    requires ordered { IsOrdered (holding (base_of lent.now) parts.old held) }
    requires counted { IsCounted parts.old }
    requires safe { IsSafeFor (contract_of lent.now) (holding (base_of lent.now) parts.old held) left }
    ensures went { result ≢ 0 → Walks (contract_of lent.now) (holding (base_of lent.now) parts.old held) result (view (base_of lent.now) parts.new) }
    ensures within { result ≤ left }
    ensures same { result ≡ 0 → parts.new ≡ parts.old }
    ensures counted { IsCounted parts.new }
    ensures max { parts.new.instance.memory.max ≡ parts.old.instance.memory.max }
{
    match op {
        PlainInstr::LocalSet(x) => {
            write_local(*x, held, &mut parts.locals);
            parts.code = rest;
            1
        }
        PlainInstr::BrIf(label) => {
            if bits(held) == 0 {
                parts.code = rest;
                1
            } else {
                go_to(parts, *label, left)
            }
        }
        PlainInstr::Store(operator, _, offset) => {
            let place = top(&parts.stack);
            let memory = &mut parts.instance.memory;
            match store_value(*operator, *offset, place, held, memory) {
                Ok(()) => {
                    let _place = pop_top(&mut parts.stack);
                    parts.code = rest;
                    1
                }
                Err(_) => 0,
            }
        }
        _ => 0,
    }
}

// Opens the block or the loop that is to come. False where there is none, or no room for it, and nothing is done.
#[inline(always)]
fn enter_label<'a, A: Allocator + Copy>(lent: &Callee<'a, A>, parts: &mut Parts<'a, A>) -> bool
    requires ordered { IsOrderedParts parts.old }
    requires counted { IsCounted parts.old }
    requires safe { parts.old.code.now ≢ [] → IsSafeAt (contract_of lent.now) (view (base_of lent.now) parts.old) }
    ensures some { result ≡ true → parts.old.code.now ≢ [] }
    ensures entered { result ≡ true → Charged (contract_of lent.now) (view (base_of lent.now) parts.old) (view (base_of lent.now) parts.new) }
    ensures same { result ≡ false → parts.new ≡ parts.old }
    ensures counted { IsCounted parts.new }
    ensures max { parts.new.instance.memory.max ≡ parts.old.instance.memory.max }
{
    if parts.code.is_empty() {
        return false;
    }
    let (instr, rest) = first(parts.code);
    match instr {
        Instr::Block(at, result, body) => {
            open_in_room(parts, Kind::Block, *at, arity(result), rest, body)
        }
        Instr::Loop(at, _, body) => open_in_room(parts, Kind::Loop, *at, 0, parts.code, body),
        _ => false,
    }
}

// Opens the `if` that is to come, by the value beside the stack. False where there is none, or no room for it, and nothing is done.
#[inline(always)]
fn enter_if<'a, A: Allocator + Copy>(
    lent: &Callee<'a, A>,
    parts: &mut Parts<'a, A>,
    held: Value,
) -> bool
    requires ordered { IsOrdered (holding (base_of lent.now) parts.old held) }
    requires counted { IsCounted parts.old }
    requires safe { parts.old.code.now ≢ [] → IsSafeAt (contract_of lent.now) (holding (base_of lent.now) parts.old held) }
    ensures some { result ≡ true → parts.old.code.now ≢ [] }
    ensures entered { result ≡ true → Charged (contract_of lent.now) (holding (base_of lent.now) parts.old held) (view (base_of lent.now) parts.new) }
    ensures same { result ≡ false → parts.new ≡ parts.old }
    ensures counted { IsCounted parts.new }
    ensures max { parts.new.instance.memory.max ≡ parts.old.instance.memory.max }
{
    if parts.code.is_empty() {
        return false;
    }
    let (instr, rest) = first(parts.code);
    match instr {
        Instr::If(at, result, met, unmet) => {
            let body: &'a [Instr<A>] = if bits(held) == 0 { unmet } else { met };
            open_in_room(parts, Kind::Block, *at, arity(result), rest, body)
        }
        _ => false,
    }
}
