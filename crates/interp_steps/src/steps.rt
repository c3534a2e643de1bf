// One instruction of the code.
ghost use Rattle.std.specs.Prelude.{◌≡◌, ◌+◌, ◌<◌, ◌∷◌, length, IfOk, slice_get, unwrap_or, true};
ghost use Rattle.wtypes.specs.declared.PlainInstr.TheVariants.{CallIndirect};
ghost use Rattle.spec_modules.specs.Operators.{bits_of};
ghost use Rattle.spec_execution.specs.Reduction.{arity as arity_of};
ghost use Rattle.laws_reduction.specs.Forms.{runs_on, runs_on_instance};
ghost use Rattle.interp_steps.specs.Steps.{IsOperator, IsReadyToRun, LeadsTo, MayTake, Wants};
ghost use Rattle.interp_state.specs.Taking.{plain_takes_memory};
ghost use Rattle.interp_state.specs.Steps.{IsCounted};
ghost use Rattle.interp_state.specs.Views.{items_of};

use interp_state::blocks::open;
use interp_state::branches::{branch, leave_call};
use interp_state::callee::Callee;
use interp_state::elements::function_of_element;
use interp_state::memories::{execute_grow, execute_load, execute_store, memory_size};
use interp_state::parts::{Kind, Parts};
use interp_state::plain::{After, execute_plain};
use interp_state::values::{bits, pop_top, push};
use module_tree::instr::Instr;
use std::alloc::{AllocError, Allocator};
use wtypes::{PlainInstr, ValType, Value};

/// Makes the charged reduction of the instruction to come, and the free ones of what it becomes.
#[inline(always)]
pub fn execute<'a, A: Allocator + Copy>(
    lent: &Callee<'a, A>,
    parts: &mut Parts<'a, A>,
) -> Result<After, AllocError>
    requires ready { IsReadyToRun lent.now parts.old }
    requires counted { IsCounted parts.old }
    ensures led { IfOk result (λ a. LeadsTo lent.now parts.old a parts.new) }
    ensures counted { IfOk result (λ a. IsCounted parts.new) }
    ensures max { parts.new.instance.memory.max ≡ parts.old.instance.memory.max }
    ensures takes { Wants result → MayTake (items_of parts.old.code.now) }
{
    let (instr, rest) = first(parts.code);
    match instr {
        Instr::Plain(_, op) => execute_operator(lent, parts, op, rest),
        Instr::BrTable(_, labels, fallback) => {
            let choice = pop_top(&mut parts.stack);
            branch(parts, chosen_label(labels, *fallback, choice));
            Ok(After::Ran)
        }
        Instr::Block(at, result, body) => {
            open(parts, Kind::Block, *at, arity(result), rest, body)
        }
        Instr::Loop(at, _, body) => open(parts, Kind::Loop, *at, 0, parts.code, body),
        Instr::If(at, result, met, unmet) => {
            let choice = pop_top(&mut parts.stack);
            let count = arity(result);
            if bits(choice) == 0 {
                open(parts, Kind::Block, *at, count, rest, unmet)
            } else {
                open(parts, Kind::Block, *at, count, rest, met)
            }
        }
    }
}

// The same for an instruction that holds no other one, with those behind it.
#[inline(always)]
fn execute_operator<'a, A: Allocator + Copy>(
    lent: &Callee<'a, A>,
    parts: &mut Parts<'a, A>,
    op: &PlainInstr,
    rest: &'a [Instr<A>],
) -> Result<After, AllocError>
    requires ready { IsReadyToRun lent.now parts.old }
    requires counted { IsCounted parts.old }
    requires here { IsOperator parts.old op.now rest.now }
    ensures led { IfOk result (λ a. LeadsTo lent.now parts.old a parts.new) }
    ensures counted { IfOk result (λ a. IsCounted parts.new) }
    ensures max { parts.new.instance.memory.max ≡ parts.old.instance.memory.max }
    ensures takes { Wants result → plain_takes_memory op.now ≡ true }
{
    match op {
        PlainInstr::Br(label) => {
            branch(parts, *label);
            Ok(After::Ran)
        }
        PlainInstr::BrIf(label) => {
            let choice = pop_top(&mut parts.stack);
            if bits(choice) == 0 {
                parts.code = rest;
            } else {
                branch(parts, *label);
            }
            Ok(After::Ran)
        }
        PlainInstr::Return => {
            leave_call(parts);
            Ok(After::Ran)
        }
        PlainInstr::CallIndirect(form) => Ok(call_element(lent, parts, *form, rest)),
        PlainInstr::GlobalGet(_) => execute_on_instance(lent, parts, op, rest),
        PlainInstr::GlobalSet(_) => execute_on_instance(lent, parts, op, rest),
        PlainInstr::Load(_, _, _) => execute_on_instance(lent, parts, op, rest),
        PlainInstr::Store(_, _, _) => execute_on_instance(lent, parts, op, rest),
        PlainInstr::MemorySize => execute_on_instance(lent, parts, op, rest),
        PlainInstr::MemoryGrow => execute_on_instance(lent, parts, op, rest),
        PlainInstr::Unreachable => execute_on_values(lent, parts, op, rest),
        PlainInstr::Nop => execute_on_values(lent, parts, op, rest),
        PlainInstr::Call(_) => execute_on_values(lent, parts, op, rest),
        PlainInstr::Const(_) => execute_on_values(lent, parts, op, rest),
        PlainInstr::LocalGet(_) => execute_on_values(lent, parts, op, rest),
        PlainInstr::LocalSet(_) => execute_on_values(lent, parts, op, rest),
        PlainInstr::LocalTee(_) => execute_on_values(lent, parts, op, rest),
        PlainInstr::Drop => execute_on_values(lent, parts, op, rest),
        PlainInstr::Select => execute_on_values(lent, parts, op, rest),
        PlainInstr::Unary(_) => execute_on_values(lent, parts, op, rest),
        PlainInstr::Binary(_) => execute_on_values(lent, parts, op, rest),
        PlainInstr::Test(_) => execute_on_values(lent, parts, op, rest),
        PlainInstr::Compare(_) => execute_on_values(lent, parts, op, rest),
        PlainInstr::Convert(_) => execute_on_values(lent, parts, op, rest),
    }
}

// The same for an instruction that reads or writes no more than the values and the locals.
#[inline(always)]
fn execute_on_values<'a, A: Allocator + Copy>(
    lent: &Callee<'a, A>,
    parts: &mut Parts<'a, A>,
    op: &PlainInstr,
    rest: &'a [Instr<A>],
) -> Result<After, AllocError>
    requires ready { IsReadyToRun lent.now parts.old }
    requires counted { IsCounted parts.old }
    requires here { IsOperator parts.old op.now rest.now }
    requires on_values { runs_on op.now ≡ true }
    ensures led { IfOk result (λ a. LeadsTo lent.now parts.old a parts.new) }
    ensures counted { IfOk result (λ a. IsCounted parts.new) }
    ensures max { parts.new.instance.memory.max ≡ parts.old.instance.memory.max }
    ensures takes { Wants result → plain_takes_memory op.now ≡ true }
{
    let after = execute_plain(op, &mut parts.stack, &mut parts.locals);
    parts.code = rest;
    after
}

// The same for an instruction that reads or writes the instance.
#[inline(always)]
fn execute_on_instance<'a, A: Allocator + Copy>(
    lent: &Callee<'a, A>,
    parts: &mut Parts<'a, A>,
    op: &PlainInstr,
    rest: &'a [Instr<A>],
) -> Result<After, AllocError>
    requires ready { IsReadyToRun lent.now parts.old }
    requires counted { IsCounted parts.old }
    requires here { IsOperator parts.old op.now rest.now }
    requires on_instance { runs_on_instance op.now ≡ true }
    ensures led { IfOk result (λ a. LeadsTo lent.now parts.old a parts.new) }
    ensures counted { IfOk result (λ a. IsCounted parts.new) }
    ensures max { parts.new.instance.memory.max ≡ parts.old.instance.memory.max }
    ensures takes { Wants result → plain_takes_memory op.now ≡ true }
{
    match op {
        PlainInstr::GlobalGet(x) => {
            let globals = parts.instance.globals.as_slice();
            let value = globals[*x as usize];
            push(&mut parts.stack, value)?;
            parts.code = rest;
            Ok(After::Ran)
        }
        PlainInstr::GlobalSet(x) => {
            let value = pop_top(&mut parts.stack);
            parts.instance.globals.set(*x, value);
            parts.code = rest;
            Ok(After::Ran)
        }
        PlainInstr::Load(operator, _, offset) => {
            let after = execute_load(*operator, *offset, &mut parts.stack, &parts.instance.memory);
            parts.code = rest;
            Ok(after)
        }
        PlainInstr::Store(operator, _, offset) => {
            let after = execute_store(
                *operator,
                *offset,
                &mut parts.stack,
                &mut parts.instance.memory,
            );
            parts.code = rest;
            after
        }
        PlainInstr::MemoryGrow => {
            execute_grow(&mut parts.stack, &mut parts.instance.memory)?;
            parts.code = rest;
            Ok(After::Ran)
        }
        PlainInstr::MemorySize => {
            push(&mut parts.stack, memory_size(&parts.instance.memory))?;
            parts.code = rest;
            Ok(After::Ran)
        }
        _ => unreachable!(),
    }
}

// Calls the function that an element of the table is, where it has the type of this number; the element's number is on top.
#[inline(always)]
fn call_element<'a, A: Allocator + Copy>(
    lent: &Callee<'a, A>,
    parts: &mut Parts<'a, A>,
    type_index: u32,
    rest: &'a [Instr<A>],
) -> After
    requires ready { IsReadyToRun lent.now parts.old }
    requires counted { IsCounted parts.old }
    requires here { IsOperator parts.old (CallIndirect type_index) rest.now }
    ensures led { LeadsTo lent.now parts.old result parts.new }
    ensures counted { IsCounted parts.new }
    ensures instance { parts.new.instance ≡ parts.old.instance }
{
    parts.code = rest;
    let element = bits(pop_top(&mut parts.stack));
    match function_of_element(lent, parts.instance.table, element, type_index) {
        Ok(func) => After::Calls(func),
        Err(code) => After::Fell(code),
    }
}

// The label of this number, or else the default one.
fn chosen_label(labels: &[u32], fallback: u32, choice: Value) -> u32
    ensures { result ≡ unwrap_or (slice_get labels.now (bits_of choice)) fallback }
{
    labels
        .get(bits(choice) as usize)
        .copied()
        .unwrap_or(fallback)
}

// How many values a block leaves.
pub(crate) fn arity(block: &Option<ValType>) -> usize
    ensures { result ≡ arity_of block.now }
{
    match block {
        Some(_) => 1,
        None => 0,
    }
}

// The first instruction, and those behind it.
pub(crate) fn first<'a, A: Allocator + Copy>(code: &'a [Instr<A>]) -> (&'a Instr<A>, &'a [Instr<A>])
    requires { 0 < length code.now }
    ensures { code.now ≡ result.0.now ∷ result.1.now }
{
    (&code[0], &code[1..])
}
