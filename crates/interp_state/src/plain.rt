// Instructions that hold no other one and leave the order of the code as it is.
ghost use Rattle.std.specs.Prelude.{◌≡◌, ◌<◌, ◌++◌, ◌∷◌, [], IfOk, IfErr, true, if◌then◌else◌, ◌==◌};
ghost use Rattle.wtypes.specs.declared.PlainInstr.TheVariants.{Select, Unary, Binary, Test, Compare, Convert};
ghost use Rattle.spec_modules.specs.Operators.{bits_of, unary_type, binary_type, test_type, compare_type, convert_from};
ghost use Rattle.interp_state.specs.declared.plain.After.TheVariants as after;
ghost use Rattle.laws_reduction.specs.Forms.{IsReadyFor, HasOne, HasTwo, HasChoice};
ghost use Rattle.interp_state.specs.Plain.{Did, DidAny};
ghost use Rattle.interp_state.specs.Taking.{plain_takes_memory};

use crate::values::{bits, pop_top, push, put_back, top};
use numeric::{binary, compare, convert, test, unary};
use std::alloc::{AllocError, Allocator};
use wtypes::{BinOp, CvtOp, PlainInstr, RelOp, TestOp, TrapCode, UnOp, Value};

/// What an instruction leads to.
#[derive(Drop)]
pub enum After {
    /// It did its work.
    Ran,
    /// It trapped.
    Fell(TrapCode),
    /// A call of this function is to come.
    Calls(u32),
}

/// Executes an instruction on the values and the locals of the innermost frame.
#[inline(always)]
pub fn execute_plain<A: Allocator + Copy>(
    op: &PlainInstr,
    stack: &mut Vec<Value, A>,
    locals: &mut Vec<Value, A>,
) -> Result<After, AllocError>
    requires { IsReadyFor op.now stack.old.items locals.old.items }
    ensures did { IfOk result (λ a. Did op.now stack.old.items locals.old.items a stack.new.items locals.new.items) }
    ensures takes { IfErr result (λ _. plain_takes_memory op.now ≡ true) }
{
    match op {
        PlainInstr::Unreachable => return Ok(After::Fell(TrapCode::Unreachable)),
        PlainInstr::Nop => {}
        PlainInstr::Call(f) => return Ok(After::Calls(*f)),
        PlainInstr::Const(value) => push(stack, *value)?,
        PlainInstr::LocalGet(x) => {
            let value = locals[*x as usize];
            push(stack, value)?;
        }
        PlainInstr::LocalSet(x) => {
            let value = pop_top(stack);
            locals[*x as usize] = value;
        }
        PlainInstr::LocalTee(x) => {
            let value = top(stack);
            locals[*x as usize] = value;
        }
        PlainInstr::Drop => {
            let _dropped = pop_top(stack);
        }
        PlainInstr::Select => select(stack),
        PlainInstr::Unary(operator) => execute_unary(*operator, stack),
        PlainInstr::Binary(operator) => return Ok(execute_binary(*operator, stack)),
        PlainInstr::Test(operator) => execute_test(*operator, stack),
        PlainInstr::Compare(operator) => execute_compare(*operator, stack),
        PlainInstr::Convert(operator) => execute_convert(*operator, stack),
        _ => unreachable!(),
    }
    Ok(After::Ran)
}

#[inline(always)]
fn select<A: Allocator + Copy>(stack: &mut Vec<Value, A>)
    requires { HasChoice stack.old.items }
    ensures { DidAny Select stack.old.items after.Ran stack.new.items }
{
    let choice = pop_top(stack);
    let second = pop_top(stack);
    let first = pop_top(stack);
    put_back(stack, chosen(choice, first, second));
}

// The first where the number is not 0, else the second.
fn chosen(choice: Value, first: Value, second: Value) -> Value
    ensures { result ≡ (if bits_of choice == 0 then second else first) }
{
    if bits(choice) == 0 { second } else { first }
}

#[inline(always)]
fn execute_unary<A: Allocator + Copy>(operator: UnOp, stack: &mut Vec<Value, A>)
    requires { HasOne (unary_type operator) stack.old.items }
    ensures { DidAny (Unary operator) stack.old.items after.Ran stack.new.items }
{
    let operand = pop_top(stack);
    put_back(stack, unary(operator, operand));
}

#[inline(always)]
fn execute_binary<A: Allocator + Copy>(operator: BinOp, stack: &mut Vec<Value, A>) -> After
    requires { HasTwo (binary_type operator) stack.old.items }
    ensures { DidAny (Binary operator) stack.old.items result stack.new.items }
{
    let second = pop_top(stack);
    let first = pop_top(stack);
    match binary(operator, first, second) {
        Ok(value) => {
            put_back(stack, value);
            After::Ran
        }
        Err(code) => After::Fell(code),
    }
}

#[inline(always)]
fn execute_test<A: Allocator + Copy>(operator: TestOp, stack: &mut Vec<Value, A>)
    requires { HasOne (test_type operator) stack.old.items }
    ensures { DidAny (Test operator) stack.old.items after.Ran stack.new.items }
{
    let operand = pop_top(stack);
    put_back(stack, test(operator, operand));
}

#[inline(always)]
fn execute_compare<A: Allocator + Copy>(operator: RelOp, stack: &mut Vec<Value, A>)
    requires { HasTwo (compare_type operator) stack.old.items }
    ensures { DidAny (Compare operator) stack.old.items after.Ran stack.new.items }
{
    let second = pop_top(stack);
    let first = pop_top(stack);
    put_back(stack, compare(operator, first, second));
}

#[inline(always)]
fn execute_convert<A: Allocator + Copy>(operator: CvtOp, stack: &mut Vec<Value, A>)
    requires { HasOne (convert_from operator) stack.old.items }
    ensures { DidAny (Convert operator) stack.old.items after.Ran stack.new.items }
{
    let operand = pop_top(stack);
    put_back(stack, convert(operator, operand));
}
