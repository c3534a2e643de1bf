// What instructions make of values that stand beside the stack.
ghost use Rattle.std.specs.Prelude.{◌≡◌, ◌<◌, length, true, false, None, IfSome};
ghost use Rattle.interp_state.specs.TopmostValues.{Pushes, Joins, Changes, Writes, IsReadyToPush, IsReadyToJoin, IsReadyToChange, TakesTwo, JoinsNone, pushes, joins, changes};

use numeric::{binary, compare, convert, test, unary};
use std::alloc::Allocator;
use wtypes::{PlainInstr, Value};

/// The value that an instruction pushes. `None` where it is no constant and reads no local.
#[inline(always)]
pub fn pushed_value(op: &PlainInstr, locals: &[Value]) -> Option<Value>
    requires { IsReadyToPush op.now locals.now }
    ensures pushed { IfSome result (λ v. Pushes op.now locals.now v) }
    ensures other { result ≡ None → pushes op.now ≡ false }
{
    match op {
        PlainInstr::Const(value) => Some(*value),
        PlainInstr::LocalGet(x) => Some(locals[*x as usize]),
        _ => None,
    }
}

/// The value that an operator makes of two. `None` where it is no operator of two, and where it traps.
#[inline(always)]
pub fn binary_result(op: &PlainInstr, first: Value, second: Value) -> Option<Value>
    requires { IsReadyToJoin op.now first second }
    ensures joined { IfSome result (λ v. Joins op.now first second v) }
    ensures other { result ≡ None → JoinsNone op.now first second }
{
    match op {
        PlainInstr::Binary(operator) => match binary(*operator, first, second) {
            Ok(value) => Some(value),
            Err(_) => None,
        },
        PlainInstr::Compare(operator) => Some(compare(*operator, first, second)),
        _ => None,
    }
}

/// The value that an operator makes of one. `None` where it is no operator of one.
#[inline(always)]
pub fn unary_result(op: &PlainInstr, value: Value) -> Option<Value>
    requires { IsReadyToChange op.now value }
    ensures changed { IfSome result (λ v. Changes op.now value v) }
    ensures other { result ≡ None → changes op.now ≡ false }
{
    match op {
        PlainInstr::Unary(operator) => Some(unary(*operator, value)),
        PlainInstr::Test(operator) => Some(test(*operator, value)),
        PlainInstr::Convert(operator) => Some(convert(*operator, value)),
        _ => None,
    }
}

/// Writes a local.
#[inline(always)]
pub fn write_local<A: Allocator + Copy>(x: u32, value: Value, locals: &mut Vec<Value, A>)
    requires { x < length locals.old.items }
    ensures { Writes x value locals.old.items locals.new.items }
{
    locals[x as usize] = value;
}

/// Whether an instruction is an operator of two.
#[inline(always)]
pub fn takes_two(op: &PlainInstr) -> bool
    ensures two { result ≡ true → TakesTwo op.now }
    ensures all { result ≡ joins op.now }
{
    match op {
        PlainInstr::Binary(_) => true,
        PlainInstr::Compare(_) => true,
        _ => false,
    }
}
