// Values on the stack.
ghost use Rattle.std.specs.Prelude.{◌≡◌, ◌<◌, ◌++◌, ◌∷◌, [], ◌-◌, length, take, vec_len, vec_capacity, IfOk};
ghost use Rattle.spec_modules.specs.Operators.{bits_of};

use std::alloc::{AllocError, Allocator};
use wtypes::Value;

/// The number that a value's bits spell.
pub fn bits(value: Value) -> u64
    ensures { result ≡ bits_of value }
{
    match value {
        Value::I32(x) => x.cast_unsigned() as u64,
        Value::I64(x) => x.cast_unsigned(),
    }
}

/// The topmost value.
pub fn top<A: Allocator + Copy>(stack: &Vec<Value, A>) -> Value
    requires { 0 < vec_len stack.now }
    ensures { stack.now.items ≡ take (length stack.now.items - 1) stack.now.items ++ result ∷ [] }
{
    stack[stack.len() - 1]
}

/// Takes the topmost value.
pub fn pop_top<A: Allocator + Copy>(stack: &mut Vec<Value, A>) -> Value
    requires { 0 < vec_len stack.old }
    ensures items { stack.old.items ≡ stack.new.items ++ result ∷ [] }
    ensures capacity { vec_capacity stack.new ≡ vec_capacity stack.old }
{
    stack.take_last()
}

/// Puts a value on top. Memory is asked for only where there is no room.
#[inline(always)]
pub fn push<A: Allocator + Copy>(stack: &mut Vec<Value, A>, value: Value) -> Result<(), AllocError>
    ensures items { IfOk result (λ _. stack.new.items ≡ stack.old.items ++ value ∷ []) }
{
    stack.reserve(1)?;
    stack.push_reserved(value);
    Ok(())
}

/// Puts a value where there is room.
pub fn put_back<A: Allocator + Copy>(stack: &mut Vec<Value, A>, value: Value)
    requires { vec_len stack.old < vec_capacity stack.old }
    ensures { stack.new.items ≡ stack.old.items ++ value ∷ [] }
{
    stack.push_reserved(value);
}
