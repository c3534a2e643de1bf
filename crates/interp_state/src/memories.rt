// Loads and stores.
ghost use Rattle.std.specs.Prelude.{◌≡◌, ◌<◌, ◌≤◌, ◌^◌, IfOk};
ghost use Rattle.wtypes.specs.declared.ValType.TheVariants as val_type;
ghost use Rattle.spec_modules.specs.Operators.{type_of, bits_of, value_of};
ghost use Rattle.spec_modules.specs.Storage as storage;
ghost use Rattle.spec_execution.specs.Reduction.{pages};
ghost use Rattle.laws_reduction.specs.Forms.{HasOne};
ghost use Rattle.interp_state.specs.Memories.{DidLoad, DidStore, DidGrow, HasPlace, Loaded, StoredAt};

use crate::plain::After;
use crate::values::{bits, pop_top, put_back};
use memory::{Linear, StoreRefusal};
use module_tree::width::{load_width, store_width};
use std::alloc::{AllocError, Allocator};
use wtypes::{LoadOp, NoMemory, StoreOp, TrapCode, Value};

/// Loads a value.
#[inline(always)]
pub fn execute_load<A: Allocator + Copy>(
    operator: LoadOp,
    offset: u32,
    stack: &mut Vec<Value, A>,
    memory: &Linear<'_, A>,
) -> After
    requires { HasOne val_type.I32 stack.old.items }
    ensures { DidLoad operator offset memory.now.bytes stack.old.items result stack.new.items }
{
    let place = pop_top(stack);
    match load_value(operator, offset, place, memory) {
        Ok(value) => {
            put_back(stack, value);
            After::Ran
        }
        Err(code) => After::Fell(code),
    }
}

/// The value that a load reads at a place.
///
/// # Errors
///
/// The trap: its bytes do not all lie in memory.
#[inline(always)]
pub fn load_value<A: Allocator + Copy>(
    operator: LoadOp,
    offset: u32,
    place: Value,
    memory: &Linear<'_, A>,
) -> Result<Value, TrapCode>
    requires { type_of place ≡ val_type.I32 }
    ensures { Loaded operator offset memory.now.bytes place result }
{
    match memory.load(address(place), offset, load_width(operator)) {
        Ok(number) => Ok(extend(operator, number)),
        Err(code) => Err(code),
    }
}

/// Stores a value.
#[inline(always)]
pub fn execute_store<A: Allocator + Copy>(
    operator: StoreOp,
    offset: u32,
    stack: &mut Vec<Value, A>,
    memory: &mut Linear<'_, A>,
) -> Result<After, AllocError>
    requires { HasPlace operator stack.old.items }
    ensures did { IfOk result (λ a. DidStore operator offset memory.old memory.new stack.old.items a stack.new.items) }
    ensures max { memory.new.max ≡ memory.old.max }
{
    let value = pop_top(stack);
    let place = pop_top(stack);
    match store_value(operator, offset, place, value, memory) {
        Ok(()) => Ok(After::Ran),
        Err(StoreRefusal::Trap(code)) => Ok(After::Fell(code)),
        Err(StoreRefusal::NoMemory) => Err(AllocError),
    }
}

/// Stores a value at a place.
///
/// # Errors
///
/// The trap: its bytes do not all lie in memory; else a page was refused. Nothing changes.
#[inline(always)]
pub fn store_value<A: Allocator + Copy>(
    operator: StoreOp,
    offset: u32,
    place: Value,
    value: Value,
    memory: &mut Linear<'_, A>,
) -> Result<(), StoreRefusal>
    requires { type_of place ≡ val_type.I32 }
    ensures { StoredAt operator offset memory.old place value result memory.new }
{
    memory.store(address(place), offset, store_width(operator), bits(value))
}

/// Grows memory.
pub fn execute_grow<A: Allocator + Copy>(
    stack: &mut Vec<Value, A>,
    memory: &mut Linear<'_, A>,
) -> Result<(), AllocError>
    requires { HasOne val_type.I32 stack.old.items }
    ensures did { IfOk result (λ _. DidGrow memory.old memory.new stack.old.items stack.new.items) }
    ensures max { memory.new.max ≡ memory.old.max }
{
    let delta = address(pop_top(stack));
    let old = memory_size(memory);
    match memory.grow(delta) {
        Ok(count) => {
            if count < 0 {
                put_back(stack, Value::I32(-1));
            } else {
                put_back(stack, old);
            }
            Ok(())
        }
        Err(NoMemory) => Err(AllocError),
    }
}

/// The size of memory in pages, as a value.
pub fn memory_size<A: Allocator + Copy>(memory: &Linear<'_, A>) -> Value
    ensures { result ≡ value_of val_type.I32 (pages memory.now.bytes) }
{
    Value::I32(memory.size().cast_signed())
}

#[inline(always)]
fn address(value: Value) -> u32
    requires { type_of value ≡ val_type.I32 }
    ensures { result ≡ bits_of value }
{
    match value {
        Value::I32(x) => x.cast_unsigned(),
        Value::I64(_) => unreachable!(),
    }
}

// The value of the number that was read.
#[inline(always)]
fn extend(operator: LoadOp, number: u64) -> Value
    requires { number < 256 ^ storage.load_width operator }
    ensures { result ≡ value_of (storage.load_type operator) (storage.extended operator number) }
{
    match operator {
        LoadOp::I32Load | LoadOp::I32Load8U | LoadOp::I32Load16U => {
            Value::I32((number as u32).cast_signed())
        }
        LoadOp::I32Load8S => Value::I32(i32::from((number as u8).cast_signed())),
        LoadOp::I32Load16S => Value::I32(i32::from((number as u16).cast_signed())),
        LoadOp::I64Load | LoadOp::I64Load8U | LoadOp::I64Load16U | LoadOp::I64Load32U => {
            Value::I64(number.cast_signed())
        }
        LoadOp::I64Load8S => Value::I64(i64::from((number as u8).cast_signed())),
        LoadOp::I64Load16S => Value::I64(i64::from((number as u16).cast_signed())),
        LoadOp::I64Load32S => Value::I64(i64::from((number as u32).cast_signed())),
    }
}
