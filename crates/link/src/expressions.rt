// The values of constant expressions.

ghost use Rattle.std.specs.Prelude.{◌≡◌};
ghost use Rattle.spec_modules.specs.Syntax as syntax;
ghost use Rattle.spec_modules.specs.Operators.{bits_of};
ghost use Rattle.spec_execution.specs.Configuration.{constant};
ghost use Rattle.module_tree.specs.View.{instrs_view};

use module_tree::instr::Instr;
use module_tree::lone::lone_plain;
use std::alloc::Allocator;
use wtypes::{PlainInstr, Value};

fn value_of_const(op: PlainInstr) -> Value
    ensures { result ≡ constant (syntax.seq (syntax.Plain op) syntax.nothing) }
{
    match op {
        PlainInstr::Const(value) => value,
        _ => Value::I32(0),
    }
}

/// The value of a constant expression.
pub fn constant_of<A: Allocator>(expression: &Vec<Instr<A>, A>) -> Value
    ensures { result ≡ constant (instrs_view expression.now.items) }
{
    match lone_plain(expression) {
        Some(op) => value_of_const(op),
        None => Value::I32(0),
    }
}

/// The number that a value's bits spell.
pub fn bits(value: Value) -> u64
    ensures { result ≡ bits_of value }
{
    match value {
        Value::I32(x) => u64::from(x.cast_unsigned()),
        Value::I64(x) => x.cast_unsigned(),
    }
}
