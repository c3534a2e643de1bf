// What an import asks for, and what goes on with a reply.
ghost use Rattle.std.specs.Prelude.{◌≡◌, ◌<◌, ◌≤◌, ◌+◌, ◌-◌, ◌%◌, ◌^◌, ◌++◌, ◌∷◌, [], take, drop, pos, vec_len, vec_capacity};
ghost use Rattle.spec_modules.specs.Operators.{bits_of};
ghost use Rattle.spec_execution.specs.Reduction.{effect_of};
ghost use Rattle.interp.specs.HostRequests.{effect_of_code};
ghost use Rattle.interp.specs.Machine.{progress, params_of, value_of_reply};
ghost use Rattle.laws_reduction.specs.Hosting.{arity_of};
ghost use Rattle.wtypes.specs.declared.Value.TheVariants as value;
ghost use Rattle.interp.specs.Progress.{IsAwaited, HasAnswered};
ghost use Rattle.interp.specs.Run.{seen, IsKept};

use crate::run::Run;
use crate::turns::Status;
use interp_state::values::bits;
use interp_state::waiting::settle_all;
use spec_ledger::{CellKey, Op, Reply, TraceStep};
use std::alloc::Allocator;
use wtypes::{HostCall, Value};

// What an import asks for, by the values on top.
pub(crate) enum HostEffect {
    // An operation on a cell.
    Of(Op),
    // A run of this export of this contract, with this argument.
    Ask(u32, u32, i64),
    // The answer to the last of these.
    Answer,
}

#[inline(always)]
pub(crate) fn effect_for<A: Allocator + Copy>(
    contract: u32,
    host: HostCall,
    stack: &Vec<Value, A>,
) -> HostEffect
    requires { arity_of host ≤ vec_len stack.now }
    ensures { effect_of_code result ≡ effect_of contract host (drop (vec_len stack.now - arity_of host) stack.now.items) }
{
    let n = stack.len();
    match host {
        HostCall::Get => HostEffect::Of(Op::Get(place(contract, stack[n - 1]))),
        HostCall::Has => HostEffect::Of(Op::Has(place(contract, stack[n - 1]))),
        HostCall::Put => HostEffect::Of(Op::Put(place(contract, stack[n - 2]), bits(stack[n - 1]))),
        HostCall::Del => HostEffect::Of(Op::Del(place(contract, stack[n - 1]))),
        HostCall::Add => HostEffect::Of(Op::Add(place(contract, stack[n - 2]), bits(stack[n - 1]))),
        HostCall::Total => HostEffect::Of(Op::Total(place(contract, stack[n - 1]))),
        HostCall::Ask => HostEffect::Ask(
            low(bits(stack[n - 3])),
            low(bits(stack[n - 2])),
            bits(stack[n - 1]).cast_signed(),
        ),
        HostCall::Answer => HostEffect::Answer,
    }
}

// The lower 32 bits.
fn low(bits: u64) -> u32
    ensures { result ≡ bits % 2 ^ 32 }
{
    (bits % (1 << 32)) as u32
}

fn place(contract: u32, key: Value) -> CellKey
    ensures { result ≡ record { contract = contract; key = bits_of key } }
{
    CellKey {
        contract,
        key: bits(key),
    }
}

// How many arguments an operation takes.
fn params(op: Op) -> usize
    ensures value { result ≡ params_of op }
    ensures some { 0 < result }
{
    match op {
        Op::Put(_, _) => 2,
        Op::Add(_, _) => 2,
        Op::Get(_) => 1,
        Op::Has(_) => 1,
        Op::Del(_) => 1,
        Op::Total(_) => 1,
    }
}

// Goes on with the reply to the operation that the host was asked for.
pub(crate) fn take_answer<'a, A: Allocator + Copy>(run: &mut Run<'a, A>, reply: Reply)
    requires kept { IsKept run.old }
    requires awaited { IsAwaited run.old.status reply }
    ensures kept { IsKept run.new }
    ensures answered { HasAnswered (progress (seen run.old)) reply (progress (seen run.new)) }
{
    if let Status::Asking(op) = run.status {
        take_reply(&mut run.parts.stack, op, reply);
        record_step(&mut run.trace, TraceStep::Did(op, reply));
        run.status = Status::Running;
        settle_all(&mut run.parts, &mut run.waiting);
    }
}

// The value of a reply in the place of the arguments.
fn take_reply<A: Allocator + Copy>(stack: &mut Vec<Value, A>, op: Op, reply: Reply)
    requires { params_of op ≤ vec_len stack.old }
    ensures { stack.new.items ≡ take (vec_len stack.old - params_of op) stack.old.items ++ value_of_reply reply }
{
    let cut = stack.len() - params(op);
    match reply {
        Reply::Nothing => stack.truncate(cut),
        Reply::I32(x) => replace_at(stack, cut, Value::I32(x)),
        Reply::I64(x) => replace_at(stack, cut, Value::I64(x)),
    }
}

// The status of an `ask` in the place of its three arguments.
pub(crate) fn take_status<A: Allocator + Copy>(stack: &mut Vec<Value, A>, status: u8)
    requires { 3 ≤ vec_len stack.old }
    ensures { stack.new.items ≡ take (vec_len stack.old - 3) stack.old.items ++ value.I32 (pos status) ∷ [] }
{
    let cut = stack.len() - 3;
    replace_at(stack, cut, Value::I32(status as i32));
}

fn replace_at<A: Allocator + Copy>(stack: &mut Vec<Value, A>, at: usize, value: Value)
    requires { at < vec_len stack.old }
    ensures { stack.new.items ≡ take at stack.old.items ++ value ∷ [] }
{
    stack[at] = value;
    stack.truncate(at + 1);
}

// Puts a step where there is room.
pub(crate) fn record_step<A: Allocator + Copy>(trace: &mut Vec<TraceStep, A>, step: TraceStep)
    requires { vec_len trace.old < vec_capacity trace.old }
    ensures items { trace.new.items ≡ trace.old.items ++ step ∷ [] }
    ensures capacity { vec_capacity trace.new ≡ vec_capacity trace.old }
{
    trace.push_reserved(step);
}
