// Calls of the module's functions.
ghost use Rattle.std.specs.Prelude.{◌≡◌, ◌≤◌, ◌+◌, ◌++◌, [], map, IfOk, length, vec_capacity};
ghost use Rattle.spec_execution.specs.Reduction.{zero_of};
ghost use Rattle.interp_state.specs.Steps.{IsOrderedParts, IsCounted};
ghost use Rattle.interp_state.specs.Calls.{CanEnter, Enters};

use crate::callee::Callee;
use crate::parts::{Entry, Kind, Parts};
use std::alloc::{AllocError, Allocator};
use std::mem;
use wtypes::{ValType, Value};

/// The most frames that stand in one another.
const MOST_FRAMES: usize = 256;

/// For how many rooms of calls that were left there are places, at least, where one was looked for and none was there.
const ROOMS: usize = 16;

/// Starts a function of the module, and tells whether there was room for its frame.
#[inline(always)]
pub fn enter<'a, A: Allocator + Copy>(
    alloc: A,
    lent: &Callee<'a, A>,
    func: u32,
    parts: &mut Parts<'a, A>,
) -> Result<bool, AllocError>
    requires ordered { IsOrderedParts parts.old }
    requires counted { IsCounted parts.old }
    requires call { CanEnter lent.now parts.old func }
    ensures entered { IfOk result (λ entered. Enters lent.now parts.old func entered parts.new) }
    ensures counted { IfOk result (λ entered. IsCounted parts.new) }
    ensures instance { parts.new.instance ≡ parts.old.instance }
{
    let module = lent.module;
    let function = &module.funcs[func as usize - lent.hosts.len()];
    let form = &module.types[function.type_index as usize];
    if parts.depth >= MOST_FRAMES {
        return Ok(false);
    }
    let height = parts.stack.len() - form.params.len();
    let count = form.params.len() + function.locals.len();
    let room = take_room(alloc, &mut parts.spare, count)?;
    let locals = fill(room, &parts.stack[height..], &function.locals);
    let saved = mem::replace(&mut parts.locals, locals);
    parts.entries.push(Entry {
        kind: Kind::Frame(func, saved),
        ordinal: 0,
        arity: form.results.len(),
        height,
        from: parts.code,
    })?;
    parts.stack.truncate(height);
    parts.code = &function.body;
    parts.depth += 1;
    Ok(true)
}

/// The locals of a call: its arguments, and then zeros.
pub fn new_locals<A: Allocator + Copy>(
    alloc: A,
    args: &[Value],
    declared: &[ValType],
) -> Result<Vec<Value, A>, AllocError>
    ensures { IfOk result (λ locals. locals.items ≡ args.now ++ map zero_of declared.now) }
{
    let room = Vec::with_capacity(alloc, args.len() + declared.len())?;
    Ok(fill(room, args, declared))
}

// The same in an empty list that has room for them.
#[inline(always)]
pub(crate) fn fill<A: Allocator + Copy>(
    room: Vec<Value, A>,
    args: &[Value],
    declared: &[ValType],
) -> Vec<Value, A>
    requires empty { room.items ≡ [] }
    requires room { length args.now + length declared.now ≤ vec_capacity room }
    ensures { result.items ≡ args.now ++ map zero_of declared.now }
{
    let mut locals = room;
    for value in args {
        locals.push_reserved(*value);
    }
    for t in declared {
        let zero = match t {
            ValType::I32 => Value::I32(0),
            ValType::I64 => Value::I64(0),
        };
        locals.push_reserved(zero);
    }
    locals
}

// An empty list with room for so many, in the room of a call that was left, where there is one that has it.
#[inline(always)]
pub(crate) fn take_room<A: Allocator + Copy>(
    alloc: A,
    spare: &mut Vec<Vec<Value, A>, A>,
    count: usize,
) -> Result<Vec<Value, A>, AllocError>
    ensures empty { IfOk result (λ room. room.items ≡ []) }
    ensures room { IfOk result (λ room. count ≤ vec_capacity room) }
{
    match spare.pop() {
        Some(mut room) => {
            if room.capacity() >= count {
                room.clear();
                return Ok(room);
            }
        }
        None => spare.reserve(ROOMS)?,
    }
    Vec::with_capacity(alloc, count)
}

// Keeps the room of a call that is left, where there is a place for it. Takes no memory.
#[inline(always)]
pub(crate) fn keep_room<A: Allocator + Copy>(
    spare: &mut Vec<Vec<Value, A>, A>,
    left: Vec<Value, A>,
) {
    if spare.len() < spare.capacity() {
        spare.push_reserved(left);
    }
}
