// Copies of what a machine has.
ghost use Rattle.std.specs.Prelude.{◌≡◌, IfOk};
ghost use Rattle.interp_state.specs.Views.{open_of, scope_of};
ghost use Rattle.interp_state.specs.Copies.{IsInstanceCopy, AreEntryCopies, IsPartsCopy, IsWaitingCopy, IsSameEntry};

use crate::parts::{Entry, Kind, Parts};
use crate::waiting::Waiting;
use instance::Instance;
use spec_ledger::NoMemory;
use std::alloc::{AllocError, Allocator};

fn copy_kind<A: Allocator + Copy>(alloc: A, kind: &Kind<A>) -> Result<Kind<A>, AllocError>
    ensures { IfOk result (λ copy. scope_of copy ≡ scope_of kind.now) }
{
    match kind {
        Kind::Block => Ok(Kind::Block),
        Kind::Loop => Ok(Kind::Loop),
        Kind::Frame(func, saved) => Ok(Kind::Frame(*func, saved.to_vec(alloc)?)),
    }
}

fn copy_entry<'a, A: Allocator + Copy>(
    alloc: A,
    entry: &Entry<'a, A>,
) -> Result<Entry<'a, A>, AllocError>
    ensures open { IfOk result (λ copy. open_of copy ≡ open_of entry.now) }
    ensures code { IfOk result (λ copy. copy.from.now ≡ entry.now.from.now) }
{
    Ok(Entry {
        kind: copy_kind(alloc, &entry.kind)?,
        ordinal: entry.ordinal,
        arity: entry.arity,
        height: entry.height,
        from: entry.from,
    })
}

fn copy_entries<'a, A: Allocator + Copy>(
    alloc: A,
    entries: &[Entry<'a, A>],
) -> Result<Vec<Entry<'a, A>, A>, AllocError>
    ensures { IfOk result (λ copies. AreEntryCopies entries.now copies.items) }
{
    let mut copies = Vec::new(alloc);
    for entry in entries {
        copies.push(copy_entry(alloc, entry)?)?;
    }
    Ok(copies)
}

fn copy_instance<'a, A: Allocator + Copy>(
    alloc: A,
    instance: &Instance<'a, A>,
) -> Result<Instance<'a, A>, NoMemory>
    ensures { IfOk result (λ copy. IsInstanceCopy instance.now copy) }
{
    let memory = instance.memory.copy()?;
    let globals = instance.globals.copy(alloc)?;
    Ok(Instance {
        globals,
        memory,
        table: instance.table,
    })
}

fn copy_entry_to_come<'a, A: Allocator + Copy>(
    alloc: A,
    waiting: &Waiting<'a, A>,
) -> Result<Waiting<'a, A>, AllocError>
    ensures { IfOk result (λ copy. IsWaitingCopy waiting.now copy) }
{
    Ok(Waiting {
        func: waiting.func,
        arity: waiting.arity,
        locals: waiting.locals.to_vec(alloc)?,
        body: waiting.body,
        entries: Vec::with_capacity(alloc, 1)?,
    })
}

/// The same entry, if one waits, with memory of its own.
pub fn copy_waiting<'a, A: Allocator + Copy>(
    alloc: A,
    waiting: &Option<Waiting<'a, A>>,
) -> Result<Option<Waiting<'a, A>>, AllocError>
    ensures { IfOk result (λ copy. IsSameEntry waiting.now copy) }
{
    match waiting {
        Some(entry) => Ok(Some(copy_entry_to_come(alloc, entry)?)),
        None => Ok(None),
    }
}

/// The same parts, with memory of their own.
pub fn copy_parts<'a, A: Allocator + Copy>(
    alloc: A,
    parts: &Parts<'a, A>,
) -> Result<Parts<'a, A>, NoMemory>
    ensures { IfOk result (λ copy. IsPartsCopy parts.now copy) }
{
    Ok(Parts {
        code: parts.code,
        entries: copy_entries(alloc, &parts.entries)?,
        depth: parts.depth,
        stack: parts.stack.to_vec(alloc)?,
        locals: parts.locals.to_vec(alloc)?,
        instance: copy_instance(alloc, &parts.instance)?,
        spare: Vec::new(alloc),
    })
}
