// The beginnings and the ends of blocks, loops and calls.
ghost use Rattle.std.specs.Prelude.{◌≡◌, ◌+◌, ◌<◌, ◌≤◌, [], IfOk, vec_len, vec_capacity, true, false};
ghost use Rattle.laws_reduction.specs.Branches.{is_frame};
ghost use Rattle.interp_state.specs.declared.plain.After.TheVariants.{Ran};
ghost use Rattle.interp_state.specs.Views.{scope_of};
ghost use Rattle.interp_state.specs.Steps.{AreNumbered, HasOpened, IsOrderedParts, IsReadyParts, AllSettle, IsBehind, IsCounted};

use crate::calls::keep_room;
use crate::parts::{Entry, Kind, Parts};
use crate::plain::After;
use module_tree::instr::Instr;
use std::alloc::{AllocError, Allocator};
use std::mem;

/// Opens a block or a loop above all values.
#[inline(always)]
pub fn open<'a, A: Allocator + Copy>(
    parts: &mut Parts<'a, A>,
    kind: Kind<A>,
    ordinal: u32,
    arity: usize,
    from: &'a [Instr<A>],
    body: &'a [Instr<A>],
) -> Result<After, AllocError>
    requires counted { IsCounted parts.old }
    requires label { is_frame (scope_of kind) ≡ false }
    requires from_numbered { AreNumbered from.now }
    requires body_numbered { AreNumbered body.now }
    ensures instance { parts.new.instance ≡ parts.old.instance }
    ensures opened { IfOk result (λ a. HasOpened parts.old kind ordinal arity from.now body.now a parts.new) }
    ensures counted { IfOk result (λ a. IsCounted parts.new) }
{
    parts.entries.reserve(1)?;
    open_reserved(parts, kind, ordinal, arity, from, body);
    Ok(After::Ran)
}

/// The same where there is room for it, without taking memory. False where there is none, and nothing is done.
#[inline(always)]
pub fn open_in_room<'a, A: Allocator + Copy>(
    parts: &mut Parts<'a, A>,
    kind: Kind<A>,
    ordinal: u32,
    arity: usize,
    from: &'a [Instr<A>],
    body: &'a [Instr<A>],
) -> bool
    requires counted { IsCounted parts.old }
    requires label { is_frame (scope_of kind) ≡ false }
    requires from_numbered { AreNumbered from.now }
    requires body_numbered { AreNumbered body.now }
    ensures instance { parts.new.instance ≡ parts.old.instance }
    ensures opened { result ≡ true → HasOpened parts.old kind ordinal arity from.now body.now Ran parts.new }
    ensures full { result ≡ false → vec_capacity parts.old.entries ≤ vec_len parts.old.entries }
    ensures same { result ≡ false → parts.new ≡ parts.old }
    ensures counted { IsCounted parts.new }
{
    if parts.entries.len() >= parts.entries.capacity() {
        return false;
    }
    open_reserved(parts, kind, ordinal, arity, from, body);
    true
}

// The same in room that is there.
#[inline(always)]
fn open_reserved<'a, A: Allocator + Copy>(
    parts: &mut Parts<'a, A>,
    kind: Kind<A>,
    ordinal: u32,
    arity: usize,
    from: &'a [Instr<A>],
    body: &'a [Instr<A>],
)
    requires room { vec_len parts.old.entries < vec_capacity parts.old.entries }
    requires counted { IsCounted parts.old }
    requires label { is_frame (scope_of kind) ≡ false }
    requires from_numbered { AreNumbered from.now }
    requires body_numbered { AreNumbered body.now }
    ensures instance { parts.new.instance ≡ parts.old.instance }
    ensures opened { HasOpened parts.old kind ordinal arity from.now body.now Ran parts.new }
    ensures counted { IsCounted parts.new }
{
    let height = parts.stack.len();
    parts.entries.push_reserved(Entry {
        kind,
        ordinal,
        arity,
        height,
        from,
    });
    parts.code = body;
}

/// Leaves blocks, loops and calls as long as they are at their end.
pub fn settle<'a, A: Allocator + Copy>(parts: &mut Parts<'a, A>)
    requires ordered { IsOrderedParts parts.old }
    requires counted { IsCounted parts.old }
    ensures settles { AllSettle parts.old parts.new }
    ensures ready { IsReadyParts parts.new }
    ensures counted { IsCounted parts.new }
    ensures instance { parts.new.instance ≡ parts.old.instance }
{
    while parts.code.is_empty() && !parts.entries.is_empty() {
        leave(parts);
    }
}

// Leaves the innermost block, loop or call, at the end of its code. It is a function of its own so that the turns before pay nothing for it.
#[inline(never)]
fn leave<'a, A: Allocator + Copy>(parts: &mut Parts<'a, A>)
    requires ordered { IsOrderedParts parts.old }
    requires counted { IsCounted parts.old }
    requires at_end { parts.old.code.now ≡ [] }
    requires open { 0 < vec_len parts.old.entries }
    ensures settles { AllSettle parts.old parts.new }
    ensures fewer { vec_len parts.new.entries + 1 ≡ vec_len parts.old.entries }
    ensures counted { IsCounted parts.new }
    ensures instance { parts.new.instance ≡ parts.old.instance }
{
    if let Some(
        Entry {
            kind,
            ordinal: _,
            arity: _,
            height: _,
            from,
        },
    ) = parts.entries.pop()
    {
        match kind {
            Kind::Block => parts.code = from,
            Kind::Loop => parts.code = behind(from),
            Kind::Frame(_, saved) => {
                parts.code = from;
                parts.depth -= 1;
                let left = mem::replace(&mut parts.locals, saved);
                keep_room(&mut parts.spare, left);
            }
        }
    }
}

// The instructions behind the first.
pub(crate) fn behind<'a, A: Allocator + Copy>(code: &'a [Instr<A>]) -> &'a [Instr<A>]
    ensures { IsBehind code.now result.now }
{
    if code.is_empty() { code } else { &code[1..] }
}
