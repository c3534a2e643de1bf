// Branches and returns.
ghost use Rattle.std.specs.Prelude.{◌≡◌, ◌+◌, ◌-◌, ◌≤◌, ◌++◌, length, take, drop, IfSome, None, true, false};
ghost use Rattle.interp_state.specs.Views.{opens_of, scope_of};
ghost use Rattle.interp_state.specs.Steps.{IsCounted};
ghost use Rattle.laws_reduction.specs.Branches.{IsTarget, in_call, is_frame};
ghost use Rattle.interp_state.specs.Branches.{Jumps, IsLoop, IsNoLoop, LeadsToLoop, Repeats};

use crate::calls::keep_room;
use crate::parts::{Entry, Kind, Parts};
use module_tree::instr::Instr;
use std::alloc::Allocator;
use std::mem;
use wtypes::Value;

/// Branches to the label that stands so many labels out.
pub fn branch<'a, A: Allocator + Copy>(parts: &mut Parts<'a, A>, label: u32)
    requires target { IsTarget (opens_of parts.old.entries.items) parts.old.stack.items (drop label (opens_of parts.old.entries.items)) }
    requires counted { IsCounted parts.old }
    ensures jumps { Jumps parts.old (drop label (opens_of parts.old.entries.items)) parts.new }
    ensures counted { IsCounted parts.new }
    ensures instance { parts.new.instance ≡ parts.old.instance }
{
    let left = parts.entries.len() - label as usize;
    jump(parts, left);
}

/// Branches to a label and executes the instruction of its loop, where it is one that keeps no value: the loop stays open. False where it is not, and nothing is done.
#[inline(always)]
pub fn repeat<'a, A: Allocator + Copy>(parts: &mut Parts<'a, A>, label: u32) -> bool
    requires target { IsTarget (opens_of parts.old.entries.items) parts.old.stack.items (drop label (opens_of parts.old.entries.items)) }
    requires counted { IsCounted parts.old }
    ensures repeats { result ≡ true → Repeats parts.old (drop label (opens_of parts.old.entries.items)) parts.new }
    ensures other { result ≡ false → LeadsToLoop (drop label (opens_of parts.old.entries.items)) → ⊥ }
    ensures same { result ≡ false → parts.new ≡ parts.old }
    ensures counted { IsCounted parts.new }
    ensures instance { parts.new.instance ≡ parts.old.instance }
{
    let left = parts.entries.len() - label as usize;
    let entry = &parts.entries[left - 1];
    let height = entry.height;
    let Some(body) = loop_body(entry) else {
        return false;
    };
    parts.entries.truncate(left);
    parts.stack.truncate(height);
    parts.code = body;
    true
}

// The code of the body of a loop that keeps no value.
#[inline(always)]
fn loop_body<'b, 'a, A: Allocator + Copy>(entry: &'b Entry<'a, A>) -> Option<&'a [Instr<A>]>
    ensures found { IfSome result (λ body. IsLoop entry.now body.now) }
    ensures other { result ≡ None → IsNoLoop entry.now }
{
    let Kind::Loop = &entry.kind else {
        return None;
    };
    if entry.arity != 0 || entry.from.is_empty() {
        return None;
    }
    match &entry.from[0] {
        Instr::Loop(_, _, body) => Some(body),
        _ => None,
    }
}

/// Returns from the innermost call.
pub fn leave_call<'a, A: Allocator + Copy>(parts: &mut Parts<'a, A>)
    requires target { IsTarget (opens_of parts.old.entries.items) parts.old.stack.items (in_call (opens_of parts.old.entries.items)) }
    requires counted { IsCounted parts.old }
    ensures jumps { Jumps parts.old (in_call (opens_of parts.old.entries.items)) parts.new }
    ensures counted { IsCounted parts.new }
    ensures instance { parts.new.instance ≡ parts.old.instance }
{
    let left = up_to_call(&parts.entries);
    jump(parts, left);
}

/// How many are left where those inside the innermost call are left out.
pub fn up_to_call<'a, A: Allocator + Copy>(entries: &[Entry<'a, A>]) -> usize
    ensures within { result ≤ length entries.now }
    ensures is { opens_of (take result entries.now) ≡ in_call (opens_of entries.now) }
{
    let mut left = entries.len();
    while left > 0 && !is_call(&entries[left - 1]) {
        left -= 1;
    }
    left
}

fn is_call<'a, A: Allocator + Copy>(entry: &Entry<'a, A>) -> bool
    ensures { result ≡ is_frame (scope_of entry.now.kind) }
{
    matches!(&entry.kind, Kind::Frame(_, _))
}

// Goes on behind the last of so many, or with it again where it is a loop.
fn jump<'a, A: Allocator + Copy>(parts: &mut Parts<'a, A>, left: usize)
    requires target { IsTarget (opens_of parts.old.entries.items) parts.old.stack.items (opens_of (take left parts.old.entries.items)) }
    requires counted { IsCounted parts.old }
    ensures jumps { Jumps parts.old (opens_of (take left parts.old.entries.items)) parts.new }
    ensures counted { IsCounted parts.new }
    ensures instance { parts.new.instance ≡ parts.old.instance }
{
    parts.entries.truncate(left);
    if let Some(
        Entry {
            kind,
            ordinal: _,
            arity,
            height,
            from,
        },
    ) = parts.entries.pop()
    {
        keep(&mut parts.stack, height, arity);
        parts.code = from;
        match kind {
            Kind::Block => {}
            Kind::Loop => {}
            Kind::Frame(_, saved) => {
                parts.depth -= 1;
                let left = mem::replace(&mut parts.locals, saved);
                keep_room(&mut parts.spare, left);
            }
        }
    }
}

// Keeps the topmost values, and those below a height.
fn keep<A: Allocator + Copy>(stack: &mut Vec<Value, A>, height: usize, count: usize)
    requires { height + count ≤ length stack.old.items }
    ensures { stack.new.items ≡ take height stack.old.items ++ drop (length stack.old.items - count) stack.old.items }
{
    let start = stack.len() - count;
    stack.copy_within(start.., height);
    stack.truncate(height + count);
}
