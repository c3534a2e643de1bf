// The frames that are open, and what each goes on with.
ghost use Rattle.std.specs.Prelude.{◌≡◌, ◌++◌, IfOk, OnOk, reverse};
ghost use Rattle.interp_state.specs.Frames.{first_of, in_level};
ghost use Rattle.interp_state.specs.Unwinding.{frame_at, next_out, part_frames};
ghost use Rattle.interp_state.specs.Views.{items_of, scope_of};

use crate::blocks::behind;
use crate::parts::{Entry, Kind, Parts};
use crate::places::next_ordinal;
use std::alloc::{AllocError, Allocator};

/// A frame that is open.
#[derive(Clone, Copy, Debug, PartialEq, Eq)]
pub struct OpenFrame {
    /// The number of the contract that its level runs.
    pub contract: u32,
    /// How many levels are around its level.
    pub level: usize,
    /// The number of its function.
    pub func: u32,
    /// The ordinal of the instruction that it goes on with, once the frames and the levels inside it are left. None at the end of its body.
    pub ordinal: Option<u32>,
}

// The first of two ordinals that is there.
fn first_of(first: Option<u32>, second: Option<u32>) -> Option<u32>
    ensures { result ≡ first_of first second }
{
    match first {
        None => second,
        Some(ordinal) => Some(ordinal),
    }
}

// What goes on outside of a block, a loop or a call, where this goes on inside. The frame of a call is pushed behind those inside it.
fn leave<'a, A: Allocator + Copy>(
    entry: &Entry<'a, A>,
    next: Option<u32>,
    frames: &mut Vec<(u32, Option<u32>), A>,
) -> Result<Option<u32>, AllocError>
    ensures next { IfOk result (λ outside. outside ≡ next_out (scope_of entry.now.kind) (items_of entry.now.from.now) next) }
    ensures frames { OnOk result (reverse frames.new.items ≡ frame_at (scope_of entry.now.kind) next ++ reverse frames.old.items) }
{
    match &entry.kind {
        Kind::Block => Ok(first_of(next, next_ordinal(entry.from))),
        Kind::Loop => Ok(first_of(next, next_ordinal(behind(entry.from)))),
        Kind::Frame(func, _) => {
            frames.push((*func, next))?;
            Ok(next_ordinal(entry.from))
        }
    }
}

/// The frames that are open, the outer one first: for each the number of its function, and the ordinal of the instruction that it goes on with once those inside
/// it are left. None stands at the end of its body.
pub fn frames_of<'a, A: Allocator + Copy>(
    alloc: A,
    parts: &Parts<'a, A>,
) -> Result<Vec<(u32, Option<u32>), A>, AllocError>
    ensures { IfOk result (λ frames. frames.items ≡ part_frames parts.now) }
{
    let mut frames = Vec::new(alloc);
    let mut next = next_ordinal(parts.code);
    let mut left = parts.entries.len();
    while left > 0 {
        left -= 1;
        let outside = leave(&parts.entries[left], next, &mut frames)?;
        next = outside;
    }
    frames.reverse();
    Ok(frames)
}

/// Adds frames of a level, around which so many are, and of the contract that it runs.
pub fn add_frames<A: Allocator + Copy>(
    chain: &mut Vec<OpenFrame, A>,
    level: usize,
    contract: u32,
    frames: &[(u32, Option<u32>)],
) -> Result<(), AllocError>
    ensures { OnOk result (chain.new.items ≡ chain.old.items ++ in_level level contract frames.now) }
{
    for frame in frames {
        let (func, ordinal) = *frame;
        chain.push(OpenFrame {
            contract,
            level,
            func,
            ordinal,
        })?;
    }
    Ok(())
}
