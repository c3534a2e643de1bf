// The bytes that a memory begins with.

ghost use Rattle.std.specs.Prelude.{◌≡◌, ℕ, ◌*◌, ◌≤◌, None, [], ◌∷◌, All, map, IfOk};
ghost use Rattle.spec_modules.specs.Profile.{page_size, page_limit};
ghost use Rattle.spec_typing.specs.Linking.{IsLinked};
ghost use Rattle.spec_execution.specs.Configuration.{size_of, fresh};
ghost use Rattle.module_tree.specs.ModuleView.{data_view};
ghost use Rattle.module_tree.specs.Modules.{module_view};
ghost use Rattle.memory.specs.Start.{stands, first_bytes};
ghost use Rattle.link.specs.Starts.{EndsWithin, IsLaid};

use crate::segments::offset_number;
use memory::Start;
use module_tree::module::{DataSegment, Module};
use std::alloc::{AllocError, Allocator};
use wtypes::HostCall;

// The bytes of one segment.
fn laid_alone<A: Allocator + Clone>(
    alloc: &A,
    segment: &DataSegment<A>,
) -> Result<Start<A>, AllocError>
    requires { EndsWithin (page_size * page_limit) (data_view segment.now) }
    ensures { IfOk result (λ s. IsLaid (stands s) (data_view segment.now ∷ [])) }
{
    match offset_number(&segment.offset) {
        Some(at) => Start::of_bytes(alloc.clone()?, at as usize, &segment.bytes),
        None => unreachable!(),
    }
}

// The bytes of segments, of which later ones win: those of the first half, and those of the second over them.
fn laid<A: Allocator + Clone>(
    alloc: &A,
    segments: &[DataSegment<A>],
) -> Result<Start<A>, AllocError>
    requires { All (EndsWithin (page_size * page_limit)) (map data_view segments.now) }
    ensures { IfOk result (λ s. IsLaid (stands s) (map data_view segments.now)) }
{
    if segments.is_empty() {
        return Start::of_bytes(alloc.clone()?, 0, &[]);
    }
    if segments.len() == 1 {
        return laid_alone(alloc, &segments[0]);
    }
    let middle = segments.len() / 2;
    let below = laid(alloc, &segments[..middle])?;
    let above = laid(alloc, &segments[middle..])?;
    above.over(alloc.clone()?, &below)
}

/// The bytes that the memory of a module begins with, which is linked to these host calls.
pub fn first_start<A: Allocator + Clone>(
    alloc: &A,
    tree: &Module<A>,
    hosts: &[HostCall],
) -> Result<Start<A>, AllocError>
    requires { IsLinked (module_view tree.now) hosts.now }
    ensures bytes { IfOk result (λ s. first_bytes s (page_size * size_of (module_view tree.now).memories) ≡ (fresh (module_view tree.now)).memory) }
    ensures ends { IfOk result (λ s. (k : ℕ) → page_size * size_of (module_view tree.now).memories ≤ k → stands s k ≡ None) }
{
    laid(alloc, &tree.datas)
}
