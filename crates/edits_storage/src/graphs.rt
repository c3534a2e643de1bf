//! The graph of an order.

ghost use Rattle.std.specs.Prelude.{◌≡◌, ◌↔◌, ◌<◌, ℕ, IfOk, length, ◌≤◌, Err, OnOk, OnErr, slice_set, true};
ghost use Rattle.std.specs.List.{Contains};
ghost use Rattle.std.specs.List.Sorted.{IsStrictlyIncreasing};
ghost use Rattle.spec_block.specs.Schedule.{IsEdge};
ghost use Rattle.schedule.specs.Board.{has_ended, IsFree, IsWaiting};

use schedule::{Board, EndRefusal};
use std::alloc::Allocator;

/// As [`schedule::Board::end`].
pub fn end<A: Allocator + Copy>(
    board: &mut Board<A>,
    position: u32,
) -> Result<Vec<u32, A>, EndRefusal>
    ensures ok { OnOk result (board.new ≡ record board.old { ended = slice_set board.old.ended position true }) }
    ensures rising { IfOk result (λ free. IsStrictlyIncreasing free.items) }
    ensures free { IfOk result (λ free. (j : ℕ) → Contains free.items j ↔ (IsEdge board.old.profiles position j × IsFree board.new j)) }
    ensures no_such { result ≡ Err EndRefusal.NoSuchPosition ↔ (length board.old.profiles ≤ position) }
    ensures not_ready { result ≡ Err EndRefusal.NotReady ↔ IsWaiting board.old position }
    ensures twice { result ≡ Err EndRefusal.Ended ↔ (has_ended board.old position ≡ true) }
    ensures err { OnErr result (board.new ≡ board.old) }
{
    board.end(position)
}
