// How each call of a book stands.
ghost use Rattle.std.specs.Prelude.{◌≡◌, ◌≢◌, ◌<◌, ◌≤◌, ℕ, Some, IfSome, IfNone, length, drop, slice_get};
ghost use Rattle.std.specs.List.{AllByRecursion};
ghost use Rattle.boost.specs.BookInvariant.{live_with};

use crate::attempt::Attempt;
use std::alloc::Allocator;

/// How a call stands.
#[derive(Clone, Copy)]
pub(crate) enum CallState {
    /// It has no live attempt and no entry.
    Idle,
    /// It has a live attempt, at this place.
    Live(usize),
    /// It has an entry.
    Committed,
}

/// Where the attempt of a call stands, if it lives.
pub(crate) fn place_of(standings: &[CallState], call: u32) -> Option<usize>
    ensures found { IfSome result (λ i. slice_get standings.now call ≡ Some (CallState.Live i)) }
    ensures none { IfNone result ((i : ℕ) → slice_get standings.now call ≢ Some (CallState.Live i)) }
{
    if call as usize >= standings.len() {
        return None;
    }
    match standings[call as usize] {
        CallState::Live(place) => Some(place),
        CallState::Idle | CallState::Committed => None,
    }
}

/// Notes where the attempts from a place on stand.
pub(crate) fn note_places<A: Allocator + Copy>(
    standings: &mut Vec<CallState, A>,
    attempts: &[Attempt<A>],
    from: usize,
)
    requires { AllByRecursion (λ a. a.call < length standings.old.items) attempts.now }
    ensures { standings.new.items ≡ live_with from (drop from attempts.now) standings.old.items }
{
    for place in from..attempts.len() {
        standings[attempts[place].call() as usize] = CallState::Live(place);
    }
}
