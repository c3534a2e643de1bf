//! A debugger of one call, which runs alone over given cells: forward and back by turns, on to a break, and what is read
//! of each state. A turn is one charged move of whichever level is the innermost, with the free ones that follow it.
#![tactic(auto)]

ghost use Rattle.debugger.specs.SessionView.{StatesHavePlaces};

mod breaks;
mod cursor;
mod kept;
mod place;
pub mod session;
mod undo;

pub use crate::place::Place;
/// A frame that is open.
pub use interp_state::frames::OpenFrame;
/// A contract, as the machine takes it.
pub use link::deployed::Deployed as Contract;

/// A law: each state of a session has ended, or else an instruction is to come, and its place is shown.
pub fn states_have_places()
    ensures { StatesHavePlaces }
{
    laws_soundness::places_are_of_what_comes();
}
