//! The command `call`: its words, the run of one call alone over a world, and what is told of the locks and the cells of a call.
#![tactic(auto)]

mod called;
mod effects;
mod effects_json;
mod one_call;
mod style;

pub use called::{Calling, calling_of};
pub use effects::{MaybeNumber, change_lines_of};
pub use effects_json::changes_of;
pub use one_call::{call_over, call_world};
pub use style::{Style, others_of, style_in};
