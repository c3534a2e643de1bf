//! The command `debug`: its words, the lines that the debugger's commands print, and the run of them over a world's file.
#![tactic(auto)]

mod asked;
mod cells;
mod debug;
mod fuel;
mod lines;
mod perform;
mod place;
mod prefix;
mod printed;
mod run;
mod states_json;
mod told;

pub use asked::{Debugging, debugging_of};
pub use debug::debug_world;
pub use prefix::{Met, met_by};
pub use printed::Printed;
pub use run::debug_call;
