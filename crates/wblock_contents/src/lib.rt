//! What is in a file: the lines of a module and of a world.
#![tactic(auto)]

mod cells;
mod defined;
mod interface;
mod kind;
mod modules;
mod names;
mod show;
mod types;
mod worlds;

pub use kind::{Kind, spelled_begin_so};
pub use modules::list_module;
pub use names::quoted;
pub use show::{Contents, show_bytes, show_file, unknown_answer};
pub use worlds::list_world;
