//! What the library for other programs does, over the bytes of files: modules, worlds, calls and blocks, and each refusal with its number, its place and its sentence. It
//! takes no runtime, starts no thread and waits for nothing.
#![tactic(auto)]

mod blocks;
mod calling;
mod failure;
mod inputs;
mod modules;
mod refusals;
mod worlds;

pub use blocks::{BlockAndWorld, block_of, mine, verify};
pub use calling::{Change, Effects, call_alone};
pub use failure::{Failure, Refusal, Subject};
pub use inputs::{calls_of, world_of};
pub use modules::{assemble, check, text_of};
pub use worlds::{cells_of, digest_of, extend, new_world};
