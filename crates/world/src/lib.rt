//! Worlds, which are contracts and cells, and their bytes.
#![tactic(auto)]

mod after;
mod cell;
mod cells;
mod contracts;
mod judge;
mod list;
mod read;
mod store;
mod value;
mod write;

pub use after::{copy_contracts, world_after};
pub use cells::read_cells;
pub use read::read_world;
pub use records::ReadRefusal;
pub use value::World;
pub use write::{digest_world, encode_world, is_kind, write_world};
