//! Blocks and lists of calls as bytes, read and written.
#![tactic(auto)]

mod calls;
mod laws;
mod read;
mod value;
mod write;

pub use calls::{digest_calls, write_calls};
pub use laws::version_2_tells_all;
pub use read::read_block;
pub use records::{BlockRefusal, Position};
pub use value::Block;
pub use write::{encode_block, number_of_version, write_block};
