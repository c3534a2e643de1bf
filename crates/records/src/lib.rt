//! What files are made of: little-endian numbers of fixed width, and over them the records of a block (values, receipts, lock profiles and positions), each
//! read from the front of bytes and appended at their end; and why bytes gave no block or no world.
#![tactic(auto)]

mod append;
mod entry;
mod fault;
mod laws;
mod position;
mod profile;
mod read;
mod receipt;
mod refusal;
mod value;

pub use append::{append_u32, append_u64};
pub use entry::{append_entry, read_entry};
pub use fault::Fault;
pub use laws::fields_are_read_exactly;
pub use position::{Position, append_position, positions_are_read_exactly, read_position};
pub use profile::{append_profile, read_profile};
pub use read::{read_byte, read_front, read_tag, read_u32, read_u64};
pub use receipt::{append_receipt, read_receipt};
pub use refusal::{BlockRefusal, ReadRefusal};
pub use value::{append_value, read_value};
