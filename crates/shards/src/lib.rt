//! The book of calls that threads share, in shards, and whole under one lock: each shard keeps the book of its own locks behind a lock of its own, and a
//! journal behind another keeps the committed calls in their order (Dickerson, Gazzillo, Herlihy, Koskinen, "Adding Concurrency to Smart Contracts", PODC
//! 2017, sections 3 and 4; the shards are own).
#![tactic(auto)]

mod gate;
mod marks;
mod opening;
mod sharded;
mod shared;
mod ticket;

pub use gate::{Gate, NoGate};
pub use marks::Marks;
pub use sharded::Shards;
pub use shared::{OtherBook, SharedBook};
pub use ticket::Ticket;
