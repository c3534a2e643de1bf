//! A book in shards without threads: a shard is the book of its own locks, whose attempts begin with their first operation there; its committed calls
//! stand in the journal of all (Dickerson, Gazzillo, Herlihy, Koskinen, "Adding Concurrency to Smart Contracts", PODC 2017, section 3:
//! locks and inverse logs are kept for each object by itself).
#![tactic(auto)]

mod closing;
mod first;
mod homes;
mod journal;
mod parts;
mod shard;

pub use crate::journal::{CallState, Journal};
pub use closing::{CloseRefusal, close};
pub use homes::{home, is_part};
pub use parts::Part;
pub use shard::{EndRefusal, Shard};
