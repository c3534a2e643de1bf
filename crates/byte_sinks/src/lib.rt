//! Where bytes are put.
#![tactic(auto)]

mod failures;
mod memory;
mod refusal;
mod sink;

pub use failures::Failures;
pub use memory::MemorySink;
pub use refusal::WriteRefusal;
pub use sink::{Sink, SinkFault, put_all};
