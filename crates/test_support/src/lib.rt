//! Sample contracts for tests and benches, and an allocator that fails when it is told to: their bytes, and the way from bytes to a contract that can be run.
#![tactic(auto)]

mod contracts;
mod failing_allocator;
mod modules;

pub use crate::failing_allocator::Ration;
pub use contracts::{SampleRefusal, call, deployed, example, first, typed};
pub use modules::{ASKING, EXAMPLE, FIRST_MODULE, PROBING};
