//! The parts of a machine, and what instructions do to its values, locals, memory and table: the code that is left, with the blocks, loops and calls
//! round it.
#![tactic(auto)]

pub mod blocks;
pub mod branches;
pub mod callee;
pub mod calls;
pub mod copies;
pub mod elements;
pub mod frames;
pub mod memories;
pub mod parts;
pub mod places;
pub mod plain;
pub mod plain_values;
pub mod values;
pub mod waiting;
