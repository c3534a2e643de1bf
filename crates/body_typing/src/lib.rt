// The check of one body (Core Specification, 3.3 Instructions and 3.4.1 Functions).
#![tactic(auto)]

pub mod check;
pub mod lookup;
pub mod operands;
pub mod operators;
mod plain;
pub mod rule;
pub mod scope;
pub mod spaces;
