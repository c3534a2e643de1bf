// Modules as trees under any allocator.
#![tactic(auto)]

mod copy;
pub mod instr;
pub mod limit;
pub mod lone;
pub mod module;
mod module_copy;
mod shape;
mod shape_of_module;
pub mod width;
