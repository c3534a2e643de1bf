// Modules, read from their bytes (Core Specification, 5.5 Modules).
#![tactic(auto)]

mod code;
mod items;
mod modules;
mod sections;
mod values;
mod vectors;

pub use expr_reader::LoadRefusal;
pub use modules::load;
