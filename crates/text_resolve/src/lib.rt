//! The index spaces of a text in the text format of WebAssembly, and its type uses and instructions with names resolved to indices (Core
//! Specification, 6.1.5 Contexts, 6.3.5 Identifiers, 6.4 Types, 6.5 Instructions).
#![tactic(auto)]

mod body;
mod indices;
mod instrs;
mod labels;
mod operators;
mod refusal;
mod space;
mod spaces;
mod types;

pub use body::{expression, no_instructions_are_two_expressions};
pub use indices::{Finds, are_in_range, index_in, indices_in, number};
pub use instrs::plain;
pub use labels::Labels;
pub use module_tree::limit::Limit;
pub use refusal::{AsmRefusal, ResolveFault};
pub use space::Space;
pub use spaces::Spaces;
pub use types::{first_type, type_number, written_type};
