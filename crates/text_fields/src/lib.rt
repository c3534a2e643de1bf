//! The fields of a text in the text format of WebAssembly: its types, its index spaces, and what each field makes of a module, with names resolved to
//! indices (Core Specification, 6.6 Modules).
#![tactic(auto)]

mod added;
mod field;
mod locals;
mod part;
mod spaces;

pub use added::{no_text_has_two_lists_of_types, types_of_text};
pub use field::part_of;
pub use part::Part;
pub use spaces::{no_text_has_two_lists_of_spaces, spaces_of_text};
