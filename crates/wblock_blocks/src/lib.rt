//! The commands on blocks, `mine` and `validate`.
#![tactic(auto)]

mod mine;
mod note;
mod objects;
mod text;
mod validate;

pub use mine::{Mining, mine_block, mine_over};
pub use validate::{Validation, validate_block, validate_over};
