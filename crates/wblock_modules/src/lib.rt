//! The commands on modules: `asm`, `check`, `deploy` and `text`.
#![tactic(auto)]

mod asm;
mod check;
mod deploy;
mod places;
mod text;

pub use asm::{assemble_file, refusal_number, spell};
pub use check::{check_module, count_functions};
pub use deploy::{
    Modules, deploy_modules, empty_world, encode_extended, extend, read_modules_behind,
};
pub use places::{front_of, place_of_fault};
pub use text::{Found, find_text, write_text};
