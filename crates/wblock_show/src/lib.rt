//! The command `show`: what is in a module, a world or a block; of a block its text, with figures of it that an auditor wants, or its picture.
#![tactic(auto)]

mod draw;
mod file;
mod json;
mod lines;
mod named;
mod show;

pub use draw::draw_named;
pub use file::{Form, Showing, show_file_block};
pub use json::json_named;
pub use named::show_named;
pub use show::show_block;
