//! Bodies of a text in the text format of WebAssembly, as flat lists of instructions (Core Specification, 6.5
//! Instructions).
#![tactic(auto)]

mod flat;
mod parts;
pub mod shared;
mod turns;
mod unread;
mod whole;

pub use flat::{Binding, Flat, Index, Opener, TypeUse};
pub use unread::ParseFault;
pub use whole::{body, no_words_begin_with_two_bodies};
