//! How the program is called: its options, the help, and what is wrong with words that ask for nothing; and the words of the debugger's commands.
#![tactic(auto)]

pub mod debugging;
pub mod declared;
mod misuse;
mod numbers;
mod spot;
mod usage;

pub use spot::Spot;
pub use usage::{tell_help, tell_version, usage_text};
