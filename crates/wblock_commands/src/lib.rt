//! One line of words as a command, the run of it, the stored run that no words ask for, and what is told of words that say none.
#![tactic(auto)]

mod answer;
mod command;
mod deploy;
mod line;
mod options;
mod runs;
mod stored;

pub use answer::show_stored;
pub use command::{Command, Deploying, command_of};
pub use line::run_line;
