//! What the commands of the program share: the words of a line, what a command comes to, how that is written and printed, the lines of progress, and the
//! reading of modules and worlds.
#![tactic(auto)]

mod answer;
mod inputs;
mod line;
mod modules;
mod perform;
mod progress;
mod quiet;
mod refusals;
mod rejections;
mod sites;
mod told;
mod transition;
mod wiped;
mod words;
mod worlds;

pub use answer::{Answer, Fault, Write, read_file, write_counted};
pub use inputs::{Inputs, WorldFile, judge_calls, read_inputs, read_world_file};
pub use line::WIPE;
pub use modules::{Stop, read_contract, read_module, read_valid};
pub use perform::{Status, carry_out, tell_fault, write_files};
pub use progress::Progress;
pub use quiet::{QUIET_NAME, Words, without_quiet};
pub use refusals::ModuleRefusal;
pub use rejections::{reason_words, reject, rejection_of};
pub use told::{in_form, refuse};
pub use transition::{Change, NextWorld, Noted, Transition, with_world};
pub use wiped::Wiped;
pub use words::{
    BOOSTED_SWITCH, FORCE_SWITCH, JSON_SWITCH, Line, SIGNED_SWITCH, UNCHECKED_SWITCH, is_switch,
    is_word, split_words, switch_alone,
};
pub use worlds::judge_world;
