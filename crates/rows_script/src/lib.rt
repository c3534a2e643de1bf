//! Rows of tests as text: the files before, the steps over them, and what is wanted of each, a line each. Whoever plays them says what a step comes to.
#![tactic(auto)]

mod kinds;
mod pieces;
mod report;
mod script;
mod wanted;
mod wrong;

pub use kinds::{Asked, Came, Fails, Kinds};
pub use pieces::cut;
pub use script::Script;
