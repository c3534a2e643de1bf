//! What stands at the place where a module breaks a rule of validation: the instruction's name in the text format, what was expected there, as the
//! types of the operands that it takes, and what was found, as the types of those on the stack.
#![tactic(auto)]

mod behind;
mod faults;
mod lists;
mod locate;
mod names;
mod operators;
mod same;
mod sites;
mod texts;

pub use lists::item_text;
pub use sites::{name_at, site_text};
pub use texts::function_text;
