//! The sentence of each refusal, for people: what is wrong, where, and what to do. It is said on standard error, beside the line of numbers on
//! standard output, and has no newline. A sentence is made of the refusal, and of the text or the bytes that are refused. Beside it the names of functions that a
//! module carries.
#![tactic(auto)]

mod blocks;
mod entries;
mod extensions;
mod files;
mod function_names;
mod modules;
mod parts;
mod places;
mod texts;
mod worlds;

pub use blocks::{advice_on, block_words};
pub use entries::entry_words;
pub use function_names::{FunctionName, first_name, names_from, names_of};
pub use modules::{form_words, import_words, limit_words, room_words, rule_words, segment_words};
pub use places::{LineColumn, place_of};
pub use texts::text_words;
pub use worlds::world_words;
