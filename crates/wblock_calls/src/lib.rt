//! Calls and receipts as lines of text, what is wrong with a text that spells no calls, and what sentences are made of.
#![tactic(auto)]

mod fault;
mod line;
mod number;
mod reader;
mod receipt;
mod refusal;
mod sentence;
mod words;

pub use fault::{call_words, calls_words};
pub use line::{call_of_words, split_words};
pub use number::NumberText;
pub use reader::{CallsRefusal, MOST_CALLS, read_calls};
pub use receipt::{PositionLine, ReceiptText, ValueText};
pub use refusal::refusal_line;
pub use sentence::{place_line, printable};
pub use words::number_of;
