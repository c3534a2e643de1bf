// Expressions, read from their bytes (Core Specification, 5.4 Instructions).
#![tactic(auto)]

mod body;
mod expr;
mod opcodes;
mod plain;
mod read;
mod unread;

pub use expr::{expression_of, read_expr};
use module_tree::limit::Limit;
use thiserror::Error;
pub use unread::DecodeFault;

/// Why bytes were not read.
#[derive(Clone, Copy, Debug, PartialEq, Eq, Error)]
pub enum LoadRefusal {
    /// The grammar has no such form: the offset of the first byte of the item at fault.
    #[error("malformed at {0}")]
    Malformed(usize),
    /// A form of the standard that this profile leaves out (floating point): the offset of its first byte.
    #[error("a form that is not supported, at {0}")]
    Unsupported(usize),
    /// A limit is passed.
    #[error("more than {0}")]
    TooLarge(Limit),
    /// Memory was refused.
    #[error("memory was refused")]
    NoMemory,
}
