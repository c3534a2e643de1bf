//! What commands print.

use std::alloc::{Allocator, Global};

/// What commands print, and whether one of them was refused and why.
#[derive(Debug, Drop)]
pub struct Printed<A: Allocator = Global> {
    /// All lines.
    pub text: String<A>,
    /// Whether the call did not start or a command was refused.
    pub refused: bool,
    /// Why the call did not start or commands were refused, for people; empty where nothing was refused. It has no newline.
    pub why: String<A>,
}
