//! What waits for what.

/// An edge of the graph of an order, by positions: the second waits for the first.
#[derive(Clone, Copy, Debug, PartialEq, Eq)]
pub struct Edge {
    /// The position that goes first.
    pub before: u32,
    /// The position that waits for it.
    pub after: u32,
}
