//! What a picture shows.

use crate::Edge;
use block::Position;
use figures::SharedLock;

/// The most positions that have a box: the first of the block.
pub const MOST_BOXES: usize = 2_000;

/// The most edges that have a line.
pub const MOST_LINES: usize = 4_000;

/// The most locks that are told of a position.
pub const MOST_LOCKS: usize = 8;

/// The most locks that are told of the block.
pub const MOST_HOTTEST: usize = 5;

/// What a picture shows of a block.
#[derive(Clone, Copy)]
pub struct Scene<'a> {
    /// The block's positions.
    pub positions: &'a [Position],
    /// The wave of each position.
    pub waves: &'a [u32],
    /// What waits for what, the first edges of the graph.
    pub edges: &'a [Edge],
    /// Whether the graph has more edges than these.
    pub more_edges: bool,
    /// The locks that the most positions hold, with how many hold each, the hottest first.
    pub hottest: &'a [SharedLock],
}
