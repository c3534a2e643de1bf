//! What the workers share, and what they hand back.

use crate::trial::Trial;
use in_order::InOrder;
use interp::finished::Finished;
use link::deployed::Deployed as Contract;
use pace::Pace;
use std::alloc::Allocator;

/// A block whose order was judged, and its calls in that order over the cells before the block.
#[derive(Drop)]
pub(crate) struct Job<'s, 'a, A: Allocator, P: Pace> {
    pub(crate) ordered: InOrder<'s, 'a, A, P>,
    pub(crate) trial: &'s Trial<'s, A>,
}

/// A run that a worker made.
#[derive(Drop)]
pub(crate) struct PositionRun<'a, A: Allocator> {
    /// The position of its call.
    pub(crate) position: u32,
    pub(crate) finished: Finished<'a, A>,
}

/// What a position came to at a worker.
#[derive(Drop)]
pub(crate) struct PositionResult<'a, A: Allocator> {
    /// The run that the worker made, if it did.
    pub(crate) run: Option<PositionRun<'a, A>>,
    /// Whether the pace stops the worker.
    pub(crate) stops: bool,
}

/// The runs that a worker made, and the contracts that they ran over. (Without the contracts at their side, it is not known of a list of
/// these that the allocator lives as long as they do, which dropping it asks.)
#[derive(Drop)]
pub(crate) struct WorkerRuns<'a, A: Allocator> {
    pub(crate) contracts: &'a [Contract<A>],
    pub(crate) made: Vec<PositionRun<'a, A>, A>,
}
