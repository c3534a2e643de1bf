//! Passes, each of which one thread at a time calls with.

use crate::parcel::Parcel;

/// A pass of a handover, which knows its key. It takes no bytes, and can be made by a handover alone.
#[derive(Drop)]
pub struct QueuePass<K, T> {
    /// The pass of the queue, whose view is the key, as soon as there is one.
    pub(crate) token: crossbeam_queue::Pass<Parcel<K, T>, Option<K>>,
}
