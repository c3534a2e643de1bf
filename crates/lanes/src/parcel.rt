//! What lies in the queue.

/// What lies in the queue of a handover.
#[derive(Drop)]
pub enum Parcel<K, T> {
    /// The key, which is put in first, and taken out again before any thread has the handover.
    Key(K),
    /// An item that was given.
    Item(T),
}
