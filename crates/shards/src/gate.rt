// Who is told that an operation holds a shard's lock.

/// Is told of operations. Under contract nothing follows from what it does.
pub trait Gate: Sync {
    /// An operation holds the lock of this shard. It goes on when this returns.
    fn inside(&self, shard: u32);
}

/// A gate that does nothing.
#[derive(Clone, Copy, Debug)]
pub struct NoGate;

impl Gate for NoGate {
    fn inside(&self, _shard: u32) {}
}
