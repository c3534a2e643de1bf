// Which shard a lock belongs to, and whether a trace is a shard's part of another.
ghost use Rattle.std.specs.Prelude.{◌≡◌, ◌<◌, [], IsTrue, ◌↔◌, false};
ghost use Rattle.spec_ledger.specs.Modes.{ops_of};
ghost use Rattle.spec_ledger.specs.Shards.{part, shard_of};
ghost use Rattle.sharding.specs.Steps.{asks_at, is_seen};

use boost::trace::same_step;
use spec_ledger::{Lock, Outcome, TraceStep};
use storage::lock;

/// The shard of a lock, of so many: contract and key added modulo 2^64, then modulo the number of shards.
pub fn home(lock: Lock, shards: u32) -> u32
    requires { 0 < shards }
    ensures { result ≡ shard_of shards lock }
{
    let sum = u64::from(lock.contract).wrapping_add(lock.key);
    // (a remainder by a number that the compiler knows is no division)
    match shards {
        1 => 0,
        16 => (sum % 16) as u32,
        _ => (sum % u64::from(shards)) as u32,
    }
}

pub(crate) fn same_outcome(a: Outcome, b: Outcome) -> bool
    ensures { IsTrue result ↔ (a ≡ b) }
{
    a == b
}

/// Whether a step is an operation at a lock of a shard.
fn asks(step: TraceStep, shard: u32, shards: u32) -> bool
    requires { 0 < shards }
    ensures { result ≡ asks_at (shard_of shards) shard step }
{
    match step {
        TraceStep::Did(op, _) => home(lock(op), shards) == shard,
        TraceStep::Opened | TraceStep::Kept | TraceStep::Dropped => false,
    }
}

/// Whether a shard's part of a trace has a step: its operations, and every mark.
fn sees(step: TraceStep, shard: u32, shards: u32) -> bool
    requires { 0 < shards }
    ensures { result ≡ is_seen (shard_of shards) shard step }
{
    match step {
        TraceStep::Did(op, _) => home(lock(op), shards) == shard,
        TraceStep::Opened | TraceStep::Kept | TraceStep::Dropped => true,
    }
}

/// Whether these steps are a shard's part of a trace: those at its locks and every mark, in order.
pub fn is_part(own: &[TraceStep], trace: &[TraceStep], shard: u32, shards: u32) -> bool
    requires { 0 < shards }
    ensures { IsTrue result ↔ (own.now ≡ part (shard_of shards) shard trace.now) }
{
    let mut next = 0;
    for step in trace {
        if !sees(*step, shard, shards) {
            continue;
        }
        if next >= own.len() {
            return false;
        }
        if !same_step(&own[next], step) {
            return false;
        }
        next += 1;
    }
    next == own.len()
}

/// Whether a trace has an operation at a lock of a shard.
pub(crate) fn touches(trace: &[TraceStep], shard: u32, shards: u32) -> bool
    requires { 0 < shards }
    ensures { (result ≡ false) ↔ ([] ≡ ops_of (part (shard_of shards) shard trace.now)) }
{
    for step in trace {
        if asks(*step, shard, shards) {
            return true;
        }
    }
    false
}
