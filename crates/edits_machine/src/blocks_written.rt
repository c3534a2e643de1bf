//! Blocks and lists of calls, written.

ghost use Rattle.std.specs.Prelude.{◌≡◌, ◌++◌, OnOk, IsErrOf, IsTrue};
ghost use Rattle.std.specs.List.{AllByRecursion};
ghost use Rattle.byte_sinks.specs.Putting.{IsCutShort, IsRaised};
ghost use Rattle.spec_block.specs.Bytes.{block_bytes, ForVersion};

use block::Block;
use byte_sinks::{Sink, WriteRefusal};
use std::alloc::Allocator;

/// As [`block::write_block`].
pub fn write_block<A: Allocator, S: Sink>(
    alloc: A,
    block: &Block<A>,
    sink: &mut S,
) -> Result<(), WriteRefusal>
    requires { AllByRecursion (λ p. ForVersion block.now.version p.receipt) block.now.positions }
    ensures put { OnOk result (IsTrue S.tells → S.told sink.new ≡ S.told sink.old ++ block_bytes block.now) }
    ensures calm { OnOk result (S.failures sink.new ≡ S.failures sink.old) }
    ensures unchanged { IsErrOf result WriteRefusal.NoMemory → sink.new ≡ sink.old }
    ensures failed { IsErrOf result WriteRefusal.Write → IsRaised (S.failures sink.old) (S.failures sink.new) }
    ensures cut_short { IsErrOf result WriteRefusal.Write → IsTrue S.tells → IsCutShort (S.told sink.old) (S.told sink.new) (block_bytes block.now) }
{
    block::write_block(alloc, block, sink)
}
