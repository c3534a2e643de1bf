//! A shard of the book.

ghost use Rattle.std.specs.Prelude.{◌≡◌, ◌↔◌, ◌++◌, ◌∷◌, [], OnOk, OnErr, Err, List, length, ◌<◌};
ghost use Rattle.spec_ledger.specs.declared.TraceStep.{TraceStep};
ghost use Rattle.spec_ledger.specs.Events.{CommitDone, IsStale};
ghost use Rattle.sharding.specs.Shard.{IsNext};

use sharding::{EndRefusal, Shard};
use spec_ledger::{Outcome, TraceStep};
use std::alloc::Allocator;

/// As [`Shard::end`].
pub fn end<A: Allocator + Copy>(
    shard: &mut Shard<A>,
    call: u32,
    number: u64,
    outcome: Outcome,
    position: u32,
) -> Result<(), EndRefusal>
    ensures ok { OnOk result ((trace : List TraceStep) × CommitDone shard.old.book shard.new.book call number trace outcome (length shard.old.book.entries)) }
    ensures positions { OnOk result (shard.new.positions ≡ shard.old.positions ++ position ∷ []) }
    ensures stale { (result ≡ Err EndRefusal.Stale) ↔ IsStale shard.old.book call number }
    ensures position { (result ≡ Err EndRefusal.Position) ↔ (¬ (IsStale shard.old.book call number) × ¬ (IsNext shard.old.positions position)) }
    ensures err { OnErr result (shard.new ≡ shard.old) }
{
    shard.end(call, number, outcome, position)
}
