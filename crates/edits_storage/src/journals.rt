//! The journal.

ghost use Rattle.std.specs.Prelude.{◌≡◌, ◌≢◌, ◌↔◌, Err, IfOk, OnErr};
ghost use Rattle.sharding.specs.Journals.{Commits, IsLive};

use boost::book::CommitRefusal;
use sharding::Journal;
use spec_ledger::{Outcome, TraceStep};
use std::alloc::Allocator;

/// As [`Journal::commit`].
pub fn commit<A: Allocator + Copy>(
    journal: &mut Journal<A>,
    call: u32,
    number: u64,
    trace: Vec<TraceStep, A>,
    outcome: Outcome,
) -> Result<u32, CommitRefusal>
    ensures ok { IfOk result (λ position. Commits journal.old journal.new call number trace.items outcome position) }
    ensures stale { (result ≡ Err CommitRefusal.Stale) ↔ ¬ (IsLive journal.old call number) }
    ensures differs { result ≢ Err CommitRefusal.Differs }
    ensures err { OnErr result (journal.new ≡ journal.old) }
{
    journal.commit(call, number, trace, outcome)
}
