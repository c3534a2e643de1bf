// The entries of a closed book, published by the runs of their calls.
ghost use Rattle.std.specs.Prelude.{◌≡◌, ◌<◌, ◌^◌, ◌↔◌, [], IsTrue, IfOk, IfSome, IsSome, length, map};
ghost use Rattle.std.specs.FinMap as finite;
ghost use Rattle.spec_ledger.specs.Book.{IsDefined, settled};
ghost use Rattle.spec_ledger.specs.declared.Version.TheVariants.{Two};
ghost use Rattle.interp.specs.Callee.{setting_view};
ghost use Rattle.serial.specs.Positions.{results_of};
ghost use Rattle.publish.specs.Publication.{IsKept, limits};
ghost use Rattle.publish.specs.Adoption.{AreMade, IsRunOf, MayFollowBy, ran_by};

use crate::so_far::SoFar;
use boost::attempt::CommittedCall;
use call::Call;
use interp::finished::Finished;
use link::deployed::Deployed as Contract;
use lock_profile::Touched;
use spec_ledger::{NoMemory, Outcome};
use std::alloc::{Allocator, Global};
use storage::Cells;

/// A run of a call that was made elsewhere.
#[derive(Drop)]
pub struct CallRun<'a, A: Allocator = Global> {
    /// The number of the call.
    pub call: u32,
    /// The run.
    pub finished: Finished<'a, A>,
}

fn same_outcome(a: Outcome, b: Outcome) -> bool
    ensures { IsTrue result ↔ (a ≡ b) }
{
    a == b
}

/// Whether a run is one of an entry's call, with the entry's trace and outcome.
fn is_run_of<A: Allocator + Copy>(entry: &CommittedCall<A>, run: &CallRun<'_, A>) -> bool
    ensures { IsTrue result ↔ IsRunOf entry.now run.now }
{
    entry.call() == run.call
        && same_outcome(run.finished.outcome(), entry.outcome())
        && entry.has_trace(run.finished.trace())
}

/// What is published by the entries of a closed book, one after another, each by the run at its place, whose locks are at the
/// same place. None where a place has no run of the entry, or a call has no room.
pub(crate) fn adopt_entries<'a, A: Allocator + Copy>(
    alloc: A,
    _contracts: &'a [Contract<A>],
    calls: &'a [Call],
    _cells: &Cells<A>,
    fuel: u64,
    entries: &[CommittedCall<A>],
    runs: &[CallRun<'a, A>],
    touched: Vec<Touched<A>, A>,
) -> Result<Option<SoFar<A>>, NoMemory>
    requires calls { length calls.now < 2 ^ 32 }
    requires replies { IsDefined _cells.now.cells entries.now }
    requires runs { AreMade (setting_view Two _contracts.now) calls.now runs.now touched.items }
    ensures answer { IfOk result (λ o. IsSome o ↔ MayFollowBy (limits calls.now) fuel [] entries.now runs.now) }
    ensures kept { IfOk result (λ o. IfSome o (λ s. IsKept (record { setting = setting_view Two _contracts.now; calls = calls.now; opening = _cells.now.cells; fuel = fuel; order = s.order.items; ran = results_of s.receipts.items s.touched.items; cells = settled _cells.now.cells entries.now }) s.receipts.items s.touched.items s.marks.items s.remaining s.used finite.empty)) }
    ensures order { IfOk result (λ o. IfSome o (λ s. s.order.items ≡ map (λ e. e.call) entries.now)) }
    ensures ran { IfOk result (λ o. IfSome o (λ s. results_of s.receipts.items s.touched.items ≡ ran_by runs.now touched.items)) }
{
    if entries.len() != runs.len() {
        return Ok(None);
    }
    let mut so_far = SoFar::open(alloc, calls.len(), fuel)?;
    for place in 0..runs.len() {
        let entry = &entries[place];
        let run = &runs[place];
        if !is_run_of(entry, run) {
            return Ok(None);
        }
        let limit = run.finished.call().fuel();
        if !so_far.has_room(run.call, limit) {
            return Ok(None);
        }
        run.finished.is_played();
        so_far.reserve_next()?;
        let receipt = run.finished.receipt();
        so_far.note(run.call, limit, receipt);
    }
    so_far.touched = touched;
    Ok(Some(so_far))
}
