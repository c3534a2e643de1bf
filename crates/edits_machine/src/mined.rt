//! Mining, and the attempts of a worker.

ghost use Rattle.std.specs.Prelude.{◌≡◌, ◌≤◌, false, IfOk, length};
ghost use Rattle.std.specs.FinMap as finite;
ghost use Rattle.spec_ledger.specs.declared.Version.TheVariants.{Two};
ghost use Rattle.spec_ledger.specs.Order.{IsAdmissible, first_fit};
ghost use Rattle.spec_execution.specs.Serial.{Serial};
ghost use Rattle.interp.specs.Callee.{setting_view};
ghost use Rattle.serial.specs.Positions.{results_of};
ghost use Rattle.publish.specs.Publication.{AreLeft, limits, fuel_of_results};

use call::Call;
use link::deployed::Deployed as Contract;
use miner::MinedCore;
use pace::Pace;
use std::alloc::Allocator;
use std::sync::Wait;
use std::thread::Threads;
use storage::Cells;
use wtypes::NoMemory;

/// As [`miner::mine_core`].
pub fn mine_core<'a, R: Threads + Wait + Sync, A: Allocator + Copy + Send + Sync, P: Pace>(
    rt: &R,
    alloc: A,
    contracts: &'a [Contract<A>],
    cells: &Cells<A>,
    calls: &'a [Call],
    block_fuel: u64,
    workers: u32,
    tries: u32,
    pace: &P,
    shards: u32,
) -> Result<MinedCore<A>, NoMemory>
    requires calls { length calls.now ≤ 65535 }
    requires workers { (1 ≤ workers) × (workers ≤ 64) }
    requires tries { (1 ≤ tries) × (tries ≤ 16) }
    requires shards { (1 ≤ shards) × (shards ≤ 16) }
    ensures serial { IfOk result (λ core. Serial (setting_view Two contracts.now) calls.now core.order.items cells.now.cells (results_of core.receipts.items core.touched.items) core.cells.cells) }
    ensures admissible { IfOk result (λ core. IsAdmissible (limits calls.now) core.order.items block_fuel) }
    ensures order { IfOk result (λ core. P.watching pace.now ≡ false → core.order.items ≡ first_fit (limits calls.now) block_fuel) }
    ensures receipts { IfOk result (λ core. length core.receipts.items ≡ length core.order.items) }
    ensures touched { IfOk result (λ core. length core.touched.items ≡ length core.order.items) }
    ensures settled { IfOk result (λ core. core.cells.unsettled ≡ finite.empty) }
    ensures fuel { IfOk result (λ core. core.fuel ≡ fuel_of_results (results_of core.receipts.items core.touched.items)) }
    ensures left { IfOk result (λ core. AreLeft core.order.items (length calls.now) core.left.items) }
    ensures by_workers { IfOk result (λ core. core.by_workers ≤ length core.order.items) }
{
    let core = miner::mine_core(
        rt, alloc, contracts, cells, calls, block_fuel, workers, tries, pace, shards,
    )?;
    Ok(core)
}
