// The order of a list: its calls as they stand, but for those that do not fit.
ghost use Rattle.std.specs.Prelude.{◌≡◌, ◌<◌, ◌≤◌, ◌^◌, IfOk, length};
ghost use Rattle.std.specs.FinMap as finite;
ghost use Rattle.spec_ledger.specs.Order.{IsAdmissible, first_fit};
ghost use Rattle.spec_execution.specs.Serial.{Serial};
ghost use Rattle.spec_ledger.specs.declared.Version.TheVariants.{Two};
ghost use Rattle.interp.specs.Callee.{setting_view};
ghost use Rattle.serial.specs.Positions.{results_of};
ghost use Rattle.serial.specs.OrderOutcomes.{fuel_of_receipts};
ghost use Rattle.publish.specs.Publication.{AreLeft, limits, fuel_of_results};

use crate::mined_core::MinedCore;
use call::Call;
use in_order::{InOrder, OrderProgress, Task, begin, complete, run_with};
use link::deployed::Deployed as Contract;
use pace::Pace;
use spec_ledger::laws::first_fit_is_admissible;
use spec_ledger::{NoMemory, Receipt, Version};
use std::alloc::Allocator;
use std::sync::Wait;
use std::thread::Threads;
use storage::Cells;

/// The numbers of the calls of a list, by whether they stand in its order.
#[derive(Drop)]
pub(crate) struct FirstFit<A: Allocator> {
    /// Those of the order, rising.
    pub(crate) order: Vec<u32, A>,
    /// The others, rising.
    pub(crate) left: Vec<u32, A>,
}

/// The order of a list of calls in a block of this fuel. Each call has its turn as it stands in the list, and joins where its limit is within the fuel that is left.
pub(crate) fn first_fit<A: Allocator + Copy>(
    alloc: A,
    calls: &[Call],
    fuel: u64,
) -> Result<FirstFit<A>, NoMemory>
    requires { length calls.now ≤ 65535 }
    ensures order { IfOk result (λ fit. fit.order.items ≡ first_fit (limits calls.now) fuel) }
    ensures left { IfOk result (λ fit. AreLeft fit.order.items (length calls.now) fit.left.items) }
{
    first_fit_is_admissible();
    let mut order = Vec::with_capacity(alloc, calls.len())?;
    let mut left = Vec::new(alloc);
    let mut remaining = fuel;
    for number in 0..calls.len() as u32 {
        let limit = calls[number as usize].fuel();
        if limit <= remaining {
            remaining -= limit;
            order.push(number)?;
        } else {
            left.push(number)?;
        }
    }
    Ok(FirstFit { order, left })
}

/// The fuel that calls with these receipts used together.
fn fuel_of(receipts: &[Receipt]) -> u64
    requires { fuel_of_receipts receipts.now < 2 ^ 64 }
    ensures { result ≡ fuel_of_receipts receipts.now }
{
    let mut fuel = 0u64;
    for receipt in receipts {
        fuel += receipt.used;
    }
    fuel
}

/// Mines the calls of a list in its order, by at most so many threads, of which the caller's is one.
pub(crate) fn mine_in_order<
    'a,
    R: Threads + Wait + Sync,
    A: Allocator + Copy + Send + Sync,
    P: Pace,
>(
    rt: &R,
    alloc: A,
    contracts: &'a [Contract<A>],
    cells: &Cells<A>,
    calls: &'a [Call],
    block_fuel: u64,
    workers: u32,
    pace: &P,
) -> Result<MinedCore<A>, NoMemory>
    requires calls { length calls.now ≤ 65535 }
    requires workers { 1 ≤ workers }
    ensures serial { IfOk result (λ core. Serial (setting_view Two contracts.now) calls.now core.order.items cells.now.cells (results_of core.receipts.items core.touched.items) core.cells.cells) }
    ensures admissible { IfOk result (λ core. IsAdmissible (limits calls.now) core.order.items block_fuel) }
    ensures order { IfOk result (λ core. core.order.items ≡ first_fit (limits calls.now) block_fuel) }
    ensures receipts { IfOk result (λ core. length core.receipts.items ≡ length core.order.items) }
    ensures touched { IfOk result (λ core. length core.touched.items ≡ length core.order.items) }
    ensures settled { IfOk result (λ core. core.cells.unsettled ≡ finite.empty) }
    ensures fuel { IfOk result (λ core. core.fuel ≡ fuel_of_results (results_of core.receipts.items core.touched.items)) }
    ensures left { IfOk result (λ core. AreLeft core.order.items (length calls.now) core.left.items) }
    ensures by_workers { IfOk result (λ core. core.by_workers ≤ length core.order.items) }
{
    let FirstFit { order, left } = first_fit(alloc, calls, block_fuel)?;
    first_fit_is_admissible();
    let OrderProgress {
        receipts,
        touched,
        cells: last,
        ahead,
    } = {
        let task = Task {
            contracts,
            calls,
            version: Version::Two,
        };
        let job = InOrder::new(alloc, task, &order, cells, pace);
        let ((), ran) = run_with(rt, &job, begin(&job)?, workers, || ());
        complete(&job, ran?)?
    };
    let fuel = fuel_of(&receipts);
    Ok(MinedCore {
        order,
        receipts,
        touched,
        cells: last,
        fuel,
        left,
        by_workers: ahead,
    })
}
