//! Serial execution.

ghost use Rattle.std.specs.Prelude.{◌≡◌, IfOk, OnErr, ◌↔◌, IfSome, IfNone, IsSome, ◌<◌};
ghost use Rattle.std.specs.FinMap as finite;
ghost use Rattle.spec_execution.specs.Exec.{Executes};
ghost use Rattle.interp.specs.Callee.{setting_view};
ghost use Rattle.spec_ledger.specs.Book.{GetsReplies};

use call::Call;
use interp::finished::Finished;
use link::deployed::Deployed as Contract;
use serial::Executed;
use spec_ledger::{NoMemory, Version};
use std::alloc::Allocator;
use storage::Cells;

/// As [`serial::execute`].
pub fn execute<A: Allocator + Copy>(
    alloc: A,
    contracts: &[Contract<A>],
    call: &Call,
    cells: &mut Cells<A>,
    version: Version,
) -> Result<Executed<A>, NoMemory>
    requires { cells.old.unsettled ≡ finite.empty }
    ensures executed { IfOk result (λ e. Executes (setting_view version contracts.now) call.now cells.old.cells cells.new.cells e.receipt e.touched) }
    ensures settled { cells.new.unsettled ≡ finite.empty }
    ensures err { OnErr result (cells.new ≡ cells.old) }
{
    serial::execute(alloc, contracts, call, cells, version)
}

/// As [`serial::replay`].
pub fn replay<A: Allocator + Copy>(
    alloc: A,
    finished: &Finished<'_, A>,
    cells: &mut Cells<A>,
) -> Result<Option<Executed<A>>, NoMemory>
    requires { cells.old.unsettled ≡ finite.empty }
    ensures executed { IfOk result (λ o. IfSome o (λ e. Executes finished.now.setting finished.now.call cells.old.cells cells.new.cells e.receipt e.touched)) }
    ensures replies { IfOk result (λ o. IsSome o ↔ GetsReplies finished.now.trace cells.old.cells) }
    ensures other { IfOk result (λ o. IfNone o (cells.new ≡ cells.old)) }
    ensures settled { cells.new.unsettled ≡ finite.empty }
    ensures err { OnErr result (cells.new ≡ cells.old) }
{
    serial::replay(alloc, finished, cells)
}
