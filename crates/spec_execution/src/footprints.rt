//! The read-write set of a call: what it did with the cell at each lock that it asked for, in place of its whole run (Dickerson, Gazzillo, Herlihy, Koskinen,
//! "Adding Concurrency to Smart Contracts", PODC 2017, section 3: what a call does depends on the cells whose locks it holds, and on no others).

ghost use Rattle.std.specs.Prelude.{◌≡◌, All, IfSome, map};
ghost use Rattle.std.specs.FinMap.{entries, get};
ghost use Rattle.spec_ledger.specs.declared.Lock.{Lock};
ghost use Rattle.spec_ledger.specs.declared.Mode.TheVariants.{Read as Reading};
ghost use Rattle.spec_ledger.specs.declared.Receipt.{Receipt};
ghost use Rattle.spec_ledger.specs.Cells.{AreCells, Cells};
ghost use Rattle.spec_ledger.specs.Modes.{Modes};
ghost use Rattle.spec_execution.specs.Configuration.{Setting};
ghost use Rattle.spec_execution.specs.Run.{ContractCall};
ghost use Rattle.spec_execution.specs.Exec.{Executes};
ghost use Rattle.spec_execution.specs.ReadWriteSets.{Agrees, IsReadWriteSet, access_at, all_left};

use spec_ledger::{CellKey, Lock};

/// What a call did with the cell at one lock that it asked for.
#[derive(Clone, Copy, Debug, PartialEq, Eq)]
pub enum Access {
    /// It only read the cell at this lock, which held this.
    Read(Lock, Option<u64>),
    /// It only added to the counter at this place, this much in all, modulo 2^64, and never read it.
    Added(CellKey, u64),
    /// The cell at this lock held the first before the call, and holds the second after it.
    Replaced(Lock, Option<u64>, Option<u64>),
}

/// An execution over some cells has a read_write_set: over any other cells that agree with what it found, the call is executed with the same receipt and
/// locks, and leaves what the read-write set says. A cell whose lock the call did not ask for, or only to read it, is left as it was.
pub fn an_execution_has_a_read_write_set()
    ensures read_write_set { (setting : Setting) (call : ContractCall) (before later : Cells) (receipt : Receipt) (locks : Modes) → AreCells before → Executes setting call before later receipt locks → IsReadWriteSet setting call (map (access_at before later) (entries locks)) receipt locks }
    ensures found { (before later : Cells) (locks : Modes) → All (Agrees before) (map (access_at before later) (entries locks)) }
    ensures left { (setting : Setting) (call : ContractCall) (before later : Cells) (receipt : Receipt) (locks : Modes) → AreCells before → Executes setting call before later receipt locks → all_left (map (access_at before later) (entries locks)) before ≡ later }
    ensures kept { (before later cells : Cells) (locks : Modes) (lock : Lock) → IfSome (get locks lock) (λ mode. mode ≡ Reading) → get (all_left (map (access_at before later) (entries locks)) cells) lock ≡ get cells lock }
{}
