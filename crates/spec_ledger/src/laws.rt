// What follows from the definitions of storage and of the book. Each law is the contract of a function with nothing to do.
ghost use Rattle.std.specs.Prelude.{◌≡◌, ℕ, ◌+◌, ◌-◌, ◌<◌, ◌≤◌, ◌↔◌, Bool, Contains, List, [], ◌∷◌, ◌++◌, if◌then◌else◌, length, nat_le, slice_index, take};
ghost use Rattle.std.specs.List.Sorted.{IsStrictlyIncreasing};
ghost use Rattle.std.specs.FinMap.{empty};
ghost use Rattle.spec_ledger.specs.declared.Inverse.{Inverse};
ghost use Rattle.spec_ledger.specs.declared.Op.{Op};
ghost use Rattle.spec_ledger.specs.declared.Outcome.{Outcome};
ghost use Rattle.spec_ledger.specs.declared.Reply.{Reply};
ghost use Rattle.spec_ledger.specs.declared.TraceStep.{TraceStep};
ghost use Rattle.spec_ledger.specs.Book.{Content, IsKept, after, back_all, inverses_of, ops_after, standing};
ghost use Rattle.spec_ledger.specs.Cells.{AreCells, Cells, back, cells_after, inverse_to, reply_to};
ghost use Rattle.spec_ledger.specs.Events.{BeginDone, CommitDone, EnterDone, LeaveDone, OpDone, UndoDone};
ghost use Rattle.spec_ledger.specs.Facts.{CellsAreSettledButForHolders, EntriesAreSerialRun, LiveAttemptsGoTogether, LiveTracesGetReplies};
ghost use Rattle.spec_ledger.specs.Modes.{GoTogether};
ghost use Rattle.spec_ledger.specs.Order.{IsAdmissible, first_fit, limits_of};

/// Taking back the inverse of an operation undoes it, and taking back those of a trace, last first, undoes the trace (PODC 2017, section 3: inverses).
pub fn taking_back_undoes()
    ensures operation { (op : Op) (cells : Cells) → AreCells cells → back (inverse_to op cells) (cells_after op cells) ≡ cells }
    ensures trace { (trace : List TraceStep) (cells : Cells) → AreCells cells → back_all (inverses_of (standing trace) cells) (after trace cells) ≡ cells }
{}

/// Two operations that go together commute: in either order they leave the same cells, and neither sees the other in its reply or its inverse (PODC 2017, section 3: abstract locks).
pub fn operations_that_go_together_commute()
    ensures cells { (first second : Op) (cells : Cells) → GoTogether first second → cells_after first (cells_after second cells) ≡ cells_after second (cells_after first cells) }
    ensures reply { (first second : Op) (cells : Cells) → GoTogether first second → reply_to first (cells_after second cells) ≡ reply_to first cells }
    ensures inverse { (first second : Op) (cells : Cells) → GoTogether first second → inverse_to first (cells_after second cells) ≡ inverse_to first cells }
{}

/// No operation, and nothing taken back, leaves a counter at 0 or past 64 bits.
pub fn cells_stay_cells()
    ensures none { AreCells empty }
    ensures done { (op : Op) (cells : Cells) → AreCells cells → AreCells (cells_after op cells) }
    ensures back { (inverse : Inverse) (cells : Cells) → AreCells cells → AreCells (back inverse cells) }
{}

/// Each event keeps what the type of a book keeps.
pub fn events_keep_a_book()
    ensures begun { (old new : Content) (call number : ℕ) → IsKept old → BeginDone old new call number → IsKept new }
    ensures operated { (old new : Content) (call number : ℕ) (op : Op) (reply : Reply) → IsKept old → OpDone old new call number op reply → IsKept new }
    ensures undone { (old new : Content) (call number : ℕ) → IsKept old → UndoDone old new call number → IsKept new }
    ensures entered { (old new : Content) (call number : ℕ) → IsKept old → EnterDone old new call number → IsKept new }
    ensures left { (old new : Content) (call number : ℕ) (keep : Bool) → IsKept old → LeaveDone old new call number keep → IsKept new }
    ensures committed { (old new : Content) (call number : ℕ) (trace : List TraceStep) (outcome : Outcome) (position : ℕ) → IsKept old → CommitDone old new call number trace outcome position → IsKept new }
{}

/// From what the type of a book keeps, the four facts of a book follow.
pub fn a_kept_book_has_its_facts()
    ensures entries { (b : Content) → IsKept b → EntriesAreSerialRun b }
    ensures cells { (b : Content) → IsKept b → CellsAreSettledButForHolders b }
    ensures replies { (b : Content) → IsKept b → LiveTracesGetReplies b }
    ensures modes { (b : Content) → IsKept b → LiveAttemptsGoTogether b }
{}

/// What a trace leaves are the cells after the operations that stand: what was dropped leaves nothing.
pub fn what_stands_is_left()
    ensures { (trace : List TraceStep) (cells : Cells) → after trace cells ≡ ops_after (standing trace) cells }
{}

/// The list's order is admissible, and its numbers rise. A call stands in it exactly where its limit is within the fuel that the calls before it in the list leave.
/// With one call more in the list, that call stands last, or the order is the same.
pub fn first_fit_is_admissible()
    ensures admissible { (limits : List ℕ) (fuel : ℕ) → IsAdmissible limits (first_fit limits fuel) fuel }
    ensures rising { (limits : List ℕ) (fuel : ℕ) → IsStrictlyIncreasing (first_fit limits fuel) }
    ensures joins { (limits : List ℕ) (fuel call : ℕ) → call < length limits → Contains (first_fit limits fuel) call ↔ (slice_index limits call ≤ fuel - limits_of limits (first_fit (take call limits) fuel)) }
    ensures grows { (limits : List ℕ) (fuel call : ℕ) → call < length limits → first_fit (take (call + 1) limits) fuel ≡ (if nat_le (slice_index limits call) (fuel - limits_of limits (first_fit (take call limits) fuel)) then first_fit (take call limits) fuel ++ call ∷ [] else first_fit (take call limits) fuel) }
{}
