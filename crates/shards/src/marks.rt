// The marks of an attempt's levels.
ghost use Rattle.std.specs.Prelude.{◌≡◌, ◌++◌, ◌∷◌, [], true, false, IsTrue, OnOk, OnErr, ◌↔◌};
ghost use Rattle.spec_ledger.specs.Modes.{ops_of};
ghost use Rattle.spec_ledger.specs.declared.TraceStep.TheVariants as TheStep;
ghost use Rattle.shards.specs.Marks.{IsOutside, closing};

use spec_ledger::TraceStep;
use std::alloc::{Allocator, Global};
use std::marker::Model;
use storage::NoMemory;

/// The marks of the levels that an attempt has entered and left, in order, with room for those that close what is open.
#[derive(Debug, Drop)]
pub struct Marks<A: Allocator = Global> {
    steps: Vec<TraceStep, A>,
    // (how many levels are entered and not left)
    entered: usize,
}

impl<A: Allocator> Model for Marks<A> {
    ghost use Rattle.std.specs.Prelude.{List};
    ghost use Rattle.spec_ledger.specs.declared.TraceStep.{TraceStep as TheStep};
    ghost use Rattle.shards.specs.Marks.{AreLevels, marks_code};

    ghost Value = { List TheStep };

    ghost coded = { marks_code };

    ghost view = { λ m. m.steps.items };

    ghost invariant = { λ m. AreLevels m.steps m.entered };
}

/// The mark that closes a level whose changes stand, or are taken back.
fn closing_mark(keep: bool) -> TraceStep
    ensures { result ≡ closing keep }
{
    if keep {
        TraceStep::Kept
    } else {
        TraceStep::Dropped
    }
}

impl<A: Allocator + Copy> Marks<A> {
    /// No marks.
    pub(crate) fn new(alloc: A) -> Self
        ensures { result ≡ [] }
    {
        Marks {
            steps: Vec::new(alloc),
            entered: 0,
        }
    }

    /// The marks, in order.
    pub(crate) fn steps(&self) -> &[TraceStep]
        ensures steps { result.now ≡ self.now }
        ensures are_marks { ops_of result.now ≡ [] }
    {
        &self.steps
    }

    /// Whether no level is entered that is not left.
    pub(crate) fn is_outside(&self) -> bool
        ensures { IsTrue result ↔ IsOutside self.now }
    {
        self.entered == 0
    }

    /// Notes that a level is entered, and makes the room for the mark that closes it. Where memory is refused, all is as it was.
    pub(crate) fn enter(&mut self) -> Result<(), NoMemory>
        ensures ok { OnOk result (self.new ≡ self.old ++ TheStep.Opened ∷ []) }
        ensures err { OnErr result (self.new ≡ self.old) }
    {
        self.steps.reserve(2 + self.entered).map_err(|_| NoMemory)?;
        match self.steps.push(TraceStep::Opened) {
            Ok(()) => (),
            Err(_) => unreachable!(),
        }
        self.entered += 1;
        Ok(())
    }

    /// Notes that the innermost level is left, for which it takes no memory: its changes stand, or are taken back.
    pub(crate) fn leave(&mut self, keep: bool)
        requires { ¬ (IsOutside self.old) }
        ensures { self.new ≡ self.old ++ closing keep ∷ [] }
    {
        let mark = closing_mark(keep);
        match self.steps.push(mark) {
            Ok(()) => (),
            Err(_) => unreachable!(),
        }
        self.entered -= 1;
    }
}
