//! What follows from the definitions alone.

ghost use Rattle.std.specs.Prelude.{List};
ghost use Rattle.spec_ledger.specs.declared.Entry.{Entry};
ghost use Rattle.spec_ledger.specs.Modes.{Modes};
ghost use Rattle.lock_profile.specs.Turns.{AreTurns};
ghost use Rattle.spec_block.specs.Schedule.{HaveTurns};

/// The profiles of an order have the turns of their own modes.
pub fn turns_agree()
    ensures { (touched : List Modes) (profiles : List (List Entry)) → AreTurns touched profiles → HaveTurns profiles }
{}
