//! What of a profile follows from neighbours alone.

ghost use Rattle.std.specs.Prelude.{◌≡◌, ◌↔◌, List, ◌∷◌};
ghost use Rattle.std.specs.declared.cmp.Ordering.TheVariants.{Less};
ghost use Rattle.spec_ledger.specs.Cells.{lock_cmp};
ghost use Rattle.spec_ledger.specs.declared.Entry.{Entry};
ghost use Rattle.lock_profile.specs.Turns.{IsProfile};

/// Entries are a profile exactly where each lock is below the next one.
pub fn neighbours_decide()
    ensures { (one next : Entry) (more : List Entry) → IsProfile (one ∷ next ∷ more) ↔ ((lock_cmp one.lock next.lock ≡ Less) × IsProfile (next ∷ more)) }
{}
