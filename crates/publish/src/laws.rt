// What follows from the definitions of what is published.
ghost use Rattle.std.specs.Prelude.{◌≡◌, ℕ, List, [], length};
ghost use Rattle.spec_ledger.specs.Order.{first_fit};
ghost use Rattle.publish.specs.Publication.{Sweep};

/// A sweep from the empty order on, over all calls, leads to the list's order, and to no other.
pub fn one_sweep()
    ensures one { (limits : List ℕ) (fuel : ℕ) (order : List ℕ) → Sweep limits fuel [] (length limits) order → order ≡ first_fit limits fuel }
    ensures there_is { (limits : List ℕ) (fuel : ℕ) → Sweep limits fuel [] (length limits) (first_fit limits fuel) }
{
    spec_ledger::laws::first_fit_is_admissible();
}
