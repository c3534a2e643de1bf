//! Abstract locks.

ghost use Rattle.std.specs.Prelude.{◌≡◌};
ghost use Rattle.spec_ledger.specs.Modes.{goes_with};

use spec_ledger::Mode;

/// As [`spec_ledger::goes_with`].
pub fn goes_with(a: Mode, b: Mode) -> bool
    ensures { result ≡ goes_with a b }
{
    spec_ledger::goes_with(a, b)
}
