//! Sinks.

ghost use Rattle.byte_sinks.specs.Putting.{CountsIf};

use byte_sinks::Failures;

/// As [`byte_sinks::Failures::fails`].
pub fn fails(failures: &mut Failures) -> bool
    ensures { CountsIf result failures.old failures.new }
{
    failures.fails()
}
