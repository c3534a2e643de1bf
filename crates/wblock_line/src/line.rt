//! The lines that are said, and when the next may be said.

ghost use Rattle.std.specs.Prelude.{◌≡◌, ◌<◌, ◌↔◌, ◌+◌, ◌-◌, ◌/◌, ◌^◌, IfOk, IsTrue, min, string_bytes};
ghost use Rattle.std.specs.Duration.{as_nanos};
ghost use Rattle.wblock_line.specs.Lines.{begun_line, earlier_line};

use std::alloc::{AllocError, Global};
use std::time::Duration;

/// What takes the line away: the cursor goes to its beginning, and what stands there is cleared.
pub const WIPE: &[u8] = b"\r\x1b[K";

/// The milliseconds from a line to the next at least.
const PAUSE: u64 = 250;

/// The fuel above which it is said that calls run ahead of one that is debugged.
const MUCH: u64 = 1_000_000_000;

/// The whole milliseconds of a time, or as many as there can be.
pub(crate) fn millis_of(time: Duration) -> u64
    ensures { result ≡ min (as_nanos time / 1000000) (2 ^ 64 - 1) }
{
    time.as_millis().min(u128::from(u64::MAX)) as u64
}

/// The millisecond from which on the next line may be said behind one of this millisecond.
pub(crate) fn due_after(millis: u64) -> u64
    ensures { result ≡ min (millis + 250) (2 ^ 64 - 1) }
{
    millis.saturating_add(PAUSE)
}

/// The line that says how many calls have begun. It takes the place of the one before.
pub(crate) fn begun_text(alloc: Global, begun: u64) -> Result<String, AllocError>
    ensures { IfOk result (λ text. string_bytes text ≡ begun_line begun) }
{
    format!(in alloc; "\r\x1b[Kcalls begun: {begun}")
}

/// Whether calls that may use so much fuel keep a reader waiting who is told nothing.
pub(crate) fn is_much(fuel: u64) -> bool
    ensures { IsTrue result ↔ (1000000000 < fuel) }
{
    fuel > MUCH
}

/// The line that says that calls run ahead of one that is debugged, and how much fuel they may use.
pub(crate) fn earlier_text(alloc: Global, fuel: u64) -> Result<String, AllocError>
    ensures { IfOk result (λ text. string_bytes text ≡ earlier_line fuel) }
{
    format!(in alloc; "\r\x1b[Kearlier calls run with up to {fuel} of fuel; --fuel N bounds it")
}
