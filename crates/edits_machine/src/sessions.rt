//! Sessions of the debugger.

ghost use Rattle.debugger.specs.Commands.{GoesBack};

use debugger::session::{Refusal, Session};
use std::alloc::Allocator;

/// As [`debugger::session::Session::back`].
pub fn back<'a, A: Allocator + Copy>(
    session: &mut Session<'a, A>,
    count: u64,
) -> Result<u64, Refusal>
    ensures { GoesBack session.old count result session.new }
{
    session.back(count)
}
