//! Linear memory.

ghost use Rattle.std.specs.Prelude.{◌≡◌, ◌+◌, ◌<◌, ◌≤◌, ◌^◌, IfOk};
ghost use Rattle.spec_modules.specs.Memory.{load};

use memory::Linear;
use std::alloc::Allocator;
use wtypes::TrapCode;

/// As [`memory::Linear::load`].
pub fn load<A: Allocator + Clone + Drop>(
    memory: &Linear<'_, A>,
    at: u32,
    offset: u32,
    width: u32,
) -> Result<u64, TrapCode>
    requires { width ≤ 8 }
    ensures value { result ≡ load memory.now.bytes (at + offset) width }
    ensures below { IfOk result (λ number. number < 256 ^ width) }
{
    memory.load(at, offset, width)
}
