//! Numbers in LEB128.

ghost use Rattle.std.specs.Prelude.{◌≡◌, ℕ, ◌<◌, ◌≤◌, List, ◌++◌, drop, slice_range, length, IfSome, IfNone, ℤ};
ghost use Rattle.spec_modules.specs.Leb.{s32};

/// As [`leb::read_s32`].
pub fn read_s32(bytes: &[u8], at: usize) -> Option<(i32, usize)>
    ensures found { IfSome result (λ r. (at < r.1) × (r.1 ≤ length bytes.now)
        × s32 r.0 (slice_range bytes.now at r.1)) }
    ensures none { IfNone result ((z : ℤ) (a rest : List ℕ) → s32 z a
        → drop at bytes.now ≡ a ++ rest → ⊥) }
{
    leb::read_s32(bytes, at)
}
