// Numbers in LEB128 (Core Specification, 5.2.2 Integers): reading any spelling within its length, writing the shortest.
#![tactic(auto)]

ghost use Rattle.std.specs.Prelude.{◌≡◌, ℕ, ◌+◌, ◌-◌, ◌<◌, ◌≤◌, ◌^◌, List, ◌++◌, drop, take, slice_range, option_map, length, IfSome, IfNone, OnOk, OnErr, ◌*◌, ℤ, pos, neg_ℤ, ◌≤ℤ◌, ◌<ℤ◌};
ghost use Rattle.spec_modules.specs.Leb.{u32, s32, s64};
ghost use Rattle.spec_modules.specs.Shortest.{unsigned_bytes, signed_bytes, u32_bytes, s32_bytes, s64_bytes};
ghost use Rattle.leb.specs.Signs.{signed_part, low_bits};
ghost use Rattle.spec_modules.specs.Reading.{unsigned_at, signed_at};

use std::alloc::{AllocError, Allocator};

// The unsigned number of so many bits at the front, and the bytes after it.
#[tactic(auto, unfolding(spec_modules::specs::Reading::unsigned_at))]
fn unsigned_of(bytes: &[u8], bits: u32) -> Option<(u64, &[u8])>
    requires { bits ≤ 64 }
    ensures value { option_map (λ r. (r.0, r.1.now)) result ≡ unsigned_at bits bytes.now }
    ensures bound { IfSome result (λ r. r.0 < 2 ^ bits) }
    ensures shorter { IfSome result (λ r. length r.1.now < length bytes.now) }
{
    let (first, rest) = bytes.split_first()?;
    let b = u64::from(*first);
    if b < 128 {
        if bits >= 7 {
            return Some((b, rest));
        }
        if b >= 1u64 << bits {
            return None;
        }
        return Some((b, rest));
    }
    if bits <= 7 {
        return None;
    }
    let (high, rest) = unsigned_of(rest, bits - 7)?;
    Some((128 * high + (b - 128), rest))
}

// The signed number of so many bits at the front, and the bytes after it.
#[tactic(auto, unfolding(spec_modules::specs::Reading::signed_at))]
fn signed_of(bytes: &[u8], bits: u32) -> Option<(i64, &[u8])>
    requires { (1 ≤ bits) × (bits ≤ 64) }
    ensures value { option_map (λ r. (r.0, r.1.now)) result ≡ signed_at bits bytes.now }
    ensures bound { IfSome result
        (λ r. (neg_ℤ (pos (2 ^ (bits - 1))) ≤ℤ r.0) × (r.0 <ℤ pos (2 ^ (bits - 1)))) }
    ensures shorter { IfSome result (λ r. length r.1.now < length bytes.now) }
{
    let (first, rest) = bytes.split_first()?;
    let b = u64::from(*first);
    if b < 64 {
        if bits >= 7 {
            return Some((i64::from(*first), rest));
        }
        if b >= 1u64 << (bits - 1) {
            return None;
        }
        return Some((i64::from(*first), rest));
    }
    if b < 128 {
        if bits >= 7 {
            return Some((i64::from(*first) - 128, rest));
        }
        if b + (1u64 << (bits - 1)) < 128 {
            return None;
        }
        return Some((i64::from(*first) - 128, rest));
    }
    if bits <= 7 {
        return None;
    }
    let (high, rest) = signed_of(rest, bits - 7)?;
    Some((128 * high + (i64::from(*first) - 128), rest))
}

/// The number of 32 bits that is spelled at this place, and the place after it. None where no number is spelled there.
pub fn read_u32(bytes: &[u8], at: usize) -> Option<(u32, usize)>
    ensures found { IfSome result (λ r. (at < r.1) × (r.1 ≤ length bytes.now)
        × u32 r.0 (slice_range bytes.now at r.1)) }
    ensures none { IfNone result ((n : ℕ) (a rest : List ℕ) → u32 n a
        → drop at bytes.now ≡ a ++ rest → ⊥) }
{
    if at > bytes.len() {
        return None;
    }
    match unsigned_of(&bytes[at..], 32) {
        Some((n, rest)) => Some((n as u32, bytes.len() - rest.len())),
        None => None,
    }
}

/// The signed number of 32 bits that is spelled at this place, and the place after it. None where no number is spelled
/// there.
pub fn read_s32(bytes: &[u8], at: usize) -> Option<(i32, usize)>
    ensures found { IfSome result (λ r. (at < r.1) × (r.1 ≤ length bytes.now)
        × s32 r.0 (slice_range bytes.now at r.1)) }
    ensures none { IfNone result ((z : ℤ) (a rest : List ℕ) → s32 z a
        → drop at bytes.now ≡ a ++ rest → ⊥) }
{
    if at > bytes.len() {
        return None;
    }
    match signed_of(&bytes[at..], 32) {
        Some((z, rest)) => Some((z as i32, bytes.len() - rest.len())),
        None => None,
    }
}

/// The signed number of 64 bits that is spelled at this place, and the place after it. None where no number is spelled
/// there.
pub fn read_s64(bytes: &[u8], at: usize) -> Option<(i64, usize)>
    ensures found { IfSome result (λ r. (at < r.1) × (r.1 ≤ length bytes.now)
        × s64 r.0 (slice_range bytes.now at r.1)) }
    ensures none { IfNone result ((z : ℤ) (a rest : List ℕ) → s64 z a
        → drop at bytes.now ≡ a ++ rest → ⊥) }
{
    if at > bytes.len() {
        return None;
    }
    match signed_of(&bytes[at..], 64) {
        Some((z, rest)) => Some((z, bytes.len() - rest.len())),
        None => None,
    }
}

// The bytes of an unsigned number that takes at most `more` bytes and one.
fn put_unsigned<A: Allocator>(out: &mut Vec<u8, A>, n: u32, more: u32) -> Result<(), AllocError>
    requires { n < 2 ^ (7 * more + 7) }
    ensures bytes { OnOk result (out.new.items ≡ out.old.items ++ unsigned_bytes more n) }
    ensures front { take (length out.old.items) out.new.items ≡ out.old.items }
{
    if n < 128 {
        out.push(n as u8)?;
        return Ok(());
    }
    out.push((n % 128) as u8 + 128)?;
    put_unsigned(out, n / 128, more - 1)
}

// The lowest seven bits of the signed number `n`, or of `-n - 1`.
fn low_group(n: u64, is_negative: bool) -> u8
    ensures { result ≡ low_bits is_negative n }
{
    let low = (n % 128) as u8;
    if is_negative { 127 - low } else { low }
}

// The bytes of the signed number `n`, or of `-n - 1`, that takes at most `more` bytes and one.
fn put_signed<A: Allocator>(
    out: &mut Vec<u8, A>,
    n: u64,
    is_negative: bool,
    more: u32,
) -> Result<(), AllocError>
    requires { n < 2 ^ (7 * more + 6) }
    ensures bytes { OnOk result
        (out.new.items ≡ out.old.items ++ signed_bytes more (signed_part is_negative n)) }
    ensures front { take (length out.old.items) out.new.items ≡ out.old.items }
{
    let group = low_group(n, is_negative);
    if n < 64 {
        out.push(group)?;
        return Ok(());
    }
    out.push(group + 128)?;
    put_signed(out, n / 128, is_negative, more - 1)
}

// The number `n` and whether it is negative: the number is `n`, or `-n - 1`.
fn parts_of(z: i64) -> (u64, bool)
    ensures value { signed_part result.1 result.0 ≡ z }
    ensures wide { result.0 < 2 ^ 63 }
    ensures narrow { neg_ℤ (pos (2 ^ 31)) ≤ℤ z → z <ℤ pos (2 ^ 31) → result.0 < 2 ^ 31 }
{
    if z < 0 {
        return (-(z + 1) as u64, true);
    }
    (z as u64, false)
}

/// Appends the shortest spelling, or nothing where memory is refused.
pub fn write_u32<A: Allocator>(out: &mut Vec<u8, A>, n: u32) -> Result<(), AllocError>
    ensures bytes { OnOk result (out.new.items ≡ out.old.items ++ u32_bytes n) }
    ensures spelled { u32 n (u32_bytes n) }
    ensures refused { OnErr result (out.new.items ≡ out.old.items) }
{
    let len = out.len();
    if let Err(refusal) = put_unsigned(out, n, 4) {
        out.truncate(len);
        return Err(refusal);
    }
    Ok(())
}

/// Appends the shortest spelling, or nothing where memory is refused.
pub fn write_s32<A: Allocator>(out: &mut Vec<u8, A>, z: i32) -> Result<(), AllocError>
    ensures bytes { OnOk result (out.new.items ≡ out.old.items ++ s32_bytes z) }
    ensures spelled { s32 z (s32_bytes z) }
    ensures refused { OnErr result (out.new.items ≡ out.old.items) }
{
    let len = out.len();
    let (n, is_negative) = parts_of(i64::from(z));
    if let Err(refusal) = put_signed(out, n, is_negative, 4) {
        out.truncate(len);
        return Err(refusal);
    }
    Ok(())
}

/// Appends the shortest spelling, or nothing where memory is refused.
pub fn write_s64<A: Allocator>(out: &mut Vec<u8, A>, z: i64) -> Result<(), AllocError>
    ensures bytes { OnOk result (out.new.items ≡ out.old.items ++ s64_bytes z) }
    ensures spelled { s64 z (s64_bytes z) }
    ensures refused { OnErr result (out.new.items ≡ out.old.items) }
{
    let len = out.len();
    let (n, is_negative) = parts_of(z);
    if let Err(refusal) = put_signed(out, n, is_negative, 9) {
        out.truncate(len);
        return Err(refusal);
    }
    Ok(())
}
