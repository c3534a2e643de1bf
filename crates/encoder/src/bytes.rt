// Bytes, numbers and vectors at the end of a buffer. Where memory is refused, what was there before still stands in front.
ghost use Rattle.std.specs.Prelude.{◌≡◌, ◌≤◌, ◌++◌, [], ◌∷◌, List, ℕ, length, take, drop, OnOk, OnErr};
ghost use Rattle.spec_modules.specs.Shortest.{u32_bytes, s32_bytes, s64_bytes, run_bytes, vector_bytes, sized_bytes, byte_bytes};

use leb::{write_s32, write_s64, write_u32};
use std::alloc::{AllocError, Allocator};

pub(crate) fn put_byte<B: Allocator>(out: &mut Vec<u8, B>, byte: u8) -> Result<(), AllocError>
    ensures bytes { OnOk result (out.new.items ≡ out.old.items ++ byte ∷ []) }
    ensures front { take (length out.old.items) out.new.items ≡ out.old.items }
{
    out.push(byte)?;
    Ok(())
}

pub(crate) fn put_u32<B: Allocator>(out: &mut Vec<u8, B>, n: u32) -> Result<(), AllocError>
    ensures bytes { OnOk result (out.new.items ≡ out.old.items ++ u32_bytes n) }
    ensures front { take (length out.old.items) out.new.items ≡ out.old.items }
{
    write_u32(out, n)?;
    Ok(())
}

pub(crate) fn put_s32<B: Allocator>(out: &mut Vec<u8, B>, z: i32) -> Result<(), AllocError>
    ensures bytes { OnOk result (out.new.items ≡ out.old.items ++ s32_bytes z) }
    ensures front { take (length out.old.items) out.new.items ≡ out.old.items }
{
    write_s32(out, z)?;
    Ok(())
}

pub(crate) fn put_s64<B: Allocator>(out: &mut Vec<u8, B>, z: i64) -> Result<(), AllocError>
    ensures bytes { OnOk result (out.new.items ≡ out.old.items ++ s64_bytes z) }
    ensures front { take (length out.old.items) out.new.items ≡ out.old.items }
{
    write_s64(out, z)?;
    Ok(())
}

// A count of 32 bits. No vector of a module is longer than that, since its shortest spelling is not.
pub(crate) fn put_count<B: Allocator>(out: &mut Vec<u8, B>, count: usize) -> Result<(), AllocError>
    ensures bytes { OnOk result (out.new.items ≡ out.old.items ++ u32_bytes count) }
    ensures front { take (length out.old.items) out.new.items ≡ out.old.items }
{
    if count > u32::MAX as usize {
        return Err(AllocError);
    }
    put_u32(out, count as u32)
}

// A vector of bytes.
pub(crate) fn put_text<B: Allocator>(out: &mut Vec<u8, B>, text: &[u8]) -> Result<(), AllocError>
    ensures bytes { OnOk result (out.new.items ≡ out.old.items ++ vector_bytes byte_bytes text.now) }
    ensures front { take (length out.old.items) out.new.items ≡ out.old.items }
{
    put_count(out, text.len())?;
    out.extend_from_slice(text)?;
    Ok(())
}

// The size of what stands from `start` on, in front of it.
pub(crate) fn put_size<B: Allocator>(out: &mut Vec<u8, B>, start: usize) -> Result<(), AllocError>
    requires { start ≤ length out.old.items }
    ensures bytes { OnOk result (out.new.items ≡ take start out.old.items ++ sized_bytes (drop start out.old.items)) }
    ensures front { take start out.new.items ≡ take start out.old.items }
{
    let size = out.len() - start;
    put_count(out, size)?;
    out[start..].rotate_left(size);
    Ok(())
}

// An item of a vector, in the form of one of the vectors that it stands in.
pub(crate) trait Spelled<Form> {
    ghost spelling: { Self → List ℕ };

    fn put<B: Allocator>(&self, out: &mut Vec<u8, B>) -> Result<(), AllocError>
        ensures bytes { OnOk result (out.new.items ≡ out.old.items ++ spelling self.now) }
        ensures front { take (length out.old.items) out.new.items ≡ out.old.items };
}

// The form of an item that has but one.
pub(crate) struct Plainly;

// One after another.
fn put_all<Form, T: Spelled<Form>, A: Allocator, B: Allocator>(
    out: &mut Vec<u8, B>,
    items: &Vec<T, A>,
) -> Result<(), AllocError>
    ensures bytes { OnOk result (out.new.items ≡ out.old.items ++ run_bytes T.spelling items.now.items) }
    ensures front { take (length out.old.items) out.new.items ≡ out.old.items }
{
    for item in items {
        item.put(out)?;
    }
    Ok(())
}

pub(crate) fn put_vector<Form, T: Spelled<Form>, A: Allocator, B: Allocator>(
    out: &mut Vec<u8, B>,
    items: &Vec<T, A>,
) -> Result<(), AllocError>
    ensures bytes { OnOk result (out.new.items ≡ out.old.items ++ vector_bytes T.spelling items.now.items) }
    ensures front { take (length out.old.items) out.new.items ≡ out.old.items }
{
    put_count(out, items.len())?;
    put_all(out, items)
}

impl Spelled<Plainly> for u32 {
    ghost spelling = { u32_bytes };

    fn put<B: Allocator>(&self, out: &mut Vec<u8, B>) -> Result<(), AllocError> {
        put_u32(out, *self)
    }
}
