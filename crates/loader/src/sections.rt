// Sections.
ghost use Rattle.std.specs.Prelude.{◌≡◌, ℕ, ◌<◌, ◌≤◌, ◌^◌, [], map, true, length, IfOk};
ghost use Rattle.std.specs.List.{list_all};
ghost use Rattle.expr_reader.specs.Outcome.{Gives};
ghost use Rattle.laws_modules.specs.ReadingModules.{inside_at, whole_at, skip, slot_at, list_at};

use crate::values::{sized_of, text_of};
use crate::vectors::{Reader, VectorOf};
use expr_reader::DecodeFault;
use std::alloc::Allocator;

// What all of the bytes are read as.
fn whole_of<A: Allocator + Clone, R: Reader<A>>(
    alloc: &A,
    reader: &R,
    bytes: &[u8],
) -> Result<R::Item, DecodeFault>
    requires small { length bytes.now < 2 ^ 32 }
    ensures value { Gives R.view result (whole_at (R.reading reader.now) bytes.now) }
    ensures numbered { IfOk result (λ x. R.is_numbered x ≡ true) }
{
    let (item, left) = reader.read(alloc, bytes)?;
    match left {
        [] => Ok(item),
        [_, ..] => Err(DecodeFault::Malformed(left.len())),
    }
}

// A size, and what that many bytes are read as.
pub fn inside_of<'b, A: Allocator + Clone, R: Reader<A>>(
    alloc: &A,
    reader: &R,
    bytes: &'b [u8],
) -> Result<(R::Item, &'b [u8]), DecodeFault>
    requires small { length bytes.now < 2 ^ 32 }
    ensures value { Gives (λ x. (R.view x.0, x.1.now)) result (inside_at (R.reading reader.now) bytes.now) }
    ensures shorter { IfOk result (λ x. length x.1.now < length bytes.now) }
    ensures numbered { IfOk result (λ x. R.is_numbered x.0 ≡ true) }
{
    let (content, rest) = sized_of(bytes)?;
    match whole_of(alloc, reader, content) {
        Ok(item) => Ok((item, rest)),
        Err(unread) => Err(unread.with_more(rest.len())),
    }
}

// What is left behind the custom sections at the front.
pub fn skip_customs(bytes: &[u8]) -> Result<&[u8], DecodeFault>
    ensures value { Gives (λ x. x.now) result (skip bytes.now) }
    ensures shorter { IfOk result (λ x. length x.now ≤ length bytes.now) }
{
    let mut rest = bytes;
    while let Some((first, after)) = rest.split_first() {
        if *first != 0 {
            return Ok(rest);
        }
        let (content, following) = sized_of(after)?;
        if let Err(unread) = text_of(content) {
            return Err(unread.with_more(following.len()));
        }
        rest = following;
    }
    Ok(rest)
}

// The section of this id, if it is the next, and the custom sections behind it; else what an absent one stands for.
#[tactic(auto, unfolding(laws_modules::specs::ReadingModules::slot_at))]
pub fn slot_of<'b, A: Allocator + Clone, R: Reader<A>>(
    alloc: &A,
    reader: &R,
    id: u8,
    absent: R::Item,
    bytes: &'b [u8],
) -> Result<(R::Item, &'b [u8]), DecodeFault>
    requires small { length bytes.now < 2 ^ 32 }
    requires absent_numbered { R.is_numbered absent ≡ true }
    ensures value { Gives (λ x. (R.view x.0, x.1.now)) result (slot_at id (R.reading reader.now) (R.view absent) bytes.now) }
    ensures shorter { IfOk result (λ x. length x.1.now ≤ length bytes.now) }
    ensures numbered { IfOk result (λ x. R.is_numbered x.0 ≡ true) }
{
    let [first, after @ ..] = bytes else {
        return Ok((absent, bytes));
    };
    if *first != id {
        return Ok((absent, bytes));
    }
    let (item, rest) = inside_of(alloc, reader, after)?;
    let rest = skip_customs(rest)?;
    Ok((item, rest))
}

// The items of the section of this id, none where it is absent.
pub fn list_of<'b, A: Allocator + Clone, R: Reader<A>>(
    alloc: &A,
    reader: &R,
    id: u8,
    bytes: &'b [u8],
) -> Result<(Vec<R::Item, A>, &'b [u8]), DecodeFault>
    requires small { length bytes.now < 2 ^ 32 }
    ensures value { Gives (λ x. (map R.view x.0.items, x.1.now)) result (list_at id (R.reading reader.now) bytes.now) }
    ensures shorter { IfOk result (λ x. length x.1.now ≤ length bytes.now) }
    ensures numbered { IfOk result (λ x. list_all R.is_numbered x.0.items ≡ true) }
{
    let none = Vec::new(alloc.clone()?);
    slot_of(alloc, &VectorOf(reader), id, none, bytes)
}
