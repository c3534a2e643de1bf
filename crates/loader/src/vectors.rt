// What vectors hold.
ghost use Rattle.std.specs.Prelude.{◌≡◌, ℕ, ◌<◌, ◌≤◌, ◌^◌, List, map, Bool, true, length, IfOk};
ghost use Rattle.std.specs.List.{list_all};
ghost use Rattle.expr_reader.specs.Outcome.{Gives};
ghost use Rattle.spec_modules.specs.Reading.{Read};
ghost use Rattle.laws_modules.specs.ReadingExpressions.{items_at, vector_at};

use crate::values::u32_of;
use expr_reader::DecodeFault;
use std::alloc::Allocator;

// How one kind of thing is read.
pub trait Reader<A: Allocator + Clone> {
    type Item: Drop;

    // what an item stands for
    ghost Seen: { Type 0 };

    ghost view: { Self.Item → Self.Seen };

    // how it is read
    ghost reading: { Self → List ℕ → Read Self.Seen };

    // whether the ordinals of its expression, if it has one, count from 0
    ghost is_numbered: { Self.Item → Bool };

    fn read<'b>(&self, alloc: &A, bytes: &'b [u8]) -> Result<(Self::Item, &'b [u8]), DecodeFault>
        requires small { length bytes.now < 2 ^ 32 }
        ensures value { Gives (λ x. (view x.0, x.1.now)) result (reading self.now bytes.now) }
        ensures shorter { IfOk result (λ x. length x.1.now ≤ length bytes.now) }
        ensures numbered { IfOk result (λ x. is_numbered x.0 ≡ true) };
}

// So many items.
pub fn items_of<'b, A: Allocator + Clone, R: Reader<A>>(
    alloc: &A,
    reader: &R,
    count: u32,
    bytes: &'b [u8],
) -> Result<(Vec<R::Item, A>, &'b [u8]), DecodeFault>
    requires small { length bytes.now < 2 ^ 32 }
    ensures value { Gives (λ x. (map R.view x.0.items, x.1.now)) result (items_at (R.reading reader.now) count bytes.now) }
    ensures shorter { IfOk result (λ x. length x.1.now ≤ length bytes.now) }
    ensures numbered { IfOk result (λ x. list_all R.is_numbered x.0.items ≡ true) }
{
    let mut found = Vec::new(alloc.clone()?);
    let mut rest = bytes;
    for _i in 0..count {
        let (item, after) = reader.read(alloc, rest)?;
        found.push(item)?;
        rest = after;
    }
    Ok((found, rest))
}

// A count, and that many items.
#[tactic(auto, unfolding(laws_modules::specs::ReadingExpressions::vector_at))]
pub fn vector_of<'b, A: Allocator + Clone, R: Reader<A>>(
    alloc: &A,
    reader: &R,
    bytes: &'b [u8],
) -> Result<(Vec<R::Item, A>, &'b [u8]), DecodeFault>
    requires small { length bytes.now < 2 ^ 32 }
    ensures value { Gives (λ x. (map R.view x.0.items, x.1.now)) result (vector_at (R.reading reader.now) bytes.now) }
    ensures shorter { IfOk result (λ x. length x.1.now ≤ length bytes.now) }
    ensures numbered { IfOk result (λ x. list_all R.is_numbered x.0.items ≡ true) }
{
    let (count, rest) = u32_of(bytes)?;
    items_of(alloc, reader, count, rest)
}

// A vector of what R reads.
#[derive(Drop)]
pub struct VectorOf<'r, R>(pub &'r R);

impl<A: Allocator + Clone, R: Reader<A>> Reader<A> for VectorOf<'_, R> {
    type Item = Vec<R::Item, A>;

    ghost Seen = { List R.Seen };

    ghost view = { λ v. map R.view v.items };

    ghost reading = { λ v. vector_at (R.reading v.0.now) };

    ghost is_numbered = { λ v. list_all R.is_numbered v.items };

    fn read<'b>(
        &self,
        alloc: &A,
        bytes: &'b [u8],
    ) -> Result<(Vec<R::Item, A>, &'b [u8]), DecodeFault> {
        vector_of(alloc, self.0, bytes)
    }
}
