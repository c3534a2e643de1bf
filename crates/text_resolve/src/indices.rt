//! What indices stand for.
ghost use Rattle.std.specs.Prelude.{◌≡◌, ◌≢◌, ◌≤◌, ◌^◌, length, map, true, Err};
ghost use Rattle.std.specs.List.{list_all};
ghost use Rattle.spec_modules.specs.Limits.{is_u32};
ghost use Rattle.spec_text.specs.Spaces.{Names};
ghost use Rattle.text_body.specs.Views.{index_of};
ghost use Rattle.text_resolve.specs.declared.refusal.ResolveFault.TheVariants.{NoMemory};
ghost use Rattle.text_resolve.specs.Outcome.{Gives};
ghost use Rattle.text_resolve.specs.Lookup.{find, u32_at, stands_at, all_stand_at};

use crate::refusal::ResolveFault;
use lexer::{Piece, unsigned_32};
use std::alloc::Allocator;
use text_body::Index;

/// Names, of which each stands for the index of its first place.
pub trait Finds {
    ghost names: { Self → Names };

    /// The first index of a name. Out of memory is answered only where there are 2^32 names or more.
    fn find(&self, piece: Piece<'_>) -> Result<u32, ResolveFault>
        ensures found { Gives (λ n. n) result (find piece.entry.text.now (names self.now)) }
        ensures memory { result ≡ Err NoMemory → 2 ^ 32 ≤ length (names self.now) };
}

/// The number of a `u32`.
pub fn number(piece: Piece<'_>) -> Result<u32, ResolveFault>
    ensures value { Gives (λ n. n) result (u32_at piece.entry.text.now) }
    ensures memory { result ≢ Err NoMemory }
{
    match unsigned_32(piece.text) {
        Some(n) => Ok(n),
        None => Err(ResolveFault::NumberRange(piece.at)),
    }
}

/// The number that an index stands for among names. Out of memory is answered only where there are 2^32 names or more.
pub fn index_in<N: Finds>(names: &N, index: Index<'_>) -> Result<u32, ResolveFault>
    ensures value { Gives (λ n. n) result (stands_at (N.names names.now) (index_of index.entry)) }
    ensures memory { result ≡ Err NoMemory → 2 ^ 32 ≤ length (N.names names.now) }
{
    match index {
        Index::Numbered(piece) => number(piece),
        Index::Named(piece) => names.find(piece),
    }
}

/// The numbers that indices stand for among names.
pub fn indices_in<'a, A: Allocator + Clone, N: Finds>(
    alloc: &A,
    names: &N,
    indices: &Vec<Index<'a>, A>,
) -> Result<Vec<u32, A>, ResolveFault>
    ensures { Gives (λ ns. ns.items) result (all_stand_at (stands_at (N.names names.now)) (map index_of indices.now.items)) }
{
    let mut numbers = Vec::new(alloc.clone()?);
    for index in indices {
        numbers.push(index_in(names, *index)?)?;
    }
    Ok(numbers)
}

/// The numbers of a list are in the range of their type.
pub fn are_in_range<A: Allocator>(numbers: &Vec<u32, A>)
    ensures { list_all is_u32 numbers.now.items ≡ true }
{
    let _len = numbers.len();
}
