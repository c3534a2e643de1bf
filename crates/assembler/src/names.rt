//! Index spaces in which a name may stand twice.

use crate::faults::Faults;
use lexer::Piece;
use std::alloc::Allocator;
use std::collections::HashMap;
use std::hash::{BuildHasherDefault, FoldHasher};
use text_resolve::{ResolveFault, Space};
use wtypes::NoMemory;

/// How often each name stands somewhere.
pub type Counts<'a, A> = HashMap<&'a [u8], u32, BuildHasherDefault<FoldHasher>, A>;

/// How often a name stands there.
pub fn count_of<'a, A: Allocator>(counts: &Counts<'a, A>, id: &'a [u8]) -> u32 {
    match counts.get(&id) {
        Some(count) => *count,
        None => 0,
    }
}

// The name, unless it stood before, which is a fault.
fn first_use<'a, A: Allocator + Clone>(
    counts: &mut Counts<'a, A>,
    name: Option<Piece<'a>>,
    faults: &mut Faults,
) -> Result<Option<Piece<'a>>, NoMemory> {
    let Some(piece) = name else {
        return Ok(None);
    };
    if count_of(counts, piece.text) > 0 {
        faults.note(ResolveFault::RepeatedName(piece.at))?;
        return Ok(None);
    }
    counts.insert(piece.text, 1)?;
    Ok(Some(piece))
}

/// The space of these names, each for its first index. A repeated one is a fault.
pub fn space_of<'a, A: Allocator + Clone>(
    alloc: &A,
    names: &Vec<Option<Piece<'a>>, A>,
    faults: &mut Faults,
) -> Result<Space<'a, A>, NoMemory> {
    let mut counts: Counts<A> = HashMap::new(alloc.clone()?);
    let mut firsts = Vec::new(alloc.clone()?);
    for name in names {
        let first = first_use(&mut counts, *name, faults)?;
        firsts.push(first)?;
    }
    match Space::of(alloc, firsts) {
        Ok(space) => Ok(space),
        Err(_) => Err(NoMemory),
    }
}
