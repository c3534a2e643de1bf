//! Index spaces.
ghost use Rattle.std.specs.Prelude.{◌≡◌, ℕ, List, map, cond, is_some, Some, OnOk, IfOk, IfErr};
ghost use Rattle.std.specs.Str.{bytes_eq};
ghost use Rattle.spec_text.specs.Spaces.{AreDistinct};
ghost use Rattle.text_body.specs.Views.{text_of};
ghost use Rattle.text_resolve.specs.declared.refusal.ResolveFault.TheVariants.{NoMemory};
ghost use Rattle.text_resolve.specs.Outcome.{Unless};
ghost use Rattle.text_resolve.specs.Lookup.{find};
ghost use Rattle.text_resolve.specs.Firsts.{first_of};

use crate::indices::Finds;
use crate::refusal::ResolveFault;
use lexer::Piece;
use std::alloc::Allocator;
use std::collections::HashMap;
use std::hash::{BuildHasherDefault, FoldHasher};

/// The first index of each name.
type Firsts<'a, A> = HashMap<&'a [u8], u32, BuildHasherDefault<FoldHasher>, A>;

/// An index space: the names of its indices, first to last.
#[derive(Drop)]
pub struct Space<'a, A: Allocator> {
    /// The name of each index, where it has one.
    pub names: Vec<Option<Piece<'a>>, A>,
    /// The first index of each name.
    pub firsts: Firsts<'a, A>,
    pub ghost found: { (id : List ℕ) → first_of firsts id ≡ find id (map text_of names.items) },
}

// Whether the name is in the map.
fn is_taken<'a, A: Allocator>(firsts: &Firsts<'a, A>, id: &'a [u8]) -> bool
    ensures { result ≡ is_some (first_of firsts.now id.now) }
{
    firsts.contains_key(&id)
}

// Puts the index of a name into the map.
fn put_first<'a, A: Allocator + Clone>(
    firsts: &mut Firsts<'a, A>,
    id: &'a [u8],
    index: u32,
) -> Result<(), ResolveFault>
    ensures put { OnOk result ((q : List ℕ) → first_of firsts.new q ≡ cond (bytes_eq id.entry.now q) (Some index) (first_of firsts.old q)) }
    ensures refused { IfErr result (λ e. e ≡ NoMemory) }
{
    firsts.insert(id, index)?;
    Ok(())
}

// The first index of each name.
fn firsts_of<'a, A: Allocator + Clone>(
    alloc: &A,
    names: &Vec<Option<Piece<'a>>, A>,
) -> Result<Firsts<'a, A>, ResolveFault>
    ensures found { IfOk result (λ firsts. (id : List ℕ) → first_of firsts id ≡ find id (map text_of names.now.items)) }
    ensures distinct { IfOk result (λ _. AreDistinct (map text_of names.now.items)) }
    ensures refused { IfErr result (Unless (AreDistinct (map text_of names.now.items) → ⊥)) }
{
    let mut firsts: Firsts<A> = HashMap::new(alloc.clone()?);
    let mut next: u32 = 0;
    for name in names {
        if next == u32::MAX {
            return Err(ResolveFault::NoMemory);
        }
        if let Some(piece) = name {
            if is_taken(&firsts, piece.text) {
                return Err(ResolveFault::RepeatedName(piece.at));
            }
            put_first(&mut firsts, piece.text, next)?;
        }
        next += 1;
    }
    Ok(firsts)
}

impl<'a, A: Allocator + Clone> Space<'a, A> {
    /// The space of these names. It is refused for another cause than memory only where a name stands twice: the place
    /// is that of the first repeated one.
    pub fn of(alloc: &A, names: Vec<Option<Piece<'a>>, A>) -> Result<Space<'a, A>, ResolveFault>
        ensures names { IfOk result (λ space. space.names.items ≡ names.entry.items) }
        ensures distinct { IfOk result (λ _. AreDistinct (map text_of names.entry.items)) }
        ensures refused { IfErr result (Unless (AreDistinct (map text_of names.entry.items) → ⊥)) }
    {
        let firsts = firsts_of(alloc, &names)?;
        Ok(Space { names, firsts })
    }
}

impl<A: Allocator> Finds for Space<'_, A> {
    ghost names = { λ space. map text_of space.names.items };

    fn find(&self, piece: Piece<'_>) -> Result<u32, ResolveFault> {
        match self.firsts.get(&piece.text) {
            Some(index) => Ok(*index),
            None => Err(ResolveFault::UnknownName(piece.at)),
        }
    }
}
