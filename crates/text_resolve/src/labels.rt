//! Labels.
ghost use Rattle.std.specs.Prelude.{◌≡◌, [], ◌∷◌, map, drop, OnOk, IfErr};
ghost use Rattle.text_body.specs.Views.{text_of};
ghost use Rattle.text_resolve.specs.declared.refusal.ResolveFault.TheVariants.{NoMemory};
ghost use Rattle.text_resolve.specs.Outcome.{Gives};
ghost use Rattle.text_resolve.specs.Lookup.{is_name, find};

use crate::indices::Finds;
use crate::refusal::ResolveFault;
use lexer::Piece;
use std::alloc::Allocator;

/// The labels of the blocks that are open, the innermost first. One hides an outer one of its name.
#[derive(Drop)]
pub struct Labels<'a, A: Allocator> {
    /// The name of each, where it has one.
    pub open: Vec<Option<Piece<'a>>, A>,
}

/// Whether this is the name.
fn is_named(name: Option<Piece<'_>>, id: &[u8]) -> bool
    ensures { result ≡ is_name id.now (text_of name.entry) }
{
    match name {
        None => false,
        Some(piece) => piece.text == id,
    }
}

impl<'a, A: Allocator> Labels<'a, A> {
    /// No label.
    pub fn new(alloc: A) -> Labels<'a, A>
        ensures { result.open.items ≡ [] }
    {
        Labels {
            open: Vec::new(alloc),
        }
    }

    /// Goes into a block.
    pub fn enter(&mut self, label: Option<Piece<'a>>) -> Result<(), ResolveFault>
        ensures entered { OnOk result (self.new.open.items ≡ label.entry ∷ self.old.open.items) }
        ensures refused { IfErr result (λ e. e ≡ NoMemory) }
    {
        self.open.insert(0, label)?;
        Ok(())
    }

    /// Goes out of the innermost block, if there is one.
    pub fn leave(&mut self)
        ensures { self.new.open.items ≡ drop 1 self.old.open.items }
    {
        if !self.open.is_empty() {
            self.open.remove(0);
        }
    }
}

impl<A: Allocator> Finds for Labels<'_, A> {
    ghost names = { λ labels. map text_of labels.open.items };

    fn find(&self, piece: Piece<'_>) -> Result<u32, ResolveFault> {
        let mut next: u32 = 0;
        for label in &self.open {
            if next == u32::MAX {
                return Err(ResolveFault::NoMemory);
            }
            if is_named(*label, piece.text) {
                return Ok(next);
            }
            next += 1;
        }
        Err(ResolveFault::UnknownName(piece.at))
    }
}
