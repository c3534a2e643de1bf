//! The labels of open blocks, by name.

use crate::faults::Faults;
use crate::names::{Counts, count_of};
use lexer::Piece;
use std::alloc::Allocator;
use std::collections::HashMap;
use text_body::Index;
use text_resolve::{ResolveFault, number};
use wtypes::NoMemory;

/// The labels of the blocks that are open, the innermost last, and how many there are of each name.
#[derive(Drop)]
pub struct OpenLabels<'a, A: Allocator> {
    open: Vec<Option<Piece<'a>>, A>,
    counts: Counts<'a, A>,
}

impl<'a, A: Allocator + Clone> OpenLabels<'a, A> {
    /// No block is open.
    pub fn none(alloc: &A) -> Result<OpenLabels<'a, A>, NoMemory> {
        Ok(OpenLabels {
            open: Vec::new(alloc.clone()?),
            counts: HashMap::new(alloc.clone()?),
        })
    }

    /// How many blocks are open.
    pub fn depth(&self) -> usize {
        self.open.len()
    }

    /// Goes into a block.
    pub fn enter(&mut self, label: Option<Piece<'a>>) -> Result<(), NoMemory> {
        self.open.push(label)?;
        if let Some(piece) = label {
            let count = count_of(&self.counts, piece.text);
            self.counts.insert(piece.text, count.saturating_add(1))?;
        }
        Ok(())
    }

    /// Goes out of the innermost block.
    pub fn leave(&mut self) -> Result<(), NoMemory> {
        if let Some(Some(piece)) = self.open.pop() {
            let count = count_of(&self.counts, piece.text);
            self.counts.insert(piece.text, count.saturating_sub(1))?;
        }
        Ok(())
    }

    /// A name behind `end` or `else` has to be that of the innermost block.
    pub fn check_closing(
        &self,
        closing: Option<Piece<'a>>,
        faults: &mut Faults,
    ) -> Result<(), NoMemory> {
        let Some(written) = closing else {
            return Ok(());
        };
        if let Some(Some(label)) = self.open.last() {
            if label.text == written.text {
                return Ok(());
            }
        }
        faults.note(ResolveFault::UnknownName(written.at))
    }

    /// An index of a branch has to be a number or the name of an open block.
    pub fn check(&self, index: Index<'a>, faults: &mut Faults) -> Result<(), NoMemory> {
        match index {
            Index::Numbered(piece) => faults.take(number(piece)),
            Index::Named(piece) => {
                if count_of(&self.counts, piece.text) > 0 {
                    return Ok(());
                }
                faults.note(ResolveFault::UnknownName(piece.at))
            }
        }
    }
}
