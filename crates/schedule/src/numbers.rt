//! Lists of positions and of gates.

ghost use Rattle.std.specs.Prelude.{◌≡◌, [], ◌∷◌, ◌++◌, ◌↔◌, ℕ, IfOk, OnOk};
ghost use Rattle.std.specs.List.{Contains};
ghost use Rattle.std.specs.List.Sorted.{IsStrictlyIncreasing};

use std::alloc::{Allocator, Global};
use std::marker::Model;
use wtypes::NoMemory;

/// The numbers of positions or of gates. Contracts see their list.
#[derive(Drop)]
pub(crate) struct Numbers<A: Allocator = Global> {
    list: Vec<u32, A>,
}

impl<A: Allocator> Model for Numbers<A> {
    ghost use Rattle.std.specs.Prelude.{List, ℕ};
    ghost use Rattle.std.specs.Coded.{coded_list, coded_ℕ};

    ghost Value = { List ℕ };

    ghost coded = { coded_list coded_ℕ };

    ghost view = { λ n. n.list.items };
}

impl<A: Allocator> Numbers<A> {
    /// No numbers.
    pub(crate) fn new(alloc: A) -> Self
        ensures { result ≡ [] }
    {
        Numbers {
            list: Vec::new(alloc),
        }
    }

    /// These numbers.
    pub(crate) fn from_list(list: Vec<u32, A>) -> Self
        ensures { result ≡ list.items }
    {
        Numbers { list }
    }

    /// Sets a number at the end.
    pub(crate) fn push(&mut self, number: u32) -> Result<(), NoMemory>
        ensures { OnOk result (self.new ≡ self.old ++ number ∷ []) }
    {
        self.list.push(number)?;
        Ok(())
    }

    /// The numbers.
    pub(crate) fn as_slice(&self) -> &[u32]
        ensures { result.now ≡ self.now }
    {
        &self.list
    }

    /// The same numbers once more.
    pub(crate) fn copy(&self, alloc: A) -> Result<Self, NoMemory>
        ensures { IfOk result (λ copy. copy ≡ self.now) }
    {
        let list = Vec::from_slice(alloc, &self.list)?;
        Ok(Numbers { list })
    }
}

/// The same numbers, each once and strictly rising.
pub(crate) fn rising<A: Allocator>(mut list: Vec<u32, A>) -> Vec<u32, A>
    ensures rises { IsStrictlyIncreasing result.items }
    ensures same { (n : ℕ) → Contains result.items n ↔ Contains list.items n }
{
    list.sort_unstable();
    list.dedup();
    list
}
